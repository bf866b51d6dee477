//! Columns of texts whose parts come from outside.

ghost use Rattle.std.specs.Prelude.{◌≡◌, ◌<◌, true, length, IfOk};
ghost use Rattle.std.specs.Option.{option_map};
ghost use Rattle.vx_base.specs.Kinds.{texts};
ghost use Rattle.vx_base.specs.Refusals.{Gives, Refuses};
ghost use Rattle.vx_tree.specs.Meaning.{is_texts, kind_of, nullable, row_at, tree_len};
ghost use Rattle.vx_tree.specs.Parts.{valid_of};
ghost use Rattle.vx_tree.specs.Values.{bytes_in};
ghost use Rattle.vx_text.specs.Texts.{HasValues};
ghost use Rattle.vx_uses.specs.ForeignTexts.{AreForeignTexts, foreign_fault, text_bytes};

use std::alloc::Global;
use vx_base::{Buffer, ByteBuffer, DType, VortexError};
use vx_text::VarBinViewArray;
use vx_tree::{TypedArray, Validity, rows_fit_their_dtype};
use vx_views::BinaryView;

/// The texts of foreign views: of each row just the text that its view refers to, none where the
/// validity is false. The views, the buffers and the validity are lent: they are shared, and stay
/// as they are. The views of `abc` and of a null row give the texts `abc` and none.
///
/// Refuses as `VarBinViewArray::try_new` does of texts: `MismatchedTypes` where the validity has an
/// array that is not one of plain booleans; `LengthMismatch` where it has not one row a view; then
/// at the first faulty valid row `BadBuffer`, `BadStart`, `BadEnd`, `BadPrefix` or `NotUtf8`.
pub fn foreign_texts(
    alloc: Global,
    views: &Buffer<BinaryView>,
    buffers: &[ByteBuffer],
    validity: &Validity,
) -> Result<Vec<Option<String>>, VortexError>
    ensures texts { IfOk result (λ found.
        AreForeignTexts views.now buffers.now (valid_of validity.now) found.items) }
    ensures refuses { Refuses result (foreign_fault views.now buffers.now (valid_of validity.now)) }
{
    let column = shared_column(alloc, views, buffers, validity)?;
    let mut found = Vec::with_capacity(alloc, column.len())?;
    for row in 0..column.len() {
        found.push(owned(alloc, text_at(&column, row))?)?;
    }
    Ok(found)
}

/// The text of a row, none where it is null, with no copy. Asks a column of texts, and a row below
/// the length.
pub fn text_at(column: &VarBinViewArray, row: usize) -> Option<&str>
    requires texts { is_texts (kind_of column.now) ≡ true }
    requires in_bounds { row < tree_len column.now }
    ensures { option_map (λ text. text.now) result ≡ bytes_in (row_at column.now row) }
{
    let array = column.as_array();
    rows_fit_their_dtype(array);
    let bytes = array.bytes_at(row)?;
    match std::str::from_utf8(bytes) {
        Ok(text) => Some(text),
        Err(_) => unreachable!(),
    }
}

// A text, copied, if there is one.
fn owned(alloc: Global, text: Option<&str>) -> Result<Option<String>, VortexError>
    ensures { Gives result (λ copied. text_bytes copied ≡ option_map (λ t. t.now) text.entry) }
{
    match text {
        Some(text) => Ok(Some(String::from_str(alloc, text)?)),
        None => Ok(None),
    }
}

// The column of these texts, the parts shared.
fn shared_column(
    alloc: Global,
    views: &Buffer<BinaryView>,
    buffers: &[ByteBuffer],
    validity: &Validity,
) -> Result<VarBinViewArray, VortexError>
    ensures rows { let v = valid_of validity.now in IfOk result
        (HasValues views.now buffers.now (texts (nullable v)) v) }
    ensures len { IfOk result (λ a. tree_len a ≡ length views.now) }
    ensures kind { IfOk result (λ a. kind_of a ≡ texts (nullable (valid_of validity.now))) }
    ensures refuses { Refuses result (foreign_fault views.now buffers.now (valid_of validity.now)) }
{
    let views = views.try_clone(alloc)?;
    let buffers = shared_buffers(alloc, buffers)?;
    let dtype = DType::Utf8(validity.nullability());
    let validity = validity.try_clone(alloc)?;
    VarBinViewArray::try_new(alloc, views, buffers, dtype, validity)
}

// The same buffers, shared.
fn shared_buffers(alloc: Global, buffers: &[ByteBuffer]) -> Result<Vec<ByteBuffer>, VortexError>
    ensures { Gives result (λ shared. shared.items ≡ buffers.now) }
{
    let mut shared = Vec::with_capacity(alloc, buffers.len())?;
    for buffer in buffers {
        shared.push(buffer.try_clone(alloc)?)?;
    }
    Ok(shared)
}
