// What is tested of the parts of an array of views, and the views of its null rows.

ghost use Rattle.std.specs.Prelude.{◌≡◌, ℕ, length, Some, None, IfOk, OnOk, if◌then◌else◌};
ghost use Rattle.vx_base.specs.DTypes.{dtype_meaning};
ghost use Rattle.vx_base.specs.Refusals.{Gives, Refuses, Tests, mismatched_types};
ghost use Rattle.vx_tree.specs.Faults.{valid_type_fault};
ghost use Rattle.vx_tree.specs.Formed.{ValidFits, value_kind};
ghost use Rattle.vx_tree.specs.Meaning.{is_texts, nullable, valid_mask};
ghost use Rattle.vx_tree.specs.Parts.{valid_of};
ghost use Rattle.vx_text.specs.Texts.{AreViewParts, emptied_views};
ghost use Rattle.vx_text.specs.TextFaults.{is_values, parts_fault, view_array_fault};

use std::alloc::Global;
use vx_base::{Buffer, ByteBuffer, DType, Mask, VortexError};
use vx_tree::Validity;
use vx_views::{BinaryView, check_and_empty_views, check_views};

// How many bytes of whole buffers may be read ahead for each valid row.
const BUDGET_OF_A_ROW: usize = 64;

// Whether the rows are texts.
pub(crate) fn is_utf8(dtype: &DType) -> bool
    ensures { result ≡ is_texts (dtype_meaning dtype.now) }
{
    match dtype {
        DType::Utf8(_) => true,
        DType::Binary(_) | DType::Bool(_) | DType::Primitive(_, _) => false,
        DType::List(_, _) | DType::FixedSizeList(_, _, _) | DType::Struct(_, _) => false,
    }
}

// Whether the rows are texts or byte lists.
pub(crate) fn has_values(dtype: &DType) -> bool
    ensures { result ≡ is_values (dtype_meaning dtype.now) }
{
    match dtype {
        DType::Utf8(_) | DType::Binary(_) => true,
        DType::Bool(_) | DType::Primitive(_, _) | DType::List(_, _) => false,
        DType::FixedSizeList(_, _, _) | DType::Struct(_, _) => false,
    }
}

// Whether the validity's array, where there is one, is of plain booleans.
fn is_plain(validity: &Validity) -> bool
    ensures { valid_type_fault (valid_of validity.now) ≡ (if result then None else Some mismatched_types) }
{
    match validity {
        Validity::Array(array) => array.dtype().is_plain_bool(),
        _ => true,
    }
}

// Refuses a data type that is neither one of texts nor of byte lists, a validity array that is not
// one of plain booleans, a validity under which null may stand where it may not under the data
// type, or the other way round, then a validity of another number of rows.
fn check_parts(len: usize, dtype: &DType, validity: &Validity) -> Result<(), VortexError>
    ensures kind { let k = dtype_meaning dtype.now in
        OnOk result (k ≡ value_kind (is_texts k) (nullable (valid_of validity.now))) }
    ensures fits { OnOk result (ValidFits (valid_of validity.now) len) }
    ensures tests { Tests result (parts_fault len (dtype_meaning dtype.now) (valid_of validity.now)) }
{
    if !has_values(dtype) || !is_plain(validity) {
        return Err(VortexError::MismatchedTypes);
    }
    if dtype.nullability() != validity.nullability() {
        return Err(VortexError::NullabilityMismatch);
    }
    validity.check(len)
}

// The mask of `len` views, where the other parts fit them; else their first fault.
pub(crate) fn parts_mask(
    alloc: Global,
    len: usize,
    dtype: &DType,
    validity: &Validity,
) -> Result<Mask, VortexError>
    ensures mask { IfOk result (λ m. m ≡ valid_mask (valid_of validity.now) len) }
    ensures kind { let k = dtype_meaning dtype.now in
        IfOk result (λ _. k ≡ value_kind (is_texts k) (nullable (valid_of validity.now))) }
    ensures fits { IfOk result (λ _. ValidFits (valid_of validity.now) len) }
    ensures refuses { Refuses result (parts_fault len (dtype_meaning dtype.now) (valid_of validity.now)) }
{
    check_parts(len, dtype, validity)?;
    validity.execute_mask(alloc, len)
}

// How many bytes of whole buffers may be read ahead where these rows are checked.
pub(crate) fn budget_of(mask: &Mask) -> usize {
    mask.true_count().saturating_mul(BUDGET_OF_A_ROW)
}

// The views of parts that make an array, those of null rows emptied; else the parts' first fault.
// The views are gone through once, and copied only where another buffer shares them.
pub(crate) fn checked_views(
    alloc: Global,
    views: Buffer<BinaryView>,
    buffers: &[ByteBuffer],
    dtype: &DType,
    validity: &Validity,
) -> Result<Buffer<BinaryView>, VortexError>
    ensures views { IfOk result (λ b. b
        ≡ emptied_views views (valid_mask (valid_of validity.now) (length views))) }
    ensures parts { IfOk result (λ _. AreViewParts views buffers.now (dtype_meaning dtype.now) (valid_of validity.now)) }
    ensures refuses { Refuses result
        (view_array_fault views buffers.now (dtype_meaning dtype.now) (valid_of validity.now)) }
{
    let mask = parts_mask(alloc, views.len(), dtype, validity)?;
    let (is_text, budget) = (is_utf8(dtype), budget_of(&mask));
    if mask.all_true() {
        check_views(alloc, views.as_slice(), &mask, buffers, is_text, budget)?;
        return Ok(views);
    }
    let mut own = views.into_vec(alloc)?;
    check_and_empty_views(alloc, own.as_mut_slice(), &mask, buffers, is_text, budget)?;
    Buffer::from_vec(alloc, own)
}

// The views where the mask is true, and 16 zero bytes elsewhere.
pub(crate) fn emptied(
    alloc: Global,
    views: Buffer<BinaryView>,
    mask: &Mask,
) -> Result<Buffer<BinaryView>, VortexError>
    requires { length mask.now ≡ length views }
    ensures { Gives result (λ b. b ≡ emptied_views views mask.now) }
{
    if mask.all_true() {
        return Ok(views);
    }
    let mut own = views.into_vec(alloc)?;
    empty_null_views(own.as_mut_slice(), mask);
    Buffer::from_vec(alloc, own)
}

// Each view where the mask is false becomes the view of no bytes, 16 zero bytes.
fn empty_null_views(views: &mut [BinaryView], mask: &Mask)
    requires { length mask.now ≡ length views.old }
    ensures { views.new ≡ emptied_views views.old mask.now }
{
    let mut valid = mask.rows();
    for (row, view) in views.iter_mut().enumerate() {
        if !valid.value(row) {
            *view = BinaryView::empty_view();
        }
    }
}
