// Rows in plain layout, of which only the validity is given.

ghost use Rattle.std.specs.Prelude.{◌≡◌, ◌<◌, ℕ, [], None, Some, true, false, replicate, if◌then◌else◌};
ghost use Rattle.std.specs.List.{All};
ghost use Rattle.vx_base.specs.DTypes.{dtype_meaning, is_nullable, kinds_of};
ghost use Rattle.vx_base.specs.Kinds.{is_nullable_kind, or_nullable};
ghost use Rattle.vx_base.specs.Refusals.{Gives, overflow};
ghost use Rattle.vx_tree.specs.Tree.{all_invalid, non_nullable};
ghost use Rattle.vx_tree.specs.Meaning.{kind_of, is_valid_at, nullable, trees_from};
ghost use Rattle.vx_tree.specs.Shapes.{state_of, tree_state, taken_state};
ghost use Rattle.vx_tree.specs.Formed.{ValidFits};
ghost use Rattle.vx_tree.specs.Plain.{IsPlain, ArePlain, IsPlainValid};
ghost use Rattle.vx_tree.specs.Parts.{valid_of};
ghost use Rattle.vx_canonical.specs.PlainValues.{ArePlainValues};
ghost use Rattle.vx_tree.specs.Extents.{extent_of, rows_extent};
ghost use Rattle.vx_canonical.specs.Canonical.{IsBlank, IsBlankPart, AreBlankParts, IsPlainNulls};
ghost use Rattle.vx_tree.specs.CanonicalFaults.{plain_overflow, fields_overflow};

use crate::canonical::canonical_validity;
use crate::canonical_nested::plain_values;
use crate::layouts::var_bin_view::blank_views;
use std::alloc::Global;
use vx_base::{BitBuffer, DType, Nullability, VortexError, zero_numbers};
use vx_tree::{ArrayRef, Layout, Validity};

// Rows of this validity in plain layout, made of zeroes: lists have no elements and texts no
// buffers. Asks that null may stand in the data type just where it may under the validity, and
// that the elements can be counted.
pub(crate) fn blank(
    alloc: Global,
    dtype: &DType,
    len: usize,
    validity: Validity,
) -> Result<ArrayRef, VortexError>
    requires fits { ValidFits (valid_of validity) len }
    requires plain { IsPlainValid (valid_of validity) }
    requires nullable { nullable (valid_of validity) ≡ is_nullable_kind (dtype_meaning dtype.now) }
    requires countable { plain_overflow (dtype_meaning dtype.now) len ≡ None }
    ensures { Gives result (IsBlank (dtype_meaning dtype.now) (rows_extent (dtype_meaning dtype.now) []) len (valid_of validity)) }
{
    let none = plain_values(alloc, dtype, &[])?;
    blank_like(alloc, &none, len, validity)
}

// Rows of null in the layout of this, which is plain, by a validity that is nowhere true, in
// the state of this taken by it. They keep the elements of lists and the buffers of texts.
pub(crate) fn plain_nulls(
    alloc: Global,
    array: &ArrayRef,
    len: usize,
    nulls: &Validity,
) -> Result<ArrayRef, VortexError>
    requires plain { IsPlain array.now }
    requires fits { ValidFits (valid_of nulls.now) len }
    requires none { (i : ℕ) → i < len → is_valid_at (valid_of nulls.now) i ≡ false }
    requires countable { plain_overflow (kind_of array.now) len ≡ None }
    ensures { Gives result (IsPlainNulls (or_nullable (nullable (valid_of nulls.now)) (kind_of array.now)) (extent_of array.now) len
        (taken_state (tree_state array.now) (state_of (valid_of nulls.now)))) }
{
    let own = array.validity(alloc)?;
    let taken = own.nulls(alloc, len, nulls)?;
    let plain = canonical_validity(alloc, &taken, len)?;
    blank_like(alloc, array, len, plain)
}

// Rows of this validity in the layout of this, which is plain, made of zeroes. They keep the
// elements of lists and the buffers of texts. Asks that null may stand under the validity where
// it may in this, and that the elements can be counted.
#[cycle(blank)]
#[tactic(auto, using(crate::proofs::Blanks::blanks))]
pub(crate) fn blank_like(
    alloc: Global,
    array: &ArrayRef,
    len: usize,
    validity: Validity,
) -> Result<ArrayRef, VortexError>
    requires rows { IsPlain array.now }
    requires fits { ValidFits (valid_of validity) len }
    requires plain { IsPlainValid (valid_of validity) }
    requires nullable { is_nullable_kind (kind_of array.now) ≡ true → nullable (valid_of validity) ≡ true }
    requires countable { plain_overflow (kind_of array.now) len ≡ None }
    ensures { Gives result (IsBlank (or_nullable (nullable (valid_of validity)) (kind_of array.now)) (extent_of array.now) len
        (valid_of validity)) }
{
    match array.layout() {
        Layout::Bool { .. } => {
            ArrayRef::bools(alloc, BitBuffer::new_unset(alloc, len)?, validity)
        }
        Layout::Primitive { ptype, .. } => {
            ArrayRef::primitive(alloc, *ptype, zero_numbers(alloc, *ptype, len)?, validity)
        }
        Layout::FixedSizeList { elements, size, .. } => {
            let elements = blank_part(alloc, elements, len * *size as usize)?;
            ArrayRef::fixed_size_list(alloc, elements, *size, validity, len)
        }
        Layout::ListView {
            elements,
            offsets,
            sizes,
            ..
        } => {
            let elements = elements.try_clone(alloc)?;
            let offsets = ArrayRef::zeroes(alloc, offsets.dtype().as_ptype(), len)?;
            let sizes = ArrayRef::zeroes(alloc, sizes.dtype().as_ptype(), len)?;
            ArrayRef::list_view(alloc, elements, offsets, sizes, validity, false)
        }
        Layout::Struct { names, columns, .. } => {
            let columns = blank_columns(alloc, columns, len)?;
            let names = names.try_clone(alloc)?;
            ArrayRef::structure(alloc, names, columns, validity, len)
        }
        Layout::VarBinView { .. } => blank_views(alloc, array, len, validity),
        Layout::Constant { .. } | Layout::Dict { .. } => unreachable!(),
    }
}

// So many rows of no value, like this array of none, made of zeroes. Asks for one row at least,
// and that the elements can be counted.
#[tactic(auto, using(crate::proofs::Blanks::missing))]
pub(crate) fn missing_rows(
    alloc: Global,
    array: &ArrayRef,
    len: usize,
) -> Result<ArrayRef, VortexError>
    requires none { ArePlainValues (kind_of array.now) [] array.now }
    requires some { 0 < len }
    requires countable { plain_overflow (kind_of array.now) len ≡ None }
    ensures { Gives result (ArePlainValues (kind_of array.now) (replicate len None)) }
{
    array.known();
    let validity = missing_validity(array.dtype().nullability());
    blank_like(alloc, array, len, validity)
}

// So many rows in the layout of this, which is plain, made of zeroes, and null where null may stand.
#[cycle(blank)]
pub(crate) fn blank_part(
    alloc: Global,
    array: &ArrayRef,
    len: usize,
) -> Result<ArrayRef, VortexError>
    requires plain { IsPlain array.now }
    requires countable { plain_overflow (kind_of array.now) len ≡ None }
    ensures { Gives result (IsBlankPart (kind_of array.now) (extent_of array.now) len) }
{
    array.known();
    let validity = if array.dtype().is_nullable() {
        Validity::AllInvalid
    } else {
        Validity::NonNullable
    };
    blank_like(alloc, array, len, validity)
}

// So many rows in the layout of each column, made of zeroes, and null where null may stand.
#[cycle(blank)]
fn blank_columns(
    alloc: Global,
    columns: &[ArrayRef],
    len: usize,
) -> Result<Vec<ArrayRef>, VortexError>
    requires plain { ArePlain (trees_from columns.now) }
    requires countable { All (λ t. plain_overflow (kind_of t) len ≡ None) columns.now }
    ensures { Gives result (λ cs. AreBlankParts columns.now len cs.items) }
{
    let mut made = Vec::with_capacity(alloc, columns.len())?;
    for column in columns {
        made.push(blank_part(alloc, column, len)?)?;
    }
    Ok(made)
}

// The validity of rows of no value.
pub(crate) fn missing_validity(nullability: Nullability) -> Validity
    ensures { valid_of result ≡ (if is_nullable nullability then all_invalid else non_nullable) }
{
    match nullability {
        Nullability::NonNullable => Validity::NonNullable,
        Nullability::Nullable => Validity::AllInvalid,
    }
}

// Whether so many rows of a data type need no more elements in plain layout than can be counted.
#[tactic(auto, using(crate::proofs::PlainKinds::record_overflow))]
#[cycle(is_countable)]
pub(crate) fn is_countable(dtype: &DType, len: usize) -> bool
    ensures { plain_overflow (dtype_meaning dtype.now) len ≡ (if result then None else Some overflow) }
{
    match dtype {
        DType::Bool(_) | DType::Primitive(_, _) | DType::Utf8(_) | DType::Binary(_) => true,
        DType::List(_, _) => true,
        DType::FixedSizeList(items, size, _) => match len.checked_mul(*size as usize) {
            Some(count) => is_countable(items, count),
            None => false,
        },
        DType::Struct(fields, _) => are_countable(fields.fields(), len),
    }
}

// Whether so many rows of each data type need no more elements than can be counted.
#[cycle(is_countable)]
fn are_countable(dtypes: &[DType], len: usize) -> bool
    ensures { fields_overflow (kinds_of dtypes.now) len ≡ (if result then None else Some overflow) }
{
    for dtype in dtypes {
        if !is_countable(dtype, len) {
            return false;
        }
    }
    true
}
