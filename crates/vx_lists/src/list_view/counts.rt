// Arrays of counts, as offsets and sizes are: read one at a time, as bytes of their type, and made.
// Counts that are all one, as the layout says, are read once.

ghost use Rattle.std.specs.Prelude.{◌≡◌, ◌<◌, ℕ, pos, true, length, slice_index, IfOk, IfSome, IsTrue};
ghost use Rattle.std.specs.List.{All};
ghost use Rattle.vx_base.specs.Integers.{Holds, numbers};
ghost use Rattle.vx_base.specs.Kinds.{integer_type, is_plain_integers};
ghost use Rattle.vx_base.specs.Refusals.{Gives};
ghost use Rattle.vx_base.specs.Rows.{count_in};
ghost use Rattle.vx_tree.specs.Formed.{IsCounts};
ghost use Rattle.vx_tree.specs.Meaning.{tree_len, kind_of, row_at};
ghost use Rattle.vx_tree.specs.Tree.{primitive, non_nullable};
ghost use Rattle.vx_lists.specs.ListViews.CountBytes.{counts_of, AreCountBytes, HoldCounts};
ghost use Rattle.vx_lists.specs.ListViews.Faults.{AreRepeated};
ghost use Rattle.vx_lists.specs.ListViews.{counts_in};

use std::alloc::Global;
use vx_base::{
    ByteBuffer, NativePType, PType, Selection, VortexError, gather_numbers, int_at, read_counts,
    write_counts,
};
use vx_tree::{ArrayRef, Layout};

// Row `i` of an array of counts.
#[tactic(auto, using(crate::proofs::ListViews::CountArrays::integer_kinds))]
pub(crate) fn count_at(array: &ArrayRef, i: usize) -> usize
    requires counts { IsCounts array.now }
    requires in_bounds { i < tree_len array.now }
    ensures value { result ≡ count_in (row_at array.now i) }
    ensures holds { Holds (integer_type (kind_of array.now)) (pos result) }
{
    array.int_at(i).unwrap() as usize
}

// Count `i` of these bytes.
#[inline]
pub(crate) fn count_of_bytes<T: NativePType>(bytes: &[u8], i: usize) -> usize
    requires counts { AreCountBytes T.PTYPE bytes.now }
    requires in_bounds { i < length (numbers T.PTYPE bytes.now) }
    ensures value { result ≡ slice_index (counts_of T.PTYPE bytes.now) i }
    ensures holds { Holds T.PTYPE (pos result) }
{
    int_at(bytes, T::PTYPE, i) as usize
}

// The type and the bytes of whole numbers that lie one after another; no other layout has them.
pub(crate) fn number_bytes(array: &ArrayRef) -> Option<(PType, &[u8])>
    requires { is_plain_integers (kind_of array.now) ≡ true }
    ensures { IfSome result (λ n. array.now ≡ primitive n.0 n.1.now non_nullable) }
{
    match array.layout() {
        Layout::Primitive { ptype, bytes, .. } => Some((*ptype, bytes.as_slice())),
        _ => None,
    }
}

// The rows of an array of counts as bytes of its type, shared where they lie as such.
pub(crate) fn count_bytes(alloc: Global, array: &ArrayRef) -> Result<ByteBuffer, VortexError>
    requires { IsCounts array.now }
    ensures { Gives result (λ b.
        HoldCounts (integer_type (kind_of array.now)) b (counts_in array.now)) }
{
    if let Layout::Primitive { bytes, .. } = array.layout() {
        return Ok(bytes.try_clone(alloc)?);
    }
    if is_repeated(array) {
        return repeated_bytes(alloc, array);
    }
    let counts = counts_by_row(alloc, array)?;
    Ok(write_counts(alloc, array.dtype().as_ptype(), &counts)?)
}

// The rows of an array of counts, all of which are the first, as bytes of its type.
fn repeated_bytes(alloc: Global, array: &ArrayRef) -> Result<ByteBuffer, VortexError>
    requires counts { IsCounts array.now }
    requires some { 0 < tree_len array.now }
    requires alike { (i : ℕ) → row_at array.now i ≡ row_at array.now 0 }
    ensures { Gives result (λ b.
        HoldCounts (integer_type (kind_of array.now)) b (counts_in array.now)) }
{
    let ptype = array.dtype().as_ptype();
    let first = write_counts(alloc, ptype, &[count_at(array, 0)])?;
    let selection = Selection::repeated(0, array.len());
    Ok(gather_numbers(alloc, ptype, first.as_slice(), &selection)?)
}

// The rows of an array of counts.
pub(crate) fn counts_of(alloc: Global, array: &ArrayRef) -> Result<Vec<usize>, VortexError>
    requires { IsCounts array.now }
    ensures { Gives result (λ counts. counts.items ≡ counts_in array.now) }
{
    if let Layout::Primitive { ptype, bytes, .. } = array.layout() {
        return Ok(read_counts(alloc, *ptype, bytes.as_slice())?);
    }
    if is_repeated(array) {
        return Ok(vec![in alloc; count_at(array, 0); array.len()]?);
    }
    Ok(counts_by_row(alloc, array)?)
}

// The rows of an array of counts, which their type holds.
fn counts_by_row(alloc: Global, array: &ArrayRef) -> Result<Vec<usize>, VortexError>
    requires { IsCounts array.now }
    ensures rows { Gives result (λ counts. counts.items ≡ counts_in array.now) }
    ensures held { IfOk result (λ counts.
        All (λ n. Holds (integer_type (kind_of array.now)) (pos n)) counts.items) }
{
    let mut counts = Vec::with_capacity(alloc, array.len())?;
    for i in 0..array.len() {
        counts.push(count_at(array, i))?;
    }
    Ok(counts)
}

// Whether there are lists, of which each has the offset and the size of the first, as the layouts
// say.
pub(crate) fn are_repeated(offsets: &ArrayRef, sizes: &ArrayRef) -> bool
    ensures { IsTrue result → AreRepeated offsets.now sizes.now }
{
    is_repeated(offsets) && is_repeated(sizes)
}

// Whether there are rows, and the layout says that they are all one.
pub(crate) fn is_repeated(array: &ArrayRef) -> bool
    ensures some { IsTrue result → 0 < tree_len array.now }
    ensures alike { IsTrue result → (i : ℕ) → row_at array.now i ≡ row_at array.now 0 }
{
    !array.is_empty() && has_one_row(array)
}

// Whether the layout says that all rows are one: those of a constant, and those that such codes
// name.
fn has_one_row(array: &ArrayRef) -> bool
    ensures { IsTrue result → (i : ℕ) → row_at array.now i ≡ row_at array.now 0 }
{
    match array.layout() {
        Layout::Constant { .. } => true,
        Layout::Dict { codes, .. } => has_one_row(codes),
        _ => false,
    }
}
