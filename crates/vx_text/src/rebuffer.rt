// Texts and byte lists whose values are moved to new buffers.

ghost use Rattle.std.specs.Prelude.{◌≡◌, ◌<◌, ◌≤◌, ℕ, List, [], None, length, map, sum, pos, IfOk, slice_index_or};
ghost use Rattle.std.specs.List.{All};
ghost use Rattle.vx_base.specs.Refusals.{Gives, Refuses, Tests};
ghost use Rattle.vx_views.specs.BuildFaults.{IsPieceCount, first_too_long};
ghost use Rattle.vx_views.specs.Cut.{IsCut};
ghost use Rattle.vx_views.specs.Places.{AreBuilt, ReadBack, value_at};
ghost use Rattle.vx_views.specs.Views.{Resolves};
ghost use Rattle.vx_tree.specs.Meaning.{rows};
ghost use Rattle.vx_text.specs.Texts.{buffers_of};
ghost use Rattle.vx_text.specs.Rebuffered.{IsRebuffered, joined_values, row_lens, value_lens};
ghost use Rattle.vx_text.specs.Rebuffered.{moving_fault, rebuffer_fault, too_many_fault};

use crate::var_bin_view::VarBinViewArray;
use std::alloc::Global;
use vx_base::{Buffer, ByteBuffer, VortexError};
use vx_tree::{ArrayRef, TypedArray};
use vx_views::{BinaryView, MAX_BUFFER_LEN, build_views};

impl VarBinViewArray {
    /// The same rows, whose values stand in new buffers of at most `limit` bytes each: the values of
    /// the valid rows in order, also those that stand in their views, in as few buffers as any cut
    /// between values gives. The data type and the validity are kept, and the view of a null row is
    /// 16 zero bytes. Each value is copied once, and bytes that no valid row has are let go.
    ///
    /// Refuses, in this order and before a value is copied: `LimitTooLarge` where `limit` passes
    /// `MAX_BUFFER_LEN`; `ValueTooLong` at the first valid row whose value is longer than `limit`;
    /// `Overflow` where the values together pass `usize`, or the number of a buffer would pass
    /// `u32`.
    ///
    /// Four values of 13 bytes are one buffer under a limit of 52, where they start at 0, 13, 26
    /// and 39, and two buffers under a limit of 51. Under a limit of 12, row 0 is too long.
    pub fn rebuffer(&self, alloc: Global, limit: usize) -> Result<VarBinViewArray, VortexError>
        ensures parts { IfOk result (IsRebuffered limit self.now) }
        ensures rows { IfOk result (λ a. rows a ≡ rows self.now) }
        ensures fewest { IfOk result (λ a. (others : List ℕ) → IsCut limit (row_lens self.now) others
            → length (buffers_of a) ≤ length others) }
        ensures refuses { (pieces : ℕ) × (IsPieceCount limit (row_lens self.now) pieces
            × Refuses result (rebuffer_fault limit (row_lens self.now) pieces)) }
    {
        if MAX_BUFFER_LEN < limit {
            return Err(VortexError::LimitTooLarge);
        }
        let parts = self.parts();
        let (buffers, views) = move_values(alloc, limit, parts.views.as_slice(), parts.buffers)?;
        let dtype = parts.dtype.try_clone(alloc)?;
        let validity = parts.validity.try_clone(alloc)?;
        let array = ArrayRef::var_bin_view(alloc, views, buffers, dtype, validity)?;
        Ok(VarBinViewArray::from_array(array))
    }
}

// New buffers with the values of views, one after another, and the views of those values there.
// The lengths of the values tell all that is refused, before a value is copied.
fn move_values(
    alloc: Global,
    limit: usize,
    views: &[BinaryView],
    buffers: &[ByteBuffer],
) -> Result<(Vec<ByteBuffer>, Buffer<BinaryView>), VortexError>
    requires limit { limit ≤ MAX_BUFFER_LEN }
    requires resolve { (i : ℕ) → i < length views.now → Resolves buffers.now (slice_index_or views.now i []) }
    ensures built { IfOk result (λ made. AreBuilt 0 limit (joined_values buffers.now views.now)
        (value_lens buffers.now views.now) made.0.items made.1) }
    ensures read_back { IfOk result (λ made. ReadBack 0
        (value_at (joined_values buffers.now views.now) (value_lens buffers.now views.now)) made.0.items made.1) }
    ensures short { IfOk result (λ _. All (λ len. len ≤ limit) (value_lens buffers.now views.now)) }
    ensures refuses { let lens = value_lens buffers.now views.now in
        (pieces : ℕ) × (IsPieceCount limit lens pieces × Refuses result (moving_fault limit lens pieces)) }
{
    let lens = lens_of(alloc, views, buffers)?;
    check_short(limit, &lens)?;
    let len = heap_len(limit, &lens)?;
    let heap = join_values(alloc, len, views, buffers)?;
    build_views(alloc, 0, limit, heap, &lens)
}

// How many bytes the value of each view has.
fn lens_of(
    alloc: Global,
    views: &[BinaryView],
    buffers: &[ByteBuffer],
) -> Result<Vec<u32>, VortexError>
    requires { (i : ℕ) → i < length views.now → Resolves buffers.now (slice_index_or views.now i []) }
    ensures { Gives result (λ lens. lens.items ≡ value_lens buffers.now views.now) }
{
    let mut lens = Vec::with_capacity(alloc, views.len())?;
    for row in 0..views.len() {
        lens.push_reserved(views[row].len());
    }
    Ok(lens)
}

// Finds the first row whose value is longer than the limit.
fn check_short(limit: usize, lens: &[u32]) -> Result<(), VortexError>
    ensures { Tests result (first_too_long limit (map pos lens.now)) }
{
    for row in 0..lens.len() {
        if limit < lens[row] as usize {
            return Err(VortexError::ValueTooLong { row });
        }
    }
    Ok(())
}

// How many bytes values of these lengths have together, where that many can be counted and the
// pieces of their maximal cut can be numbered.
fn heap_len(limit: usize, lens: &[u32]) -> Result<usize, VortexError>
    requires limit { limit ≤ MAX_BUFFER_LEN }
    requires short { first_too_long limit (map pos lens.now) ≡ None }
    ensures len { IfOk result (λ len. len ≡ sum lens.now) }
    ensures tests { (pieces : ℕ) × (IsPieceCount limit lens.now pieces
        × Tests result (too_many_fault lens.now pieces)) }
{
    let mut number = 0;
    let mut begin = 0;
    let mut at: usize = 0;
    for row in 0..lens.len() {
        let size = lens[row] as usize;
        if usize::MAX - at < size {
            return Err(VortexError::Overflow);
        }
        if limit < at - begin + size {
            if number == u32::MAX {
                return Err(VortexError::Overflow);
            }
            number += 1;
            begin = at;
        }
        at += size;
    }
    Ok(at)
}

// The values of views, one after another, of which the length together is told.
fn join_values(
    alloc: Global,
    len: usize,
    views: &[BinaryView],
    buffers: &[ByteBuffer],
) -> Result<ByteBuffer, VortexError>
    requires { (i : ℕ) → i < length views.now → Resolves buffers.now (slice_index_or views.now i []) }
    ensures { Gives result (λ heap. heap ≡ joined_values buffers.now views.now) }
{
    let mut heap = Vec::with_capacity(alloc, len)?;
    for row in 0..views.len() {
        heap.extend_from_slice(views[row].value_in(buffers))?;
    }
    ByteBuffer::from_vec(alloc, heap)
}
