// Which elements the lists of a list view lie in.

ghost use Rattle.std.specs.Prelude.{◌≡◌, ◌<◌, ◌≤◌, ◌+◌, ◌/◌, ◌^◌, ◌↔◌, ◌⊎◌, true, false, ℕ, length, replicate, slice_index, IfOk};
ghost use Rattle.vx_base.specs.Bits.{bool_at};
ghost use Rattle.vx_base.specs.Refusals.{Gives, Tests};
ghost use Rattle.vx_base.specs.Rows.{count_in};
ghost use Rattle.vx_tree.specs.Formed.{IsCounts};
ghost use Rattle.vx_tree.specs.Meaning.{tree_len, row_at};
ghost use Rattle.vx_lists.specs.ListViews.References.{AreMarked, MarksReferenced, AreBlockRuns, IsCovered, AreBounds, BoundReferenced, bounds_fault};
ghost use Rattle.vx_lists.specs.ListViews.Faults.{AreRepeated};
ghost use Rattle.vx_lists.specs.ListViews.{elements_of};

use crate::list_view::array::ListViewArray;
use crate::list_view::counts::{are_repeated, count_at, counts_of, number_bytes};
use crate::list_view::number_rows::bounds_of_number_rows;
use std::alloc::Global;
use vx_base::{BitBuffer, BitBufferMut, Mask, VortexError};
use vx_tree::{ArrayRef, TypedArray};

// How many elements a block has, of those that long lists are marked by.
const BLOCK: usize = 4096;

impl ListViewArray {
    // Which elements lie in some list: a boolean for each.
    pub(crate) fn referenced_elements(&self, alloc: Global) -> Result<Mask, VortexError>
        ensures { Gives result (MarksReferenced self.now) }
    {
        let parts = self.parts();
        if are_repeated(parts.offsets, parts.sizes) {
            return mark_first(alloc, parts.offsets, parts.sizes, parts.count);
        }
        let offsets = counts_of(alloc, parts.offsets)?;
        let sizes = counts_of(alloc, parts.sizes)?;
        let referenced = mark_lists(alloc, &offsets, &sizes, parts.count)?;
        Ok(Mask::from_buffer(alloc, referenced)?)
    }

    // The range of elements that the lists lie in: of a flagged view from the start of the first
    // list up to the end of the last. Refuses `EmptyInput` where there are no rows.
    pub(crate) fn element_bounds(&self) -> Result<(usize, usize), VortexError>
        ensures ok { IfOk result (λ bounds. BoundReferenced self.now bounds.0 bounds.1) }
        ensures within { IfOk result (λ bounds.
            (bounds.0 ≤ bounds.1) × (bounds.1 ≤ tree_len (elements_of self.now))) }
        ensures tests { Tests result (bounds_fault self.now) }
    {
        let len = self.len();
        if len == 0 {
            return Err(VortexError::EmptyInput);
        }
        let parts = self.parts();
        if parts.flag {
            let start = count_at(parts.offsets, 0);
            let end = count_at(parts.offsets, len - 1) + count_at(parts.sizes, len - 1);
            return Ok((start, end));
        }
        if are_repeated(parts.offsets, parts.sizes) {
            let start = count_at(parts.offsets, 0);
            return Ok((start, start + count_at(parts.sizes, 0)));
        }
        Ok(bounds_of_lists(parts.offsets, parts.sizes))
    }
}

// The elements that lists lie in which all have the offset and the size of the first: one run, or
// none where the first is empty.
fn mark_first(
    alloc: Global,
    offsets: &ArrayRef,
    sizes: &ArrayRef,
    count: usize,
) -> Result<Mask, VortexError>
    requires repeated { AreRepeated offsets.now sizes.now }
    requires offsets { IsCounts offsets.now }
    requires sizes { IsCounts sizes.now }
    requires same_len { tree_len sizes.now ≡ tree_len offsets.now }
    requires within { count_in (row_at offsets.now 0) + count_in (row_at sizes.now 0) ≤ count }
    ensures { Gives result (λ m. AreMarked (λ i. count_in (row_at offsets.now i))
        (λ i. count_in (row_at offsets.now i) + count_in (row_at sizes.now i)) (tree_len offsets.now) count m) }
{
    let start = count_at(offsets, 0);
    let end = start + count_at(sizes, 0);
    let mut runs = Vec::new(alloc);
    if start < end {
        runs.push((start, end))?;
    }
    Ok(Mask::from_runs(count, runs))
}

// The elements that lists of these offsets and sizes lie in. Of a long list just the elements
// around its whole blocks are marked at once, and the blocks that lists share once in the end: so
// it takes as long as there are lists and elements, however long the lists are.
fn mark_lists(
    alloc: Global,
    offsets: &[usize],
    sizes: &[usize],
    count: usize,
) -> Result<BitBuffer, VortexError>
    requires same_len { length sizes.now ≡ length offsets.now }
    requires within { (i : ℕ) → i < length offsets.now →
        slice_index offsets.now i + slice_index sizes.now i ≤ count }
    ensures { Gives result (λ b. AreMarked (slice_index offsets.now)
        (λ i. slice_index offsets.now i + slice_index sizes.now i) (length offsets.now) count b.bits) }
{
    let mut marked = BitBufferMut::new_unset(alloc, count)?;
    let mut runs = vec![in alloc; 0usize; count / BLOCK]?;
    mark_all(&mut marked, &mut runs, offsets, sizes);
    Ok(marked.freeze()?)
}

// Marks the elements of all lists, where none is marked.
fn mark_all(marked: &mut BitBufferMut, runs: &mut [usize], offsets: &[usize], sizes: &[usize])
    requires same_len { length sizes.now ≡ length offsets.now }
    requires within { (i : ℕ) → i < length offsets.now →
        slice_index offsets.now i + slice_index sizes.now i ≤ length marked.old }
    requires short { length marked.old < 2 ^ 64 }
    requires unset { marked.old ≡ replicate (length marked.old) false }
    requires empty { runs.old ≡ replicate (length marked.old / 4096) 0 }
    ensures { AreMarked (slice_index offsets.now)
        (λ i. slice_index offsets.now i + slice_index sizes.now i) (length offsets.now)
        (length marked.old) marked.new }
{
    for i in 0..offsets.len() {
        mark_list(marked, runs, offsets[i], offsets[i] + sizes[i]);
    }
    mark_runs(marked, runs);
}

// Marks the elements from `start` up to `end`. Those of whole blocks are left to the runs of
// blocks: run `b` has the blocks from `b` up to `runs[b]`.
#[inline]
fn mark_list(marked: &mut BitBufferMut, runs: &mut [usize], start: usize, end: usize)
    requires ordered { start ≤ end }
    requires within { end ≤ length marked.old }
    requires runs { AreBlockRuns (length marked.old) runs.old }
    ensures len { length marked.new ≡ length marked.old }
    ensures runs { AreBlockRuns (length marked.old) runs.new }
    ensures covered { (k : ℕ) → k < length marked.old → IsCovered marked.new runs.new k
        ↔ (IsCovered marked.old runs.old k ⊎ ((start ≤ k) × (k < end))) }
{
    let first = start / BLOCK + 1;
    let last = end / BLOCK;
    if last <= first {
        marked.fill_range(start, end, true);
        return;
    }
    marked.fill_range(start, first * BLOCK, true);
    marked.fill_range(last * BLOCK, end, true);
    runs[first] = runs[first].max(last);
}

// Marks the elements of runs of blocks, each once.
fn mark_runs(marked: &mut BitBufferMut, runs: &[usize])
    requires short { length marked.old < 2 ^ 64 }
    requires runs { AreBlockRuns (length marked.old) runs.now }
    ensures len { length marked.new ≡ length marked.old }
    ensures marked { (k : ℕ) → k < length marked.old →
        (bool_at marked.new k ≡ true) ↔ IsCovered marked.old runs.now k }
{
    let mut done = 0;
    for block in 0..runs.len() {
        let from = block.max(done);
        let to = runs[block];
        if from < to {
            marked.fill_range(from * BLOCK, to * BLOCK, true);
            done = to;
        }
    }
}

// The least offset and the greatest end of lists, of which there is one.
fn bounds_of_lists(offsets: &ArrayRef, sizes: &ArrayRef) -> (usize, usize)
    requires some { 0 < tree_len offsets.now }
    requires offsets { IsCounts offsets.now }
    requires sizes { IsCounts sizes.now }
    requires same_len { tree_len sizes.now ≡ tree_len offsets.now }
    requires ends_fit { (i : ℕ) → i < tree_len offsets.now →
        count_in (row_at offsets.now i) + count_in (row_at sizes.now i) < 2 ^ 64 }
    ensures { AreBounds (λ i. count_in (row_at offsets.now i))
        (λ i. count_in (row_at offsets.now i) + count_in (row_at sizes.now i))
        (tree_len offsets.now) result.0 result.1 }
{
    if let (Some((offset_type, offsets)), Some((size_type, sizes))) = (
        number_bytes(offsets),
        number_bytes(sizes),
    ) {
        return bounds_of_number_rows(offset_type, offsets, size_type, sizes);
    }
    let mut least = count_at(offsets, 0);
    let mut greatest = least + count_at(sizes, 0);
    for i in 1..offsets.len() {
        let start = count_at(offsets, i);
        let end = start + count_at(sizes, i);
        least = least.min(start);
        greatest = greatest.max(end);
    }
    (least, greatest)
}
