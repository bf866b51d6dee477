// Lists that stand end to end among their elements: one part holds the items of all.

ghost use Rattle.std.specs.Prelude.{◌≡◌, ◌≤◌, ◌-◌, ℕ, IfSome};
ghost use Rattle.std.specs.List.{range_with_len};
ghost use Rattle.vx_base.specs.Kinds.{Kind};
ghost use Rattle.vx_tree.specs.Meaning.{tree_len};
ghost use Rattle.vx_pack.specs.CountBytes.{counts_of};
ghost use Rattle.vx_pack.specs.Lists.{IsItemOf};
ghost use Rattle.vx_pack.specs.Parts.{IsPart, IsWithin};
ghost use Rattle.vx_pack.specs.Pieces.{AreAllItems, blank_of};
ghost use Rattle.vx_pack.specs.StoredLists.{AreListBytes, AreStoredItems, all_positions};

use crate::count_bytes::count_of_bytes;
use crate::parts::{Part, part_of};
use crate::stored_lists::StoredLists;
use vx_base::{NativePType, PType, call_native, number_count};

impl<'a> Part<'a> {
    // The items of all rows, where these are lists that stand end to end and none is null.
    pub fn joined_items(self) -> Option<Part<'a>>
        requires { IsWithin self }
        ensures { IfSome result (λ p. (item k : Kind) (blank : ℕ) → IsItemOf item k → blank_of k ≡ blank → IsPart k self.entry →
            AreAllItems item blank k self.entry p) }
    {
        match self.stored_lists() {
            Some(lists) => lists.joined(),
            None => self.elements(),
        }
    }
}

impl<'a> StoredLists<'a> {
    // The items of all lists, where each begins where the one before it ends.
    pub fn joined(self) -> Option<Part<'a>>
        requires { AreListBytes self.offset_type self.offsets.now self.size_type self.sizes.now (tree_len self.elements.now) }
        ensures { IfSome result (AreStoredItems self.entry) }
    {
        let (start, end) = joined_run(
            self.offset_type,
            self.offsets,
            self.size_type,
            self.sizes,
            self.elements.len(),
        )?;
        Some(part_of(self.elements, start, end - start))
    }
}

// The items of the lists of both columns, where those of both stand end to end.
#[inline(never)]
pub(crate) fn joined_both<'a>(
    a: &StoredLists<'a>,
    b: &StoredLists<'a>,
) -> Option<(Part<'a>, Part<'a>)>
    requires first { AreListBytes a.now.offset_type a.now.offsets.now a.now.size_type a.now.sizes.now (tree_len a.now.elements.now) }
    requires second { AreListBytes b.now.offset_type b.now.offsets.now b.now.size_type b.now.sizes.now (tree_len b.now.elements.now) }
    ensures first { IfSome result (λ j. AreStoredItems a.now j.0) }
    ensures second { IfSome result (λ j. AreStoredItems b.now j.1) }
{
    let first = a.joined()?;
    let second = b.joined()?;
    Some((first, second))
}

// Where lists begin and end among so many elements, where they stand end to end.
fn joined_run(
    offset_type: PType,
    offsets: &[u8],
    size_type: PType,
    sizes: &[u8],
    len: usize,
) -> Option<(usize, usize)>
    requires { AreListBytes offset_type offsets.now size_type sizes.now len }
    ensures { IfSome result (λ r. (r.0 ≤ r.1) × (r.1 ≤ len)
        × (all_positions (counts_of offset_type offsets.now) (counts_of size_type sizes.now) ≡ range_with_len r.0 (r.1 - r.0))) }
{
    call_native!(offset_type, joined_run_from(offsets, size_type, sizes, len))
}

// Where lists begin and end, by offsets of one type, where they stand end to end.
fn joined_run_from<O: NativePType>(
    offsets: &[u8],
    size_type: PType,
    sizes: &[u8],
    len: usize,
) -> Option<(usize, usize)>
    requires { AreListBytes O.PTYPE offsets.now size_type sizes.now len }
    ensures { IfSome result (λ r. (r.0 ≤ r.1) × (r.1 ≤ len)
        × (all_positions (counts_of O.PTYPE offsets.now) (counts_of size_type sizes.now) ≡ range_with_len r.0 (r.1 - r.0))) }
{
    call_native!(size_type, joined_typed_run::<O>(offsets, sizes, len))
}

// Where lists begin and end, by offsets of one type and sizes of another, where they stand end to
// end.
#[inline(never)]
fn joined_typed_run<O: NativePType, S: NativePType>(
    offsets: &[u8],
    sizes: &[u8],
    len: usize,
) -> Option<(usize, usize)>
    requires { AreListBytes O.PTYPE offsets.now S.PTYPE sizes.now len }
    ensures { IfSome result (λ r. (r.0 ≤ r.1) × (r.1 ≤ len)
        × (all_positions (counts_of O.PTYPE offsets.now) (counts_of S.PTYPE sizes.now) ≡ range_with_len r.0 (r.1 - r.0))) }
{
    let count = number_count(sizes, S::PTYPE);
    if count == 0 {
        return Some((0, 0));
    }
    let start = count_of_bytes::<O>(offsets, 0);
    let mut end = start;
    for i in 0..count {
        if count_of_bytes::<O>(offsets, i) != end {
            return None;
        }
        end += count_of_bytes::<S>(sizes, i);
    }
    Some((start, end))
}
