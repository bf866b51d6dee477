// The numbers of lists that stand by offsets and sizes: gathered in runs, the lists of a block at a
// time.

ghost use Rattle.std.specs.Prelude.{◌≡◌, ◌<◌, ◌≤◌, ◌+◌, ◌-◌, ◌++◌, ◌/◌, ◌^◌, length, sum};
ghost use Rattle.std.specs.List.{flat_map, range_with_len};
ghost use Rattle.vx_base.specs.Integers.{byte_width, numbers};
ghost use Rattle.vx_base.specs.Refusals.{Gives};
ghost use Rattle.vx_base.specs.Selections.{bytes_of_position, run_positions};
ghost use Rattle.vx_pack.specs.CountBytes.{counts_of};
ghost use Rattle.vx_pack.specs.StoredLists.{AreListBytes, all_positions, positions_of, stored_sizes, stored_starts};

use crate::count_bytes::count_of_bytes;
use crate::stored_lists::{BLOCK, StoredLists};
use vx_base::{
    NativePType, PType, Selection, VortexError, call_native, extend_with_numbers, number_count,
};

// The bytes, and after them those of the numbers of all lists, where these bytes of a type hold the
// elements.
pub(crate) fn extend_with_lists(
    before: Vec<u8>,
    ptype: PType,
    elements: &[u8],
    lists: StoredLists,
) -> Result<Vec<u8>, VortexError>
    requires lists { AreListBytes lists.offset_type lists.offsets.now lists.size_type lists.sizes.now
        (length elements.now / byte_width ptype) }
    requires countable { sum (stored_sizes lists) < 2 ^ 64 }
    ensures { Gives result (λ all. all.items ≡ before.items ++ flat_map (bytes_of_position (byte_width ptype) elements.now)
        (all_positions (stored_starts lists.entry) (stored_sizes lists.entry))) }
{
    let mut all = before;
    let end = number_count(lists.sizes, lists.size_type);
    let mut first = 0;
    while first < end {
        let count = (end - first).min(BLOCK);
        all = extend_with_block(all, ptype, elements, lists, first, count)?;
        first += count;
    }
    Ok(all)
}

// The bytes, and after them those of the numbers of so many lists from one on.
fn extend_with_block(
    before: Vec<u8>,
    ptype: PType,
    elements: &[u8],
    lists: StoredLists,
    first: usize,
    count: usize,
) -> Result<Vec<u8>, VortexError>
    requires lists { AreListBytes lists.offset_type lists.offsets.now lists.size_type lists.sizes.now
        (length elements.now / byte_width ptype) }
    requires countable { sum (stored_sizes lists) < 2 ^ 64 }
    requires within { first + count ≤ length (numbers lists.size_type lists.sizes.now) }
    requires few { count ≤ 128 }
    ensures { Gives result (λ all. all.items ≡ before.items ++ flat_map (bytes_of_position (byte_width ptype) elements.now)
        (flat_map (positions_of (stored_starts lists.entry) (stored_sizes lists.entry)) (range_with_len first count))) }
{
    let mut block = [(0, 0); BLOCK];
    let runs = &mut block[..count];
    let len = put_runs(
        lists.offset_type,
        lists.offsets,
        lists.size_type,
        lists.sizes,
        first,
        runs,
    );
    extend_with_numbers(before, ptype, elements, &Selection::of_runs(runs, len))
}

// Puts where lists begin and end among the elements, from one on, and tells how many elements they
// have.
fn put_runs(
    offset_type: PType,
    offsets: &[u8],
    size_type: PType,
    sizes: &[u8],
    first: usize,
    runs: &mut [(usize, usize)],
) -> usize
    requires lists { AreListBytes offset_type offsets.now size_type sizes.now (2 ^ 64 - 1) }
    requires countable { sum (counts_of size_type sizes.now) < 2 ^ 64 }
    requires within { first + length runs.old ≤ length (numbers size_type sizes.now) }
    ensures runs { flat_map run_positions runs.new
        ≡ flat_map (positions_of (counts_of offset_type offsets.now) (counts_of size_type sizes.now))
        (range_with_len first (length runs.old)) }
    ensures count { result ≡ length (flat_map run_positions runs.new) }
{
    call_native!(
        offset_type,
        put_runs_from(offsets, size_type, sizes, first, runs)
    )
}

// Puts where lists begin and end, by offsets of one type, and tells how many elements they have.
fn put_runs_from<O: NativePType>(
    offsets: &[u8],
    size_type: PType,
    sizes: &[u8],
    first: usize,
    runs: &mut [(usize, usize)],
) -> usize
    requires lists { AreListBytes O.PTYPE offsets.now size_type sizes.now (2 ^ 64 - 1) }
    requires countable { sum (counts_of size_type sizes.now) < 2 ^ 64 }
    requires within { first + length runs.old ≤ length (numbers size_type sizes.now) }
    ensures runs { flat_map run_positions runs.new
        ≡ flat_map (positions_of (counts_of O.PTYPE offsets.now) (counts_of size_type sizes.now)) (range_with_len first (length runs.old)) }
    ensures count { result ≡ length (flat_map run_positions runs.new) }
{
    call_native!(size_type, put_typed_runs::<O>(offsets, sizes, first, runs))
}

// Puts where lists begin and end, by offsets of one type and sizes of another, and tells how many
// elements they have.
#[inline(never)]
fn put_typed_runs<O: NativePType, S: NativePType>(
    offsets: &[u8],
    sizes: &[u8],
    first: usize,
    runs: &mut [(usize, usize)],
) -> usize
    requires lists { AreListBytes O.PTYPE offsets.now S.PTYPE sizes.now (2 ^ 64 - 1) }
    requires countable { sum (counts_of S.PTYPE sizes.now) < 2 ^ 64 }
    requires within { first + length runs.old ≤ length (numbers S.PTYPE sizes.now) }
    ensures runs { flat_map run_positions runs.new
        ≡ flat_map (positions_of (counts_of O.PTYPE offsets.now) (counts_of S.PTYPE sizes.now)) (range_with_len first (length runs.old)) }
    ensures count { result ≡ length (flat_map run_positions runs.new) }
{
    let mut len = 0;
    for i in 0..runs.len() {
        let start = count_of_bytes::<O>(offsets, first + i);
        let size = count_of_bytes::<S>(sizes, first + i);
        runs[i] = (start, start + size);
        len += size;
    }
    len
}
