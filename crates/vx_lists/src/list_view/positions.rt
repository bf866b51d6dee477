// The positions of the elements of lists, one list after another. Where few lists have elements, or
// there are very many positions, those of lists that meet are pushed together.

ghost use Rattle.std.specs.Prelude.{ℕ, ◌≡◌, ◌+◌, ◌-◌, ◌/◌, ◌<◌, ◌≤◌, ◌^◌, ◌++◌, [], length, sum, take, count_by, nat_lt};
ghost use Rattle.std.specs.List.{range_with_len};
ghost use Rattle.std.specs.Vec.{vec_len, vec_capacity};
ghost use Rattle.vx_base.specs.Refusals.{Gives};
ghost use Rattle.vx_lists.specs.ListViews.CountBytes.{counts_of, AreCountBytes};
ghost use Rattle.vx_lists.specs.ListViews.Layout.{joined_positions};
ghost use Rattle.vx_lists.specs.ListViews.PlannedRuns.{AreListBytes};

use crate::list_view::counts::count_of_bytes;
use std::alloc::Global;
use vx_base::{
    MANY_POSITIONS, NativePType, PType, VortexError, call_native, number_count, push_positions,
    put_positions,
};

// The positions of the elements of these lists, `count` in all.
pub(crate) fn list_positions(
    alloc: Global,
    offset_type: PType,
    offsets: &[u8],
    size_type: PType,
    sizes: &[u8],
    count: usize,
) -> Result<Vec<usize>, VortexError>
    requires lists { AreListBytes offset_type offsets.now size_type sizes.now }
    requires count { count ≡ sum (counts_of size_type sizes.now) }
    ensures { Gives result (λ positions. positions.items
        ≡ joined_positions (counts_of offset_type offsets.now) (counts_of size_type sizes.now)) }
{
    call_native!(
        offset_type,
        positions_from(alloc, offsets, size_type, sizes, count)
    )
}

fn positions_from<O: NativePType>(
    alloc: Global,
    offsets: &[u8],
    size_type: PType,
    sizes: &[u8],
    count: usize,
) -> Result<Vec<usize>, VortexError>
    requires lists { AreListBytes O.PTYPE offsets.now size_type sizes.now }
    requires count { count ≡ sum (counts_of size_type sizes.now) }
    ensures { Gives result (λ positions. positions.items
        ≡ joined_positions (counts_of O.PTYPE offsets.now) (counts_of size_type sizes.now)) }
{
    call_native!(
        size_type,
        typed_positions::<O>(alloc, offsets, sizes, count)
    )
}

fn typed_positions<O: NativePType, S: NativePType>(
    alloc: Global,
    offsets: &[u8],
    sizes: &[u8],
    count: usize,
) -> Result<Vec<usize>, VortexError>
    requires lists { AreListBytes O.PTYPE offsets.now S.PTYPE sizes.now }
    requires count { count ≡ sum (counts_of S.PTYPE sizes.now) }
    ensures { Gives result (λ positions. positions.items
        ≡ joined_positions (counts_of O.PTYPE offsets.now) (counts_of S.PTYPE sizes.now)) }
{
    let lists = number_count(sizes, S::PTYPE);
    if count < lists || count > MANY_POSITIONS || few_have_elements::<S>(sizes) {
        return pushed_positions::<O, S>(alloc, offsets, sizes, count);
    }
    let mut positions = vec![in alloc; 0usize; count]?;
    put_lists::<O, S>(offsets, sizes, &mut positions);
    Ok(positions)
}

// Whether less than a quarter of the lists have elements, so that eight positions for each list
// would be too many.
fn few_have_elements<S: NativePType>(sizes: &[u8]) -> bool
    requires { AreCountBytes S.PTYPE sizes.now }
    ensures { result ≡ nat_lt (count_by (λ n. nat_lt 0 n) (counts_of S.PTYPE sizes.now))
        (length (counts_of S.PTYPE sizes.now) / 4) }
{
    let mut filled = 0;
    let lists = number_count(sizes, S::PTYPE);
    for row in 0..lists {
        if 0 < count_of_bytes::<S>(sizes, row) {
            filled += 1;
        }
    }
    filled < lists / 4
}

// The same positions, pushed: those of lists that meet together.
fn pushed_positions<O: NativePType, S: NativePType>(
    alloc: Global,
    offsets: &[u8],
    sizes: &[u8],
    count: usize,
) -> Result<Vec<usize>, VortexError>
    requires lists { AreListBytes O.PTYPE offsets.now S.PTYPE sizes.now }
    requires count { count ≡ sum (counts_of S.PTYPE sizes.now) }
    ensures { Gives result (λ positions. positions.items
        ≡ joined_positions (counts_of O.PTYPE offsets.now) (counts_of S.PTYPE sizes.now)) }
{
    let mut positions = Vec::with_capacity(alloc, count)?;
    push_lists::<O, S>(offsets, sizes, &mut positions);
    Ok(positions)
}

// Pushes the positions of the elements of these lists. Not inlined, for the same reason as
// `put_lists`.
#[inline(never)]
fn push_lists<O: NativePType, S: NativePType>(
    offsets: &[u8],
    sizes: &[u8],
    positions: &mut Vec<usize>,
)
    requires lists { AreListBytes O.PTYPE offsets.now S.PTYPE sizes.now }
    requires empty { positions.old.items ≡ [] }
    requires room { sum (counts_of S.PTYPE sizes.now) ≤ vec_capacity positions.old }
    ensures { positions.new.items
        ≡ joined_positions (counts_of O.PTYPE offsets.now) (counts_of S.PTYPE sizes.now) }
{
    let mut start = 0;
    let mut end = 0;
    for row in 0..number_count(offsets, O::PTYPE) {
        let offset = count_of_bytes::<O>(offsets, row);
        let size = count_of_bytes::<S>(sizes, row);
        let meets = size == 0 || offset == end;
        if meets {
            end += size;
        } else {
            push_positions(positions, start, end);
            start = offset;
            end = offset + size;
        }
    }
    push_positions(positions, start, end);
}

// Writes the positions of the elements of these lists. Not inlined, so that the loop stands by
// itself, where what it writes is known to be nothing that it reads.
#[inline(never)]
fn put_lists<O: NativePType, S: NativePType>(offsets: &[u8], sizes: &[u8], out: &mut [usize])
    requires lists { AreListBytes O.PTYPE offsets.now S.PTYPE sizes.now }
    requires room { length out.old ≡ sum (counts_of S.PTYPE sizes.now) }
    ensures { out.new
        ≡ joined_positions (counts_of O.PTYPE offsets.now) (counts_of S.PTYPE sizes.now) }
{
    let mut at = 0;
    for row in 0..number_count(offsets, O::PTYPE) {
        let offset = count_of_bytes::<O>(offsets, row);
        let size = count_of_bytes::<S>(sizes, row);
        put_positions(out, at, offset, size);
        at += size;
    }
}
