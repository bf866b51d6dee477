// Offsets and sizes that are lent: whether what they tell of lies within what they refer to.

ghost use Rattle.std.specs.Prelude.{◌≡◌, ◌+◌, ◌<◌, ◌-ℤ◌, pos, length, IsTrue, IfSome, IsUtf8};
ghost use Rattle.vx_base.specs.Integers.{numbers, number_nth};
ghost use Rattle.vx_views.specs.BuildFaults.{differences};
ghost use Rattle.vx_c.specs.Spans.{past_first, starts_of, AreSpans, IsWithin, AreListRows, ArePlaces};

use vx_base::{NativePType, int_at, number_count};

// A number, if it is not negative.
#[inline(always)]
fn count_at<P: NativePType>(bytes: &[u8], row: usize) -> Option<usize>
    requires { row < length (numbers P.PTYPE bytes.now) }
    ensures { IfSome result (λ count. number_nth (numbers P.PTYPE bytes.now) row ≡ pos count) }
{
    let number = int_at(bytes, P::PTYPE, row);
    if number < 0 {
        return None;
    }
    Some(number as usize)
}

// How far an offset lies past another one, if it does not lie before that.
#[inline(always)]
pub(crate) fn distance<P: NativePType>(offsets: &[u8], from: usize, row: usize) -> Option<usize>
    requires from { from < length (numbers P.PTYPE offsets.now) }
    requires row { row < length (numbers P.PTYPE offsets.now) }
    ensures { IfSome result (λ far. number_nth (numbers P.PTYPE offsets.now) row
        -ℤ number_nth (numbers P.PTYPE offsets.now) from ≡ pos far) }
{
    let far = int_at(offsets, P::PTYPE, row) - int_at(offsets, P::PTYPE, from);
    if far < 0 || far > usize::MAX as i128 {
        return None;
    }
    Some(far as usize)
}

// Whether no offset is less than the one before it, and the last one lies at most `count` past the
// first one.
#[inline(never)]
pub(crate) fn are_spans<P: NativePType>(offsets: &[u8], count: usize) -> bool
    ensures { IsTrue result → AreSpans (numbers P.PTYPE offsets.now) count }
{
    let mut start = 0;
    for row in 1..number_count(offsets, P::PTYPE) {
        let Some(end) = distance::<P>(offsets, 0, row) else {
            return false;
        };
        if end < start || count < end {
            return false;
        }
        start = end;
    }
    true
}

// Whether so many elements after so many others lie among `count`.
#[inline(always)]
fn is_within(start: Option<usize>, size: Option<usize>, count: usize) -> bool
    ensures { IsTrue result → IsWithin start size count }
{
    match (start, size) {
        (Some(start), Some(size)) => start <= count && size <= count - start,
        _ => false,
    }
}

// Whether each list lies among `count` elements.
#[inline(never)]
pub(crate) fn are_list_rows<O: NativePType, S: NativePType>(
    offsets: &[u8],
    sizes: &[u8],
    count: usize,
) -> bool
    requires { length (numbers S.PTYPE sizes.now) ≡ length (numbers O.PTYPE offsets.now) }
    ensures { IsTrue result → AreListRows (numbers O.PTYPE offsets.now) (numbers S.PTYPE sizes.now) count }
{
    for row in 0..number_count(offsets, O::PTYPE) {
        if !is_within(
            count_at::<O>(offsets, row),
            count_at::<S>(sizes, row),
            count,
        ) {
            return false;
        }
    }
    true
}

// Whether each list by offsets lies among `count` elements: it begins at an offset, less the first
// one, and has as many elements as the next offset lies past that. The ends have one offset more.
#[inline(never)]
pub(crate) fn are_lists_between<P: NativePType>(starts: &[u8], ends: &[u8], count: usize) -> bool
    requires { length (numbers P.PTYPE ends.now) ≡ length (numbers P.PTYPE starts.now) + 1 }
    ensures { IsTrue result → AreListRows (starts_of (numbers P.PTYPE starts.now)) (differences (numbers P.PTYPE ends.now)) count }
{
    for row in 0..number_count(starts, P::PTYPE) {
        let start = distance::<P>(starts, 0, row);
        if !is_within(start, distance::<P>(ends, row, row + 1), count) {
            return false;
        }
    }
    true
}

// Whether each number is a place among so many.
#[inline(never)]
pub(crate) fn are_places<P: NativePType>(bytes: &[u8], count: usize) -> bool
    ensures { IsTrue result → ArePlaces (numbers P.PTYPE bytes.now) count }
{
    for row in 0..number_count(bytes, P::PTYPE) {
        match count_at::<P>(bytes, row) {
            Some(place) if place < count => {}
            _ => return false,
        }
    }
    true
}
