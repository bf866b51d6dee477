// Lists that stand in runs, end to end among their elements: one piece for each run.

ghost use Rattle.std.specs.Prelude.{◌≡◌, ◌↔◌, ◌⊎◌, ◌≤◌, ◌-◌, ◌^◌, length, IsTrue};
ghost use Rattle.std.specs.List.{range_with_len};
ghost use Rattle.vx_base.specs.Integers.{numbers};
ghost use Rattle.vx_base.specs.Refusals.{Gives};
ghost use Rattle.vx_tree.specs.Meaning.{tree_len};
ghost use Rattle.vx_pack.specs.CountBytes.{counts_of};
ghost use Rattle.vx_pack.specs.Pieces.{ArePushedRows};
ghost use Rattle.vx_pack.specs.StoredLists.{AreListBytes, all_positions, stored_sizes, stored_starts};

use crate::count_bytes::count_of_bytes;
use crate::parts::part_of;
use crate::pieces::Piece;
use crate::stored_lists::StoredLists;
use vx_base::{NativePType, PType, VortexError, call_native, number_count};
use vx_tree::ArrayRef;

// The items of all lists, at the end of other pieces: room is asked for once the runs are counted.
pub(crate) fn push_runs<'a>(
    lists: &mut Vec<Piece<'a>>,
    stored: StoredLists<'a>,
) -> Result<(), VortexError>
    requires { AreListBytes stored.offset_type stored.offsets.now stored.size_type stored.sizes.now (tree_len stored.elements.now) }
    ensures { Gives result (λ _. ArePushedRows stored.entry.elements.now
        (all_positions (stored_starts stored.entry) (stored_sizes stored.entry)) lists.old.items lists.new.items) }
{
    stored.elements.known_len();
    lists.reserve(run_count(
        stored.offset_type,
        stored.offsets,
        stored.size_type,
        stored.sizes,
    ))?;
    push_each_run(
        lists,
        stored.elements,
        stored.offset_type,
        stored.offsets,
        stored.size_type,
        stored.sizes,
    )
}

// How many runs the lists stand in, those without items in none.
fn run_count(offset_type: PType, offsets: &[u8], size_type: PType, sizes: &[u8]) -> usize
    requires { AreListBytes offset_type offsets.now size_type sizes.now (2 ^ 64 - 1) }
    ensures { result ≤ length (numbers size_type sizes.now) }
{
    call_native!(offset_type, run_count_from(offsets, size_type, sizes))
}

// How many runs the lists stand in, by offsets of one type.
fn run_count_from<O: NativePType>(offsets: &[u8], size_type: PType, sizes: &[u8]) -> usize
    requires { AreListBytes O.PTYPE offsets.now size_type sizes.now (2 ^ 64 - 1) }
    ensures { result ≤ length (numbers size_type sizes.now) }
{
    call_native!(size_type, typed_run_count::<O>(offsets, sizes))
}

// How many runs the lists stand in, by offsets of one type and sizes of another.
#[inline(never)]
fn typed_run_count<O: NativePType, S: NativePType>(offsets: &[u8], sizes: &[u8]) -> usize
    requires { AreListBytes O.PTYPE offsets.now S.PTYPE sizes.now (2 ^ 64 - 1) }
    ensures { result ≤ length (numbers S.PTYPE sizes.now) }
{
    let mut runs = 0;
    // No list that has items begins there.
    let mut end = usize::MAX;
    for i in 0..number_count(sizes, S::PTYPE) {
        let offset = count_of_bytes::<O>(offsets, i);
        let size = count_of_bytes::<S>(sizes, i);
        if goes_on(offset, size, end) {
            end += size;
        } else {
            runs += 1;
            end = offset + size;
        }
    }
    runs
}

// Whether a list goes on with the run that ends there: one without items goes on with any.
#[inline(always)]
fn goes_on(offset: usize, size: usize, end: usize) -> bool
    ensures { IsTrue result ↔ ((size ≡ 0) ⊎ (offset ≡ end)) }
{
    size == 0 || offset == end
}

// The items of the lists of these elements, at the end of other pieces.
fn push_each_run<'a>(
    lists: &mut Vec<Piece<'a>>,
    elements: &'a ArrayRef,
    offset_type: PType,
    offsets: &[u8],
    size_type: PType,
    sizes: &[u8],
) -> Result<(), VortexError>
    requires { AreListBytes offset_type offsets.now size_type sizes.now (tree_len elements.now) }
    ensures { Gives result (λ _. ArePushedRows elements.now
        (all_positions (counts_of offset_type offsets.now) (counts_of size_type sizes.now)) lists.old.items lists.new.items) }
{
    call_native!(
        offset_type,
        push_runs_from(lists, elements, offsets, size_type, sizes)
    )
}

// The items of the lists, by offsets of one type, at the end of other pieces.
fn push_runs_from<'a, O: NativePType>(
    lists: &mut Vec<Piece<'a>>,
    elements: &'a ArrayRef,
    offsets: &[u8],
    size_type: PType,
    sizes: &[u8],
) -> Result<(), VortexError>
    requires { AreListBytes O.PTYPE offsets.now size_type sizes.now (tree_len elements.now) }
    ensures { Gives result (λ _. ArePushedRows elements.now
        (all_positions (counts_of O.PTYPE offsets.now) (counts_of size_type sizes.now)) lists.old.items lists.new.items) }
{
    call_native!(
        size_type,
        push_typed_runs::<O>(lists, elements, offsets, sizes)
    )
}

// The items of the lists, by offsets of one type and sizes of another, at the end of other pieces.
#[inline(never)]
fn push_typed_runs<'a, O: NativePType, S: NativePType>(
    lists: &mut Vec<Piece<'a>>,
    elements: &'a ArrayRef,
    offsets: &[u8],
    sizes: &[u8],
) -> Result<(), VortexError>
    requires { AreListBytes O.PTYPE offsets.now S.PTYPE sizes.now (tree_len elements.now) }
    ensures { Gives result (λ _. ArePushedRows elements.now
        (all_positions (counts_of O.PTYPE offsets.now) (counts_of S.PTYPE sizes.now)) lists.old.items lists.new.items) }
{
    elements.known_len();
    let mut start = 0;
    let mut end = 0;
    for i in 0..number_count(sizes, S::PTYPE) {
        let offset = count_of_bytes::<O>(offsets, i);
        let size = count_of_bytes::<S>(sizes, i);
        if goes_on(offset, size, end) {
            end += size;
        } else {
            push_run(lists, elements, start, end)?;
            start = offset;
            end = offset + size;
        }
    }
    push_run(lists, elements, start, end)
}

// One run of the elements, where it has any.
fn push_run<'a>(
    lists: &mut Vec<Piece<'a>>,
    elements: &'a ArrayRef,
    start: usize,
    end: usize,
) -> Result<(), VortexError>
    requires { end ≤ tree_len elements.now }
    ensures { Gives result (λ _. ArePushedRows elements.now (range_with_len start (end - start)) lists.old.items lists.new.items) }
{
    if start < end {
        lists.push(Piece::Rows(part_of(elements, start, end - start)))?;
    }
    Ok(())
}
