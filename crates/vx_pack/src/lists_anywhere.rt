// Whether lists that stand by offsets and sizes are the same wherever they lie among their
// elements, those of a block at a time.

ghost use Rattle.std.specs.Prelude.{◌≡◌, ◌↔◌, ◌<◌, ◌≤◌, ◌+◌, ℕ, length, IfSome, IsTrue};
ghost use Rattle.vx_base.specs.DTypes.{dtype_meaning};
ghost use Rattle.vx_base.specs.Integers.{numbers};
ghost use Rattle.vx_tree.specs.Meaning.{kind_of, tree_len};
ghost use Rattle.vx_pack.specs.CountBytes.{counts_of};
ghost use Rattle.vx_pack.specs.SameElements.{AreBlockLists, AreReadable, AreSameLists, IsSameAt, first_len, second_len};
ghost use Rattle.vx_pack.specs.StoredLists.{AreListBytes, stored_row, stored_sizes};

use crate::count_bytes::{count_of_bytes, put_counts};
use crate::same_elements::{Elements, plain_elements};
use crate::stored_lists::{BLOCK, StoredLists};
use vx_base::{DType, NativePType, PType, call_native, number_count};

// Where the lists of a block begin among their elements, and how many each has.
#[derive(Clone, Copy)]
pub(crate) struct Block<'a> {
    starts: &'a [usize],
    sizes: &'a [usize],
}

// Whether as many lists are the same, one by one, where their elements can be compared so. Not
// inlined, so that the frame of each level of lists stays small.
#[inline(never)]
pub(crate) fn same_lists_anywhere(items: &DType, a: &StoredLists, b: &StoredLists) -> Option<bool>
    requires first_kind { kind_of a.now.elements.now ≡ dtype_meaning items.now }
    requires second_kind { kind_of b.now.elements.now ≡ dtype_meaning items.now }
    requires first { AreListBytes a.now.offset_type a.now.offsets.now a.now.size_type a.now.sizes.now (tree_len a.now.elements.now) }
    requires second { AreListBytes b.now.offset_type b.now.offsets.now b.now.size_type b.now.sizes.now (tree_len b.now.elements.now) }
    requires same_len { length (stored_sizes b.now) ≡ length (stored_sizes a.now) }
    ensures { IfSome result (λ same. IsTrue same ↔ ((i : ℕ) → i < length (stored_sizes a.now) → stored_row a.now i ≡ stored_row b.now i)) }
{
    let elements = plain_elements(items, a.elements, b.elements)?;
    Some(same_blocks(elements, *a, *b))
}

// Whether as many lists over these elements are the same, a block at a time.
fn same_blocks(elements: Elements, a: StoredLists, b: StoredLists) -> bool
    requires readable { AreReadable elements }
    requires first { AreListBytes a.offset_type a.offsets.now a.size_type a.sizes.now (first_len elements) }
    requires second { AreListBytes b.offset_type b.offsets.now b.size_type b.sizes.now (second_len elements) }
    requires same_len { length (stored_sizes b) ≡ length (stored_sizes a) }
    ensures { IsTrue result ↔ ((i : ℕ) → i < length (stored_sizes a.entry) → IsSameAt elements.entry a.entry b.entry i) }
{
    let end = number_count(a.sizes, a.size_type);
    let mut first = 0;
    while first < end {
        let count = (end - first).min(BLOCK);
        if !same_block(elements, a, b, first, count) {
            return false;
        }
        first += count;
    }
    true
}

// Whether the lists of a block are the same: so many, from one on.
fn same_block(
    elements: Elements,
    a: StoredLists,
    b: StoredLists,
    first: usize,
    count: usize,
) -> bool
    requires readable { AreReadable elements }
    requires first { AreListBytes a.offset_type a.offsets.now a.size_type a.sizes.now (first_len elements) }
    requires second { AreListBytes b.offset_type b.offsets.now b.size_type b.sizes.now (second_len elements) }
    requires same_len { length (stored_sizes b) ≡ length (stored_sizes a) }
    requires within { first + count ≤ length (stored_sizes a) }
    requires few { count ≤ 128 }
    ensures { IsTrue result ↔ ((i : ℕ) → i < count → IsSameAt elements.entry a.entry b.entry (first + i)) }
{
    let mut starts = [0; BLOCK];
    let mut sizes = [0; BLOCK];
    let starts = &mut starts[..count];
    let sizes = &mut sizes[..count];
    put_counts(a.offset_type, a.offsets, first, starts);
    put_counts(a.size_type, a.sizes, first, sizes);
    let block = Block { starts, sizes };
    same_lists(
        elements,
        block,
        b.offset_type,
        b.offsets,
        b.size_type,
        b.sizes,
        first,
    )
}

// Whether the lists of a block are those of the second column from one on.
fn same_lists(
    elements: Elements,
    block: Block,
    offset_type: PType,
    offsets: &[u8],
    size_type: PType,
    sizes: &[u8],
    first: usize,
) -> bool
    requires readable { AreReadable elements }
    requires block { AreBlockLists (first_len elements) block }
    requires lists { AreListBytes offset_type offsets.now size_type sizes.now (second_len elements) }
    requires within { first + length block.starts.now ≤ length (numbers size_type sizes.now) }
    ensures { IsTrue result ↔ AreSameLists elements.entry block.entry (counts_of offset_type offsets.now)
        (counts_of size_type sizes.now) first }
{
    call_native!(
        offset_type,
        same_lists_from(elements, block, offsets, size_type, sizes, first)
    )
}

// Whether the lists of a block are those of the second column from one on, by offsets of one type.
fn same_lists_from<O: NativePType>(
    elements: Elements,
    block: Block,
    offsets: &[u8],
    size_type: PType,
    sizes: &[u8],
    first: usize,
) -> bool
    requires readable { AreReadable elements }
    requires block { AreBlockLists (first_len elements) block }
    requires lists { AreListBytes O.PTYPE offsets.now size_type sizes.now (second_len elements) }
    requires within { first + length block.starts.now ≤ length (numbers size_type sizes.now) }
    ensures { IsTrue result ↔ AreSameLists elements.entry block.entry (counts_of O.PTYPE offsets.now)
        (counts_of size_type sizes.now) first }
{
    call_native!(
        size_type,
        same_typed_lists::<O>(elements, block, offsets, sizes, first)
    )
}

// Whether the lists of a block are those of the second column from one on, by offsets of one type
// and sizes of another.
#[inline(never)]
fn same_typed_lists<O: NativePType, S: NativePType>(
    elements: Elements,
    block: Block,
    offsets: &[u8],
    sizes: &[u8],
    first: usize,
) -> bool
    requires readable { AreReadable elements }
    requires block { AreBlockLists (first_len elements) block }
    requires lists { AreListBytes O.PTYPE offsets.now S.PTYPE sizes.now (second_len elements) }
    requires within { first + length block.starts.now ≤ length (numbers S.PTYPE sizes.now) }
    ensures { IsTrue result ↔ AreSameLists elements.entry block.entry (counts_of O.PTYPE offsets.now)
        (counts_of S.PTYPE sizes.now) first }
{
    for i in 0..block.starts.len() {
        let start = count_of_bytes::<O>(offsets, first + i);
        let size = count_of_bytes::<S>(sizes, first + i);
        if !elements.same_list(block.starts[i], block.sizes[i], start, size) {
            return false;
        }
    }
    true
}
