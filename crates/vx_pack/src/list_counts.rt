// Offsets and sizes of lists that are packed: they stand end to end.

ghost use Rattle.std.specs.Prelude.{◌≡◌, ◌≤◌, ◌<◌, ◌+◌, ◌*◌, ◌++◌, ◌∷◌, [], ◌^◌};
ghost use Rattle.std.specs.Prelude.{ℕ, List, drop, length, map, pos, sum, take, IfErr, IfSome, IsTrue, MatchResult};
ghost use Rattle.std.specs.List.{All, flat_map};
ghost use Rattle.vx_base.specs.DTypes.{dtype_meaning};
ghost use Rattle.vx_base.specs.Integers.{bytes_of, numbers};
ghost use Rattle.vx_base.specs.Kinds.{Kind};
ghost use Rattle.vx_base.specs.Refusals.{Gives};
ghost use Rattle.vx_base.specs.declared.errors.VortexError.TheVariants.{Overflow};
ghost use Rattle.vx_base.specs.declared.ptypes.PType.TheVariants.{I32};
ghost use Rattle.vx_pack.specs.CountBytes.{AreCountBytes, counts_of};
ghost use Rattle.vx_pack.specs.ListItems.{AreCountsUpTo, AreListCounts, AreLists, IsNoCounts, item_counts, item_of, list_items};
ghost use Rattle.vx_pack.specs.Packed.{bytes_of_numbers, count_type, counts_array, items_or_blank, list_starts};
ghost use Rattle.vx_pack.specs.Pieces.{IsPiece, IsWithinPiece, piece_len, piece_row, piece_rows, pieces_rows};

use crate::count_bytes::{count_of_bytes, total_with_counts};
use crate::packed_numbers::push_count;
use crate::pieces::Piece;
use crate::stored_lists::{BLOCK, FEW};
use std::alloc::Global;
use vx_base::{ByteBuffer, DType, NativePType, PType, VortexError, call_native, number_count};
use vx_tree::{ArrayRef, Validity};

// How many bytes the narrow type has.
const NARROW: usize = 4;

// Where lists begin and how many items each has, while lists are put at the end.
#[derive(Drop)]
pub(crate) struct ListCounts {
    // How many items all lists have, those to come too.
    total: usize,
    // Where the next list begins.
    next: usize,
    offsets: Vec<u8>,
    sizes: Vec<u8>,
}

impl ListCounts {
    // No lists, and room for so many, where the narrow type has their offsets and sizes.
    pub fn with_capacity(alloc: Global, lists: usize) -> Result<ListCounts, VortexError>
        ensures { Gives result IsNoCounts }
    {
        let room = lists.saturating_mul(PType::I32.byte_width());
        let offsets = Vec::with_capacity(alloc, room)?;
        let sizes = Vec::with_capacity(alloc, room)?;
        Ok(ListCounts {
            total: 0,
            next: 0,
            offsets,
            sizes,
        })
    }

    // Those of all lists, which have so many items together, as many as I64 counts. Asks that none
    // was put before.
    pub fn of_lists(
        self,
        alloc: Global,
        dtype: &DType,
        pieces: &[Piece],
        total: usize,
    ) -> Result<(ArrayRef, ArrayRef), VortexError>
        requires empty { IsNoCounts self }
        requires lists { AreLists (dtype_meaning dtype.now) }
        requires pieces { All (IsPiece (dtype_meaning dtype.now)) pieces.now }
        requires total { let kind = dtype_meaning dtype.now in
            length (list_items kind (pieces_rows kind pieces.now)) ≡ total }
        requires fits { total < 2 ^ 63 }
        ensures { let kind = dtype_meaning dtype.now in let sizes = item_counts kind (pieces_rows kind pieces.now) in
            Gives result (λ made. (made.0 ≡ counts_array (count_type total) (list_starts sizes))
            × (made.1 ≡ counts_array (count_type total) sizes)) }
    {
        let mut counts = self;
        counts.total = total;
        for piece in pieces {
            push_counts(&mut counts, dtype, *piece)?;
        }
        counts.finish(alloc)
    }

    // One list more.
    #[inline(always)]
    fn push(&mut self, size: usize) -> Result<(), VortexError>
        requires room { self.old.next + size ≤ self.old.total }
        requires fits { self.old.total < 2 ^ 63 }
        ensures { Gives result (λ _. (total : ℕ) (ns : List ℕ) → AreListCounts total ns self.old
            → AreListCounts total (ns ++ size ∷ []) self.new) }
    {
        let ptype = count_type(self.total);
        push_count(&mut self.offsets, ptype, self.next)?;
        push_count(&mut self.sizes, ptype, size)?;
        self.next += size;
        Ok(())
    }

    // The offsets, and the sizes.
    fn finish(self, alloc: Global) -> Result<(ArrayRef, ArrayRef), VortexError>
        requires { (total : ℕ) × (ns : List ℕ) × AreListCounts total ns self }
        ensures { Gives result (λ made. (total : ℕ) (ns : List ℕ) → AreListCounts total ns self
            → (made.0 ≡ counts_array (count_type total) (list_starts ns)) × (made.1 ≡ counts_array (count_type total) ns)) }
    {
        let ptype = count_type(self.total);
        let ListCounts { offsets, sizes, .. } = self;
        let offsets = counts_of(alloc, ptype, offsets)?;
        let sizes = counts_of(alloc, ptype, sizes)?;
        Ok((offsets, sizes))
    }
}

// An array of counts that are written as bytes of a type.
fn counts_of(alloc: Global, ptype: PType, bytes: Vec<u8>) -> Result<ArrayRef, VortexError>
    requires { (ns : List ℕ) × (bytes.items ≡ bytes_of_numbers ptype (map pos ns)) }
    ensures { Gives result (λ a. (ns : List ℕ) → bytes.items ≡ bytes_of_numbers ptype (map pos ns) → a ≡ counts_array ptype ns) }
{
    let bytes = ByteBuffer::from_vec(alloc, bytes)?;
    ArrayRef::primitive(alloc, ptype, bytes, Validity::NonNullable)
}

// Those of a piece, at the end of the others.
fn push_counts(counts: &mut ListCounts, dtype: &DType, piece: Piece) -> Result<(), VortexError>
    requires lists { AreLists (dtype_meaning dtype.now) }
    requires piece { IsPiece (dtype_meaning dtype.now) piece }
    requires room { (ns : List ℕ) × AreListCounts counts.old.total ns counts.old
        × (sum ns + length (list_items (dtype_meaning dtype.now) (piece_rows (dtype_meaning dtype.now) piece)) ≤ counts.old.total) }
    requires fits { counts.old.total < 2 ^ 63 }
    ensures { let kind = dtype_meaning dtype.now in
        Gives result (λ _. (ns : List ℕ) → AreListCounts counts.old.total ns counts.old
        → AreListCounts counts.old.total (ns ++ item_counts kind (piece_rows kind piece.entry)) counts.new) }
{
    match piece.stored_lists() {
        Some(lists) => push_stored_counts(counts, lists.size_type, lists.sizes),
        None => push_each_count(counts, dtype, piece),
    }
}

// Those of lists whose sizes stand as bytes of a type, at the end of the others.
fn push_stored_counts(
    counts: &mut ListCounts,
    ptype: PType,
    sizes: &[u8],
) -> Result<(), VortexError>
    requires sizes { AreCountBytes ptype sizes.now }
    requires room { (ns : List ℕ) × AreListCounts counts.old.total ns counts.old
        × (sum ns + sum (counts_of ptype sizes.now) ≤ counts.old.total) }
    requires fits { counts.old.total < 2 ^ 63 }
    ensures { Gives result (λ _. (ns : List ℕ) → AreListCounts counts.old.total ns counts.old
        → AreListCounts counts.old.total (ns ++ counts_of ptype sizes.now) counts.new) }
{
    if counts.total > i32::MAX as usize || number_count(sizes, ptype) < FEW {
        call_native!(ptype, push_typed_counts(counts, sizes))
    } else {
        call_native!(ptype, push_narrow_counts(counts, sizes))
    }
}

// Those of lists whose sizes are of one type, put at the end one by one.
#[inline(never)]
fn push_typed_counts<T: NativePType>(
    counts: &mut ListCounts,
    sizes: &[u8],
) -> Result<(), VortexError>
    requires sizes { AreCountBytes T.PTYPE sizes.now }
    requires room { (ns : List ℕ) × AreListCounts counts.old.total ns counts.old
        × (sum ns + sum (counts_of T.PTYPE sizes.now) ≤ counts.old.total) }
    requires fits { counts.old.total < 2 ^ 63 }
    ensures { Gives result (λ _. (ns : List ℕ) → AreListCounts counts.old.total ns counts.old
        → AreListCounts counts.old.total (ns ++ counts_of T.PTYPE sizes.now) counts.new) }
{
    for i in 0..number_count(sizes, T::PTYPE) {
        counts.push(count_of_bytes::<T>(sizes, i))?;
    }
    Ok(())
}

// Those of lists whose sizes are of one type, where the narrow type has offsets and sizes: a block
// of lists at a time.
#[inline(never)]
fn push_narrow_counts<T: NativePType>(
    counts: &mut ListCounts,
    sizes: &[u8],
) -> Result<(), VortexError>
    requires sizes { AreCountBytes T.PTYPE sizes.now }
    requires room { (ns : List ℕ) × AreListCounts counts.old.total ns counts.old
        × (sum ns + sum (counts_of T.PTYPE sizes.now) ≤ counts.old.total) }
    requires fits { counts.old.total < 2 ^ 31 }
    ensures { Gives result (λ _. (ns : List ℕ) → AreListCounts counts.old.total ns counts.old
        → AreListCounts counts.old.total (ns ++ counts_of T.PTYPE sizes.now) counts.new) }
{
    let end = number_count(sizes, T::PTYPE);
    let mut first = 0;
    while first < end {
        let count = (end - first).min(BLOCK);
        push_block::<T>(counts, sizes, first, count)?;
        first += count;
    }
    Ok(())
}

// Those of a block: of so many lists, from one on.
fn push_block<T: NativePType>(
    counts: &mut ListCounts,
    sizes: &[u8],
    first: usize,
    count: usize,
) -> Result<(), VortexError>
    requires sizes { AreCountBytes T.PTYPE sizes.now }
    requires few { count ≤ 128 }
    requires within { first + count ≤ length (numbers T.PTYPE sizes.now) }
    requires room { counts.old.next + sum (take count (drop first (counts_of T.PTYPE sizes.now))) ≤ counts.old.total }
    requires fits { counts.old.total < 2 ^ 31 }
    ensures { Gives result (λ _. (ns : List ℕ) → AreListCounts counts.old.total ns counts.old
        → AreListCounts counts.old.total (ns ++ take count (drop first (counts_of T.PTYPE sizes.now))) counts.new) }
{
    let mut offsets = [[0; NARROW]; BLOCK];
    let mut lens = [[0; NARROW]; BLOCK];
    let next = put_narrow::<T>(sizes, first, count, counts.next, &mut offsets, &mut lens);
    counts
        .offsets
        .extend_from_slice(offsets[..count].as_flattened())?;
    counts
        .sizes
        .extend_from_slice(lens[..count].as_flattened())?;
    counts.next = next;
    Ok(())
}

// Puts the offsets and the sizes of so many lists from one on, of which the first begins at `next`,
// and tells where the one after them begins.
#[inline(always)]
fn put_narrow<T: NativePType>(
    sizes: &[u8],
    first: usize,
    count: usize,
    next: usize,
    offsets: &mut [[u8; NARROW]],
    lens: &mut [[u8; NARROW]],
) -> usize
    requires sizes { AreCountBytes T.PTYPE sizes.now }
    requires offsets { count ≤ length offsets.old }
    requires lens { count ≤ length lens.old }
    requires within { first + count ≤ length (numbers T.PTYPE sizes.now) }
    requires fits { next + sum (take count (drop first (counts_of T.PTYPE sizes.now))) < 2 ^ 31 }
    ensures { (ns os ss : List ℕ) → AreCountsUpTo ns next os ss
        → AreCountsUpTo (ns ++ take count (drop first (counts_of T.PTYPE sizes.now))) result
        (os ++ flat_map (λ b. b) (take count offsets.new)) (ss ++ flat_map (λ b. b) (take count lens.new)) }
{
    let mut at = next;
    for i in 0..count {
        let size = count_of_bytes::<T>(sizes, first + i);
        offsets[i] = narrow_bytes(at);
        lens[i] = narrow_bytes(size);
        at += size;
    }
    at
}

// The bytes of a count of the narrow type.
#[inline(always)]
fn narrow_bytes(count: usize) -> [u8; NARROW]
    requires { count < 2 ^ 31 }
    ensures { result ≡ bytes_of I32 (pos count) }
{
    (count as u32).to_le_bytes()
}

// Those of a piece, at the end of the others, each list looked at by itself.
fn push_each_count(counts: &mut ListCounts, dtype: &DType, piece: Piece) -> Result<(), VortexError>
    requires lists { AreLists (dtype_meaning dtype.now) }
    requires piece { IsPiece (dtype_meaning dtype.now) piece }
    requires room { (ns : List ℕ) × AreListCounts counts.old.total ns counts.old
        × (sum ns + length (list_items (dtype_meaning dtype.now) (piece_rows (dtype_meaning dtype.now) piece)) ≤ counts.old.total) }
    requires fits { counts.old.total < 2 ^ 63 }
    ensures { let kind = dtype_meaning dtype.now in
        Gives result (λ _. (ns : List ℕ) → AreListCounts counts.old.total ns counts.old
        → AreListCounts counts.old.total (ns ++ item_counts kind (piece_rows kind piece.entry)) counts.new) }
{
    for i in 0..piece.len() {
        counts.push(piece.list_len(i))?;
    }
    Ok(())
}

// Refuses `Overflow` where the lists of pieces whose lists are all one have more items than the
// limit: that is told by products.
pub(crate) fn check_same_lists(
    dtype: &DType,
    pieces: &[Piece],
    limit: usize,
) -> Result<(), VortexError>
    requires lists { AreLists (dtype_meaning dtype.now) }
    requires pieces { All (IsPiece (dtype_meaning dtype.now)) pieces.now }
    ensures { let kind = dtype_meaning dtype.now in let count = length (list_items kind (pieces_rows kind pieces.now)) in
        IfErr result (λ e. (e ≡ Overflow) × (limit < count)) }
{
    let mut total = 0;
    for piece in pieces {
        if let Some(size) = piece.one_len() {
            total = total_with_same(total, piece.len(), size, limit)?;
        }
    }
    Ok(())
}

// How many items all lists have together. Refuses `Overflow` where they are more than the limit.
pub(crate) fn total_of_lists(
    dtype: &DType,
    pieces: &[Piece],
    limit: usize,
) -> Result<usize, VortexError>
    requires lists { AreLists (dtype_meaning dtype.now) }
    requires pieces { All (IsPiece (dtype_meaning dtype.now)) pieces.now }
    ensures { let kind = dtype_meaning dtype.now in let count = length (list_items kind (pieces_rows kind pieces.now)) in
        MatchResult result (λ total. (total ≡ count) × (total ≤ limit)) (λ e. (e ≡ Overflow) × (limit < count)) }
{
    let mut total = 0;
    for piece in pieces {
        total = total_with(dtype, *piece, total, limit)?;
    }
    Ok(total)
}

// So many, and those of the lists of a piece: by the sum of its sizes, where these stand as
// numbers, and by a product, where its lists are all one.
fn total_with(
    dtype: &DType,
    piece: Piece,
    before: usize,
    limit: usize,
) -> Result<usize, VortexError>
    requires lists { AreLists (dtype_meaning dtype.now) }
    requires piece { IsPiece (dtype_meaning dtype.now) piece }
    requires within { before ≤ limit }
    ensures { let kind = dtype_meaning dtype.now in let count = before + length (list_items kind (piece_rows kind piece.entry)) in
        MatchResult result (λ total. (total ≡ count) × (total ≤ limit)) (λ e. (e ≡ Overflow) × (limit < count)) }
{
    if let Some(lists) = piece.stored_lists() {
        return total_with_counts(lists.size_type, lists.sizes, before, limit);
    }
    match piece.one_len() {
        Some(size) => total_with_same(before, piece.len(), size, limit),
        None => total_with_each(dtype, piece, before, limit),
    }
}

// So many, and those of so many lists of one size.
fn total_with_same(
    before: usize,
    len: usize,
    size: usize,
    limit: usize,
) -> Result<usize, VortexError>
    ensures { MatchResult result (λ total. (total ≡ before + len * size) × (total ≤ limit))
        (λ e. (e ≡ Overflow) × (limit < before + len * size)) }
{
    let Some(count) = len.checked_mul(size) else {
        return Err(VortexError::Overflow);
    };
    match before.checked_add(count) {
        Some(total) if total <= limit => Ok(total),
        _ => Err(VortexError::Overflow),
    }
}

// So many, and those of the lists of a piece, each looked at by itself.
fn total_with_each(
    dtype: &DType,
    piece: Piece,
    before: usize,
    limit: usize,
) -> Result<usize, VortexError>
    requires lists { AreLists (dtype_meaning dtype.now) }
    requires piece { IsPiece (dtype_meaning dtype.now) piece }
    requires within { before ≤ limit }
    ensures { let kind = dtype_meaning dtype.now in let count = before + length (list_items kind (piece_rows kind piece.entry)) in
        MatchResult result (λ total. (total ≡ count) × (total ≤ limit)) (λ e. (e ≡ Overflow) × (limit < count)) }
{
    let mut total = before;
    for i in 0..piece.len() {
        match total.checked_add(piece.list_len(i)) {
            Some(more) if more <= limit => total = more,
            _ => return Err(VortexError::Overflow),
        }
    }
    Ok(total)
}

// The type of offsets and sizes of lists that have so many elements: the narrow one where it
// holds them.
fn count_type(total: usize) -> PType
    ensures { result ≡ count_type total }
{
    if total <= i32::MAX as usize {
        PType::I32
    } else {
        PType::I64
    }
}

impl<'a> Piece<'a> {
    // How many items the list has that row `i` is, none where it is null.
    #[inline(always)]
    fn list_len(self, i: usize) -> usize
        requires within { IsWithinPiece self }
        requires in_bounds { i < piece_len self }
        ensures { (k : Kind) → AreLists k → IsPiece k self.entry →
            result ≡ length (items_or_blank (item_of k) 0 (piece_row k self.entry i)) }
    {
        self.list_or_blank(i, 0).len()
    }

    // How many items the list has that each row is, where the layout says that all rows are one.
    fn one_len(self) -> Option<usize>
        requires { IsWithinPiece self }
        ensures { IfSome result (λ size. (k : Kind) → AreLists k → IsPiece k self.entry →
            All (λ r. length (items_or_blank (item_of k) 0 r) ≡ size) (piece_rows k self.entry)) }
    {
        if self.len() > 0 && self.has_one_row() {
            return Some(self.list_len(0));
        }
        None
    }

    // Whether the layout says that all rows are one: default rows are.
    fn has_one_row(self) -> bool
        ensures { (k : Kind) → IsTrue result → (i : ℕ) → piece_row k self.entry i ≡ piece_row k self.entry 0 }
    {
        match self {
            Piece::Rows(part) => part.has_one_row(),
            Piece::Blank(_) => true,
        }
    }
}
