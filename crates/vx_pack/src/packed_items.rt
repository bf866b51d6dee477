// The items of lists that are packed, where they are values: put into their column one list after
// another.

ghost use Rattle.std.specs.Prelude.{◌≡◌, ◌<◌, ◌+◌, ◌++◌, ◌^◌, Bool, List, length, true, IfErr, IfOk};
ghost use Rattle.std.specs.List.{All};
ghost use Rattle.vx_base.specs.DTypes.{dtype_meaning};
ghost use Rattle.vx_base.specs.Kinds.{lists};
ghost use Rattle.vx_base.specs.Refusals.{Gives};
ghost use Rattle.vx_base.specs.Rows.{Row};
ghost use Rattle.vx_pack.specs.Gathered.{AreGathered, is_leaf};
ghost use Rattle.vx_pack.specs.ListItems.{list_items};
ghost use Rattle.vx_pack.specs.Packed.{IsPackRefused, IsPacked};
ghost use Rattle.vx_pack.specs.Pieces.{IsPiece, piece_rows, pieces_rows};

use crate::gathered::Gathered;
use crate::packed_texts::long_len;
use crate::pieces::Piece;
use crate::stored_lists::{FEW, plain_numbers};
use std::alloc::Global;
use vx_base::{DType, VortexError};
use vx_tree::ArrayRef;
use vx_views::MAX_BUFFER_LEN;

// The packed form of the items of lists, of which there are so many.
pub(crate) fn pack_items(
    alloc: Global,
    dtype: &DType,
    items: &DType,
    pieces: &[Piece],
    total: usize,
) -> Result<ArrayRef, VortexError>
    requires leaf { is_leaf (dtype_meaning items.now) ≡ true }
    requires lists { (n : Bool) × (dtype_meaning dtype.now ≡ lists (dtype_meaning items.now) n) }
    requires pieces { All (IsPiece (dtype_meaning dtype.now)) pieces.now }
    requires total { let kind = dtype_meaning dtype.now in length (list_items kind (pieces_rows kind pieces.now)) ≡ total }
    ensures ok { let kind = dtype_meaning dtype.now in
        IfOk result (IsPacked (dtype_meaning items.now) (list_items kind (pieces_rows kind pieces.now))) }
    ensures err { let kind = dtype_meaning dtype.now in
        IfErr result (IsPackRefused (dtype_meaning items.now) (list_items kind (pieces_rows kind pieces.now))) }
{
    let mut gathered = Gathered::with_capacity(alloc, items, total)?;
    gathered.reserve_bytes(heap_len(dtype, items, pieces).min(MAX_BUFFER_LEN))?;
    for piece in pieces {
        push_items(alloc, &mut gathered, dtype, items, *piece)?;
    }
    gathered.finish(alloc, items)
}

// The items of the lists of a piece, after the others: gathered in runs, where these are numbers of
// which none is null, and offsets and sizes stand as numbers too.
fn push_items(
    alloc: Global,
    gathered: &mut Gathered,
    dtype: &DType,
    items: &DType,
    piece: Piece,
) -> Result<(), VortexError>
    requires lists { (n : Bool) × (dtype_meaning dtype.now ≡ lists (dtype_meaning items.now) n) }
    requires piece { IsPiece (dtype_meaning dtype.now) piece }
    requires rows { let kind = dtype_meaning dtype.now in
        (rs : List Row) × AreGathered (dtype_meaning items.now) rs gathered.old
        × (length rs + length (list_items kind (piece_rows kind piece)) < 2 ^ 64) }
    ensures { let kind = dtype_meaning dtype.now in
        Gives result (λ _. (rs : List Row) → AreGathered (dtype_meaning items.now) rs gathered.old
        → AreGathered (dtype_meaning items.now) (rs ++ list_items kind (piece_rows kind piece.entry)) gathered.new) }
{
    if piece.len() < FEW {
        return push_each_list(alloc, gathered, dtype, items, piece);
    }
    let Some(lists) = piece.stored_lists() else {
        return push_each_list(alloc, gathered, dtype, items, piece);
    };
    match plain_numbers(items, lists.elements) {
        Some((ptype, elements)) => gathered.push_list_numbers(alloc, items, ptype, elements, lists),
        None => push_each_list(alloc, gathered, dtype, items, piece),
    }
}

// The items of the lists of a piece, after the others, each list looked at by itself.
fn push_each_list(
    alloc: Global,
    gathered: &mut Gathered,
    dtype: &DType,
    items: &DType,
    piece: Piece,
) -> Result<(), VortexError>
    requires lists { (n : Bool) × (dtype_meaning dtype.now ≡ lists (dtype_meaning items.now) n) }
    requires piece { IsPiece (dtype_meaning dtype.now) piece }
    requires rows { let kind = dtype_meaning dtype.now in
        (rs : List Row) × AreGathered (dtype_meaning items.now) rs gathered.old
        × (length rs + length (list_items kind (piece_rows kind piece)) < 2 ^ 64) }
    ensures { let kind = dtype_meaning dtype.now in
        Gives result (λ _. (rs : List Row) → AreGathered (dtype_meaning items.now) rs gathered.old
        → AreGathered (dtype_meaning items.now) (rs ++ list_items kind (piece_rows kind piece.entry)) gathered.new) }
{
    for i in 0..piece.len() {
        gathered.push(alloc, items, piece.list_or_blank(i, 0))?;
    }
    Ok(())
}

// How many bytes of the items go into buffers, as far as views tell: those of texts and of byte
// lists alone do.
fn heap_len(dtype: &DType, items: &DType, pieces: &[Piece]) -> usize
    requires lists { (n : Bool) × (dtype_meaning dtype.now ≡ lists (dtype_meaning items.now) n) }
    requires pieces { All (IsPiece (dtype_meaning dtype.now)) pieces.now }
{
    if !matches!(items, DType::Utf8(_) | DType::Binary(_)) {
        return 0;
    }
    let mut total: usize = 0;
    for piece in pieces {
        total = total.saturating_add(heap_len_of(dtype, items, *piece));
    }
    total
}

// How many bytes of the items of the lists of a piece go into buffers, as far as views tell.
fn heap_len_of(dtype: &DType, items: &DType, piece: Piece) -> usize
    requires lists { (n : Bool) × (dtype_meaning dtype.now ≡ lists (dtype_meaning items.now) n) }
    requires piece { IsPiece (dtype_meaning dtype.now) piece }
{
    let mut total: usize = 0;
    for i in 0..piece.len() {
        if let Some(stored) = piece.list_or_blank(i, 0).stored_texts() {
            total = total.saturating_add(long_len(stored.views));
        }
    }
    total
}
