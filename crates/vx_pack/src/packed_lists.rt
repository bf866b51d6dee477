// Lists that are packed: where each begins and ends, and which rows are theirs.

ghost use Rattle.std.specs.Prelude.{◌≡◌, ◌*◌, ◌++◌, Bool, List};
ghost use Rattle.std.specs.List.{All, flat_map};
ghost use Rattle.vx_base.specs.DTypes.{dtype_meaning};
ghost use Rattle.vx_base.specs.Kinds.{Kind, fixed_lists};
ghost use Rattle.vx_base.specs.Refusals.{Gives};
ghost use Rattle.vx_pack.specs.Lists.{IsItemOf};
ghost use Rattle.vx_pack.specs.Packed.{items_or_blank};
ghost use Rattle.vx_pack.specs.Pieces.{AreElements, AreJoined, AreListPieces, ArePieces, IsPiece, blank_of, piece_rows, pieces_rows};
ghost use Rattle.vx_pack.specs.declared.pieces.Piece.{Piece as Pieces};

use crate::pieces::Piece;
use crate::run_pieces::push_runs;
use std::alloc::Global;
use vx_base::{DType, VortexError};

// The rows of lists of one size, as `joined_pieces` has them: where they have no elements, no list
// is looked at.
pub(crate) fn fixed_list_pieces<'a>(
    alloc: Global,
    dtype: &DType,
    pieces: &[Piece<'a>],
    size: u32,
    len: usize,
) -> Result<Vec<Piece<'a>>, VortexError>
    requires pieces { ArePieces (dtype_meaning dtype.now) pieces.now len }
    requires size { blank_of (dtype_meaning dtype.now) ≡ size }
    ensures { Gives result (λ lists. (item : Kind) (n : Bool) → dtype_meaning dtype.now ≡ fixed_lists item size n →
        AreElements item (len * size) (flat_map (items_or_blank item size) (pieces_rows (dtype_meaning dtype.now) pieces.now))
        lists.items) }
{
    if size == 0 {
        return Ok(Vec::new(alloc));
    }
    joined_pieces(alloc, dtype, pieces, size as usize)
}

// The rows of lists, so many default rows where one is null: one piece for all lists of a piece
// where they stand end to end, one for each run where offsets and sizes stand as numbers, else one
// a list.
pub(crate) fn joined_pieces<'a>(
    alloc: Global,
    dtype: &DType,
    pieces: &[Piece<'a>],
    blank: usize,
) -> Result<Vec<Piece<'a>>, VortexError>
    requires pieces { All (IsPiece (dtype_meaning dtype.now)) pieces.now }
    requires blank { blank_of (dtype_meaning dtype.now) ≡ blank }
    ensures { Gives result (λ lists. (item : Kind) → IsItemOf item (dtype_meaning dtype.now) →
        AreJoined item (flat_map (items_or_blank item blank) (pieces_rows (dtype_meaning dtype.now) pieces.now)) lists.items) }
{
    let mut lists = Vec::new(alloc);
    for piece in pieces {
        push_joined(&mut lists, dtype, *piece, blank)?;
    }
    Ok(lists)
}

// Those of a piece, at the end of the others.
fn push_joined<'a>(
    lists: &mut Vec<Piece<'a>>,
    dtype: &DType,
    piece: Piece<'a>,
    blank: usize,
) -> Result<(), VortexError>
    requires piece { IsPiece (dtype_meaning dtype.now) piece }
    requires blank { blank_of (dtype_meaning dtype.now) ≡ blank }
    ensures { Gives result (λ _. (item : Kind) → IsItemOf item (dtype_meaning dtype.now) → (more : List Pieces)
        × AreJoined item (flat_map (items_or_blank item blank) (piece_rows (dtype_meaning dtype.now) piece.entry)) more
        × (lists.new.items ≡ lists.old.items ++ more)) }
{
    match piece.joined_items() {
        Some(items) => lists.push(items)?,
        None => match piece.stored_lists() {
            Some(stored) => push_runs(lists, stored)?,
            None => {
                lists.reserve(piece.len())?;
                push_lists(lists, dtype, piece, blank)?;
            }
        },
    }
    Ok(())
}

// Those of a piece, one a list.
fn push_lists<'a>(
    lists: &mut Vec<Piece<'a>>,
    dtype: &DType,
    piece: Piece<'a>,
    blank: usize,
) -> Result<(), VortexError>
    requires piece { IsPiece (dtype_meaning dtype.now) piece }
    requires blank { blank_of (dtype_meaning dtype.now) ≡ blank }
    ensures { Gives result (λ _. (item : Kind) → IsItemOf item (dtype_meaning dtype.now) → (more : List Pieces)
        × AreListPieces item blank (piece_rows (dtype_meaning dtype.now) piece.entry) more
        × (lists.new.items ≡ lists.old.items ++ more)) }
{
    for i in 0..piece.len() {
        lists.push(piece.list_or_blank(i, blank))?;
    }
    Ok(())
}
