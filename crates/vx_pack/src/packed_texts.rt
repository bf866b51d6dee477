// Texts and byte lists that are packed.

ghost use Rattle.std.specs.Prelude.{◌≡◌, ◌<◌, ◌≤◌, ℕ, List, [], IfErr, IfOk, length, map, slice_index_or, true};
ghost use Rattle.std.specs.List.{All};
ghost use Rattle.vx_base.specs.DTypes.{dtype_meaning};
ghost use Rattle.vx_base.specs.Refusals.{Gives};
ghost use Rattle.vx_base.specs.Rows.{Row};
ghost use Rattle.vx_tree.specs.Parts.{valid_of};
ghost use Rattle.vx_views.specs.Views.{Resolves, view_value};
ghost use Rattle.vx_text.specs.Filling.{filling};
ghost use Rattle.vx_pack.specs.Packed.{IsPackRefused, IsPacked, has_bytes};
ghost use Rattle.vx_pack.specs.Pieces.{ArePieces, IsPiece, piece_rows, pieces_rows};
ghost use Rattle.vx_pack.specs.StoredTexts.{ArePushed, AreTextsOf, bytes_or_empty, filled};

use crate::packed_bits::validity_of;
use crate::pieces::Piece;
use std::alloc::Global;
use vx_base::{ByteBuffer, DType, VortexError};
use vx_text::Filling;
use vx_tree::{ArrayRef, Validity};
use vx_views::{BinaryView, MAX_BUFFER_LEN};

// The packed form of texts or byte lists.
pub(crate) fn pack_texts(
    alloc: Global,
    dtype: &DType,
    pieces: &[Piece],
    len: usize,
) -> Result<ArrayRef, VortexError>
    requires values { has_bytes (dtype_meaning dtype.now) ≡ true }
    requires pieces { ArePieces (dtype_meaning dtype.now) pieces.now len }
    ensures ok { let kind = dtype_meaning dtype.now in
        IfOk result (IsPacked kind (pieces_rows kind pieces.now)) }
    ensures err { let kind = dtype_meaning dtype.now in
        IfErr result (IsPackRefused kind (pieces_rows kind pieces.now)) }
{
    let texts = filled_with(alloc, dtype, pieces, len)?;
    let validity = validity_of(alloc, dtype, pieces, len)?;
    finished_texts(alloc, dtype, texts, validity)
}

// The packed form of rows whose values are these, with their validity.
pub(crate) fn finished_texts(
    alloc: Global,
    dtype: &DType,
    texts: Filling,
    validity: Validity,
) -> Result<ArrayRef, VortexError>
    requires { (rs : List Row) × AreTextsOf (dtype_meaning dtype.now) rs (filled texts) (valid_of validity) }
    ensures ok { let kind = dtype_meaning dtype.now in
        (rs : List Row) → AreTextsOf kind rs (filled texts) (valid_of validity) → IfOk result (IsPacked kind rs) }
    ensures err { let kind = dtype_meaning dtype.now in
        (rs : List Row) → AreTextsOf kind rs (filled texts) (valid_of validity) → IfErr result (IsPackRefused kind rs) }
{
    let (buffers, views) = texts.finish(alloc)?;
    let dtype = dtype.try_clone(alloc)?;
    ArrayRef::var_bin_view(alloc, views, buffers, dtype, validity)
}

// The values of all rows, no bytes where they are null.
fn filled_with(
    alloc: Global,
    dtype: &DType,
    pieces: &[Piece],
    len: usize,
) -> Result<Filling, VortexError>
    requires values { has_bytes (dtype_meaning dtype.now) ≡ true }
    requires pieces { ArePieces (dtype_meaning dtype.now) pieces.now len }
    ensures { Gives result (λ f.
        ArePushed (filling [] [] []) (map bytes_or_empty (pieces_rows (dtype_meaning dtype.now) pieces.now)) (filled f)) }
{
    let mut texts = Filling::with_capacity(alloc, len, 0)?;
    texts
        .last
        .reserve(heap_len(dtype, pieces).min(MAX_BUFFER_LEN))?;
    for piece in pieces {
        push_texts(alloc, &mut texts, dtype, *piece)?;
    }
    Ok(texts)
}

// How many bytes of values go into buffers, as far as views tell.
fn heap_len(dtype: &DType, pieces: &[Piece]) -> usize
    requires { All (IsPiece (dtype_meaning dtype.now)) pieces.now }
{
    let mut total: usize = 0;
    for piece in pieces {
        if let Some(stored) = piece.stored_texts() {
            total = total.saturating_add(long_len(stored.views));
        }
    }
    total
}

// How many bytes the values have together that stand in no view.
pub(crate) fn long_len(views: &[BinaryView]) -> usize {
    let mut total: usize = 0;
    for view in views {
        if !view.is_inlined() {
            total = total.saturating_add(view.len() as usize);
        }
    }
    total
}

// The values of a piece, after the others.
pub(crate) fn push_texts(
    alloc: Global,
    texts: &mut Filling,
    dtype: &DType,
    piece: Piece,
) -> Result<(), VortexError>
    requires values { has_bytes (dtype_meaning dtype.now) ≡ true }
    requires piece { IsPiece (dtype_meaning dtype.now) piece }
    ensures { Gives result (λ _.
        ArePushed (filled texts.old) (map bytes_or_empty (piece_rows (dtype_meaning dtype.now) piece.entry)) (filled texts.new)) }
{
    match piece.stored_texts() {
        Some(stored) => push_views(alloc, texts, stored.views, stored.buffers),
        None => push_each_text(alloc, texts, dtype, piece),
    }
}

// The values that views have: a null row has the view of no bytes.
fn push_views(
    alloc: Global,
    texts: &mut Filling,
    views: &[BinaryView],
    buffers: &[ByteBuffer],
) -> Result<(), VortexError>
    requires resolve { (i : ℕ) → i < length views.now → Resolves buffers.now (slice_index_or views.now i []) }
    requires short { (i : ℕ) → i < length views.now →
        length (view_value buffers.now (slice_index_or views.now i [])) ≤ MAX_BUFFER_LEN }
    ensures { Gives result (λ _. ArePushed (filled texts.old) (map (view_value buffers.now) views.now) (filled texts.new)) }
{
    for row in 0..views.len() {
        texts.push(alloc, views[row].value_in(buffers))?;
    }
    Ok(())
}

// The values of a piece, after the others, each row read by itself.
fn push_each_text(
    alloc: Global,
    texts: &mut Filling,
    dtype: &DType,
    piece: Piece,
) -> Result<(), VortexError>
    requires values { has_bytes (dtype_meaning dtype.now) ≡ true }
    requires piece { IsPiece (dtype_meaning dtype.now) piece }
    ensures { Gives result (λ _.
        ArePushed (filled texts.old) (map bytes_or_empty (piece_rows (dtype_meaning dtype.now) piece.entry)) (filled texts.new)) }
{
    let is_nullable = dtype.is_nullable();
    for i in 0..piece.len() {
        texts.push(alloc, piece.bytes(i, is_nullable).unwrap_or(&[]))?;
    }
    Ok(())
}
