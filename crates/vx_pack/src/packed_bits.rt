// Bits, one for each row that is packed.

ghost use Rattle.std.specs.Prelude.{◌≡◌, ◌<◌, ◌≤◌, ◌+◌, ◌^◌, ◌++◌, ◌∷◌, ◌&&◌, [], true, length, map, replicate, IsTrue};
ghost use Rattle.std.specs.List.{All, range_with_len};
ghost use Rattle.vx_base.specs.Bits.{bool_at};
ghost use Rattle.vx_base.specs.DTypes.{dtype_meaning};
ghost use Rattle.vx_base.specs.Kinds.{is_nullable_kind};
ghost use Rattle.vx_base.specs.Refusals.{Gives};
ghost use Rattle.vx_base.specs.Rows.{is_present, truth_of};
ghost use Rattle.vx_tree.specs.Parts.{valid_of};
ghost use Rattle.vx_tree.specs.Tree.{all_valid};
ghost use Rattle.vx_tree.specs.Validities.{valid_from};
ghost use Rattle.vx_pack.specs.Packed.{packed_valid};
ghost use Rattle.vx_pack.specs.Pieces.{ArePieces, IsPiece, piece_len, piece_rows, pieces_rows};

use crate::exact_bits::ExactBits;
use crate::parts::Part;
use crate::pieces::Piece;
use crate::presence::presence_of;
use crate::stored_bits::{stored_presence, stored_truths};
use std::alloc::Global;
use vx_base::{BitBuffer, BitBufferMut, DType, Nullability, VortexError};
use vx_tree::Validity;

// Truth values of up to so many rows are read one by one where null stands among them: joined bits
// are had in memory of their own.
const FEW: usize = 64;

// The truth values of rows, false where they are null.
pub(crate) fn truth_bits(
    alloc: Global,
    dtype: &DType,
    pieces: &[Piece],
    len: usize,
) -> Result<ExactBits, VortexError>
    requires { ArePieces (dtype_meaning dtype.now) pieces.now len }
    ensures { Gives result (λ b. b ≡ map truth_of (pieces_rows (dtype_meaning dtype.now) pieces.now)) }
{
    let mut bits = BitBufferMut::with_capacity(alloc, len)?;
    for piece in pieces {
        push_truths(alloc, &mut bits, dtype, *piece)?;
    }
    ExactBits::of(alloc, bits)
}

// Those of a piece, at the end of the bits.
pub(crate) fn push_truths(
    alloc: Global,
    bits: &mut BitBufferMut,
    dtype: &DType,
    piece: Piece,
) -> Result<(), VortexError>
    requires piece { IsPiece (dtype_meaning dtype.now) piece }
    requires fits { length bits.old + piece_len piece < 2 ^ 64 }
    ensures { Gives result (λ _. bits.new ≡ bits.old ++ map truth_of (piece_rows (dtype_meaning dtype.now) piece.entry)) }
{
    let Piece::Rows(part) = piece else {
        return push_each_truth(bits, dtype, piece);
    };
    let Part::Array(array, start, len) = part else {
        return push_each_truth(bits, dtype, piece);
    };
    let Some(truths) = stored_truths(array) else {
        return push_each_truth(bits, dtype, piece);
    };
    if let Some(true) = presence_of(array) {
        return push_range(bits, truths, start, len);
    }
    match stored_presence(array) {
        Some(valid) if len > FEW => push_both(alloc, bits, truths, valid, start, len),
        _ => push_each_truth(bits, dtype, piece),
    }
}

// The bits that are true in both, of so many from a place on.
fn push_both(
    alloc: Global,
    bits: &mut BitBufferMut,
    truths: &BitBuffer,
    valid: &BitBuffer,
    start: usize,
    len: usize,
) -> Result<(), VortexError>
    requires truths { start + len ≤ length truths.now.bits }
    requires valid { start + len ≤ length valid.now.bits }
    requires countable { start + len < 2 ^ 64 }
    requires fits { length bits.old + len < 2 ^ 64 }
    ensures { Gives result (λ _. bits.new ≡ bits.old
        ++ map (λ i. bool_at valid.now.bits (start + i) && bool_at truths.now.bits (start + i)) (range_with_len 0 len)) }
{
    let end = start + len;
    let truths = truths.slice(alloc, start..end)?;
    let both = valid.slice(alloc, start..end)?.and(alloc, &truths)?;
    push_range(bits, &both, 0, len)
}

// Those of a piece, each read by itself.
fn push_each_truth(bits: &mut BitBufferMut, dtype: &DType, piece: Piece) -> Result<(), VortexError>
    requires piece { IsPiece (dtype_meaning dtype.now) piece }
    requires fits { length bits.old + piece_len piece < 2 ^ 64 }
    ensures { Gives result (λ _. bits.new ≡ bits.old ++ map truth_of (piece_rows (dtype_meaning dtype.now) piece.entry)) }
{
    for i in 0..piece.len() {
        push_bit(bits, piece.truth_or_false(i))?;
    }
    Ok(())
}

// The simplest validity of rows: where null may stand, bits tell which are there, if some are and
// some are not.
pub(crate) fn validity_of(
    alloc: Global,
    dtype: &DType,
    pieces: &[Piece],
    len: usize,
) -> Result<Validity, VortexError>
    requires { ArePieces (dtype_meaning dtype.now) pieces.now len }
    ensures { let kind = dtype_meaning dtype.now in
        Gives result (λ v. valid_of v ≡ packed_valid (is_nullable_kind kind) (pieces_rows kind pieces.now)) }
{
    match dtype.nullability() {
        Nullability::NonNullable => Ok(Validity::NonNullable),
        Nullability::Nullable => nullable_validity(alloc, dtype, pieces, len),
    }
}

// The simplest validity of rows where null may stand: no bit is made where the layouts tell that all
// rows are there, or that none is.
fn nullable_validity(
    alloc: Global,
    dtype: &DType,
    pieces: &[Piece],
    len: usize,
) -> Result<Validity, VortexError>
    requires nullable { is_nullable_kind (dtype_meaning dtype.now) ≡ true }
    requires pieces { ArePieces (dtype_meaning dtype.now) pieces.now len }
    ensures { Gives result (λ v. valid_of v
        ≡ valid_from 0 (map is_present (pieces_rows (dtype_meaning dtype.now) pieces.now)) all_valid) }
{
    if have_presence(dtype, pieces, true) {
        return Ok(Validity::AllValid);
    }
    if len > 0 && have_presence(dtype, pieces, false) {
        return Ok(Validity::AllInvalid);
    }
    let bits = present_bits(alloc, dtype, pieces, len)?;
    Validity::from_buffer(alloc, bits.into_buffer(alloc)?)
}

// Whether the layouts tell that all rows are there, or that all are null, as is asked.
fn have_presence(dtype: &DType, pieces: &[Piece], wanted: bool) -> bool
    requires nullable { is_nullable_kind (dtype_meaning dtype.now) ≡ true }
    ensures { IsTrue result →
        All (λ r. is_present r ≡ wanted) (pieces_rows (dtype_meaning dtype.now) pieces.now) }
{
    for piece in pieces {
        if piece.presence() != Some(wanted) {
            return false;
        }
    }
    true
}

// Which rows are not null, where null may stand.
fn present_bits(
    alloc: Global,
    dtype: &DType,
    pieces: &[Piece],
    len: usize,
) -> Result<ExactBits, VortexError>
    requires nullable { is_nullable_kind (dtype_meaning dtype.now) ≡ true }
    requires pieces { ArePieces (dtype_meaning dtype.now) pieces.now len }
    ensures { Gives result (λ b. b ≡ map is_present (pieces_rows (dtype_meaning dtype.now) pieces.now)) }
{
    let mut bits = BitBufferMut::with_capacity(alloc, len)?;
    for piece in pieces {
        push_present(alloc, &mut bits, dtype, *piece)?;
    }
    ExactBits::of(alloc, bits)
}

// Which rows of a piece are not null, at the end of the bits.
pub(crate) fn push_present(
    alloc: Global,
    bits: &mut BitBufferMut,
    dtype: &DType,
    piece: Piece,
) -> Result<(), VortexError>
    requires nullable { is_nullable_kind (dtype_meaning dtype.now) ≡ true }
    requires piece { IsPiece (dtype_meaning dtype.now) piece }
    requires fits { length bits.old + piece_len piece < 2 ^ 64 }
    ensures { Gives result (λ _. bits.new ≡ bits.old ++ map is_present (piece_rows (dtype_meaning dtype.now) piece.entry)) }
{
    if let Some(present) = piece.presence() {
        return push_same(bits, present, piece.len());
    }
    let Piece::Rows(part) = piece else {
        return push_each_present(alloc, bits, dtype, piece);
    };
    let Part::Array(array, start, len) = part else {
        return push_each_present(alloc, bits, dtype, piece);
    };
    match stored_presence(array) {
        Some(valid) => push_range(bits, valid, start, len),
        None => push_each_present(alloc, bits, dtype, piece),
    }
}

// Which rows of a piece are not null, each looked at by itself.
fn push_each_present(
    alloc: Global,
    bits: &mut BitBufferMut,
    dtype: &DType,
    piece: Piece,
) -> Result<(), VortexError>
    requires nullable { is_nullable_kind (dtype_meaning dtype.now) ≡ true }
    requires piece { IsPiece (dtype_meaning dtype.now) piece }
    requires fits { length bits.old + piece_len piece < 2 ^ 64 }
    ensures { Gives result (λ _. bits.new ≡ bits.old ++ map is_present (piece_rows (dtype_meaning dtype.now) piece.entry)) }
{
    for i in 0..piece.len() {
        push_bit(bits, piece.is_present(alloc, i)?)?;
    }
    Ok(())
}

// One bit more.
fn push_bit(bits: &mut BitBufferMut, bit: bool) -> Result<(), VortexError>
    requires { length bits.old + 1 < 2 ^ 64 }
    ensures { Gives result (λ _. bits.new ≡ bits.old ++ bit ∷ []) }
{
    bits.append(bit)
}

// So many times the same bit.
pub(crate) fn push_same(bits: &mut BitBufferMut, bit: bool, count: usize) -> Result<(), VortexError>
    requires { length bits.old + count < 2 ^ 64 }
    ensures { Gives result (λ _. bits.new ≡ bits.old ++ replicate count bit) }
{
    bits.append_n(bit, count)
}

// So many bits of a buffer, from a place on.
fn push_range(
    bits: &mut BitBufferMut,
    source: &BitBuffer,
    start: usize,
    len: usize,
) -> Result<(), VortexError>
    requires within { start + len ≤ length source.now.bits }
    requires countable { start + len < 2 ^ 64 }
    requires fits { length bits.old + len < 2 ^ 64 }
    ensures { Gives result (λ _. bits.new ≡ bits.old
        ++ map (λ i. bool_at source.now.bits (start + i)) (range_with_len 0 len)) }
{
    bits.append_slice(source, start, start + len)
}
