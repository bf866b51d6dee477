// Numbers that are packed, as bytes of their type.

ghost use Rattle.std.specs.Prelude.{◌≡◌, ◌++◌, ◌<◌, Bool, map, pos};
ghost use Rattle.vx_base.specs.Integers.{Holds, byte_width, bytes_of};
ghost use Rattle.vx_base.specs.Kinds.{integers};
ghost use Rattle.vx_base.specs.Refusals.{Gives};
ghost use Rattle.vx_pack.specs.Packed.{bytes_of_numbers, number_or_zero};
ghost use Rattle.vx_pack.specs.Pieces.{ArePieces, IsPiece, piece_rows, pieces_rows};
ghost use Rattle.vx_pack.specs.StoredNumbers.{HasBits, all_stored_bytes, stored_bytes, stored_count};

use crate::pieces::Piece;
use crate::stored_numbers::StoredNumbers;
use std::alloc::Global;
use vx_base::{ByteBuffer, PType, VortexError, put_int};

// How many bytes a number takes at most.
const WIDEST: usize = 8;

// The bytes of the numbers of rows, 0 where they are null.
pub(crate) fn number_bytes(
    alloc: Global,
    ptype: PType,
    pieces: &[Piece],
    len: usize,
) -> Result<ByteBuffer, VortexError>
    requires { (n : Bool) × ArePieces (integers ptype n) pieces.now len }
    ensures { Gives result (λ b. (n : Bool) → ArePieces (integers ptype n) pieces.now len →
        b ≡ bytes_of_numbers ptype (map number_or_zero (pieces_rows (integers ptype n) pieces.now))) }
{
    let mut bytes = Vec::with_capacity(alloc, len.saturating_mul(ptype.byte_width()))?;
    for piece in pieces {
        push_numbers(&mut bytes, ptype, *piece)?;
    }
    ByteBuffer::from_vec(alloc, bytes)
}

// Those of a piece, at the end of the bytes: as they stand, where they stand so, and 0 for those of
// them that bits tell to be null.
pub(crate) fn push_numbers(
    bytes: &mut Vec<u8>,
    ptype: PType,
    piece: Piece,
) -> Result<(), VortexError>
    requires { (n : Bool) × IsPiece (integers ptype n) piece }
    ensures { Gives result (λ _. (n : Bool) → IsPiece (integers ptype n) piece.entry → bytes.new.items
        ≡ bytes.old.items ++ bytes_of_numbers ptype (map number_or_zero (piece_rows (integers ptype n) piece.entry))) }
{
    if let Some(stored) = piece.number_bytes(ptype) {
        bytes.extend_from_slice(stored)?;
        return Ok(());
    }
    match piece.stored_numbers(ptype) {
        Some(stored) => push_stored(bytes, ptype, stored),
        None => push_each_number(bytes, ptype, piece),
    }
}

// The bytes of stored numbers, by the width of their type.
fn push_stored(bytes: &mut Vec<u8>, ptype: PType, stored: StoredNumbers) -> Result<(), VortexError>
    requires { HasBits (byte_width ptype) stored }
    ensures { Gives result (λ _. bytes.new.items ≡ bytes.old.items ++ all_stored_bytes (byte_width ptype) stored.entry) }
{
    match ptype {
        PType::U8 | PType::I8 => push_present::<1>(bytes, stored),
        PType::U16 | PType::I16 => push_present::<2>(bytes, stored),
        PType::U32 | PType::I32 => push_present::<4>(bytes, stored),
        PType::U64 | PType::I64 => push_present::<8>(bytes, stored),
    }
}

// The bytes of stored numbers of so many bytes each, zeroes for those that are null.
fn push_present<const WIDTH: usize>(
    bytes: &mut Vec<u8>,
    stored: StoredNumbers,
) -> Result<(), VortexError>
    requires some { 0 < WIDTH }
    requires bits { HasBits WIDTH stored }
    ensures { Gives result (λ _. bytes.new.items ≡ bytes.old.items ++ all_stored_bytes WIDTH stored.entry) }
{
    for i in 0..stored.bytes.len() / WIDTH {
        push_stored_number::<WIDTH>(bytes, stored, i)?;
    }
    Ok(())
}

// The bytes of one of them more.
#[inline(always)]
fn push_stored_number<const WIDTH: usize>(
    bytes: &mut Vec<u8>,
    stored: StoredNumbers,
    i: usize,
) -> Result<(), VortexError>
    requires some { 0 < WIDTH }
    requires bits { HasBits WIDTH stored }
    requires in_bounds { i < stored_count WIDTH stored }
    ensures { Gives result (λ _. bytes.new.items ≡ bytes.old.items ++ stored_bytes WIDTH stored.entry i) }
{
    if !stored.valid.value(stored.start + i) {
        bytes.extend_from_slice(&[0; WIDTH])?;
        return Ok(());
    }
    let at = i * WIDTH;
    bytes.extend_from_slice(&stored.bytes[at..at + WIDTH])?;
    Ok(())
}

// The bytes of the numbers of a piece, each read by itself.
fn push_each_number(bytes: &mut Vec<u8>, ptype: PType, piece: Piece) -> Result<(), VortexError>
    requires { (n : Bool) × IsPiece (integers ptype n) piece }
    ensures { Gives result (λ _. (n : Bool) → IsPiece (integers ptype n) piece.entry → bytes.new.items
        ≡ bytes.old.items ++ bytes_of_numbers ptype (map number_or_zero (piece_rows (integers ptype n) piece.entry))) }
{
    for i in 0..piece.len() {
        push_number(bytes, ptype, piece.number_or_zero(ptype, i))?;
    }
    Ok(())
}

// The bytes of one number more.
pub(crate) fn push_number(
    bytes: &mut Vec<u8>,
    ptype: PType,
    number: i128,
) -> Result<(), VortexError>
    requires { Holds ptype number }
    ensures { Gives result (λ _. bytes.new.items ≡ bytes.old.items ++ bytes_of ptype number) }
{
    let mut room = [0; WIDEST];
    let out = &mut room[..ptype.byte_width()];
    put_int(number, ptype, out);
    bytes.extend_from_slice(out)?;
    Ok(())
}

// The bytes of one count more: two types have the counts of lists, and are written as they are.
#[inline(always)]
pub(crate) fn push_count(bytes: &mut Vec<u8>, ptype: PType, count: usize) -> Result<(), VortexError>
    requires { Holds ptype (pos count) }
    ensures { Gives result (λ _. bytes.new.items ≡ bytes.old.items ++ bytes_of ptype (pos count)) }
{
    match ptype {
        PType::I32 => bytes.extend_from_slice(&(count as u32).to_le_bytes())?,
        PType::I64 => bytes.extend_from_slice(&(count as u64).to_le_bytes())?,
        _ => push_number(bytes, ptype, count as i128)?,
    }
    Ok(())
}
