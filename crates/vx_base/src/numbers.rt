// Numbers of a type that is known when the program runs, as bytes.

ghost use Rattle.std.specs.Prelude.{◌≡◌, ◌<◌, length};
ghost use Rattle.vx_base.specs.Integers.{byte_width, Holds, number_of, bytes_of, numbers, number_nth};

use crate::ptypes::PType;

/// The number that these bytes stand for, the least significant byte first. Asks for just the
/// bytes of one number.
#[inline]
pub fn int_of(bytes: &[u8], ptype: PType) -> i128
    requires { length bytes.now ≡ byte_width ptype }
    ensures value { result ≡ number_of ptype bytes.now }
    ensures holds { Holds ptype result }
{
    match ptype {
        PType::U8 => bytes[0] as i128,
        PType::U16 => u16::from_le_bytes([bytes[0], bytes[1]]) as i128,
        PType::U32 => u32::from_le_bytes([bytes[0], bytes[1], bytes[2], bytes[3]]) as i128,
        PType::U64 => u64::from_le_bytes([
            bytes[0], bytes[1], bytes[2], bytes[3], bytes[4], bytes[5], bytes[6], bytes[7],
        ]) as i128,
        PType::I8 => i8::from_le_bytes([bytes[0]]) as i128,
        PType::I16 => i16::from_le_bytes([bytes[0], bytes[1]]) as i128,
        PType::I32 => i32::from_le_bytes([bytes[0], bytes[1], bytes[2], bytes[3]]) as i128,
        PType::I64 => i64::from_le_bytes([
            bytes[0], bytes[1], bytes[2], bytes[3], bytes[4], bytes[5], bytes[6], bytes[7],
        ]) as i128,
    }
}

/// Writes the bytes of a number, the least significant byte first. Asks that the type has the
/// number, and for the room of just one number.
#[inline]
pub fn put_int(number: i128, ptype: PType, out: &mut [u8])
    requires room { length out.old ≡ byte_width ptype }
    requires holds { Holds ptype number }
    ensures { out.new ≡ bytes_of ptype number }
{
    match ptype {
        PType::U8 => out[0] = number as u8,
        PType::U16 => out.copy_from_slice(&(number as u16).to_le_bytes()),
        PType::U32 => out.copy_from_slice(&(number as u32).to_le_bytes()),
        PType::U64 => out.copy_from_slice(&(number as u64).to_le_bytes()),
        PType::I8 => out.copy_from_slice(&(number as i8).to_le_bytes()),
        PType::I16 => out.copy_from_slice(&(number as i16).to_le_bytes()),
        PType::I32 => out.copy_from_slice(&(number as i32).to_le_bytes()),
        PType::I64 => out.copy_from_slice(&(number as i64).to_le_bytes()),
    }
}

/// How many whole numbers of a type these bytes hold.
#[tactic(auto, using(crate::proofs::NumberLists::length_numbers))]
#[inline]
pub fn number_count(bytes: &[u8], ptype: PType) -> usize
    ensures { result ≡ length (numbers ptype bytes.now) }
{
    bytes.len() / ptype.byte_width()
}

/// The number at place `i`, counted from 0, where the bytes hold one number after another. Asks
/// that it is there.
#[tactic(auto, using(crate::proofs::NumberLists::number_room))]
#[inline]
pub fn int_at(bytes: &[u8], ptype: PType, i: usize) -> i128
    requires { i < length (numbers ptype bytes.now) }
    ensures value { result ≡ number_nth (numbers ptype bytes.now) i }
    ensures holds { Holds ptype result }
{
    let width = ptype.byte_width();
    let start = i * width;
    int_of(&bytes[start..start + width], ptype)
}
