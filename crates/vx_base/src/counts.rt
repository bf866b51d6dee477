// Positions and sizes, as bytes of an integer type.

ghost use Rattle.std.specs.Prelude.{◌≡◌, ◌≤ℤ◌, ◌*◌, pos, length, map, unsigned_abs, IfOk};
ghost use Rattle.vx_base.specs.Refusals.{Gives};
ghost use Rattle.std.specs.List.{All};
ghost use Rattle.vx_base.specs.Integers.{byte_width, number_of, numbers, Holds};

use crate::byte_buffer::ByteBuffer;
use crate::call_native;
use crate::errors::VortexError;
use crate::native::NativePType;
use crate::numbers::put_int;
use crate::ptypes::PType;
use std::alloc::Global;

/// The numbers that these bytes hold, as positions: bytes beyond the last whole number are left
/// out. Asks that none of the numbers is negative. Fails only for want of memory.
pub fn read_counts(alloc: Global, ptype: PType, bytes: &[u8]) -> Result<Vec<usize>, VortexError>
    requires { All (λ z. pos 0 ≤ℤ z) (numbers ptype bytes.now) }
    ensures { Gives result (λ counts. map pos counts.items ≡ numbers ptype bytes.now) }
{
    call_native!(ptype, read_native(alloc, bytes))
}

fn read_native<T: NativePType>(alloc: Global, bytes: &[u8]) -> Result<Vec<usize>, VortexError>
    requires { All (λ z. pos 0 ≤ℤ z) (numbers T.PTYPE bytes.now) }
    ensures { Gives result (λ counts. map pos counts.items ≡ numbers T.PTYPE bytes.now) }
{
    let width = T::PTYPE.byte_width();
    let places = bytes.chunks_exact(width);
    Ok(places.map(|place| count_of::<T>(place)).collect(alloc)?)
}

// The number of these bytes without its sign, which is the number itself where it is a position.
#[tactic(auto, using(crate::proofs::Positions::size_below))]
#[inline]
fn count_of<T: NativePType>(place: &[u8]) -> usize
    requires { length place.now ≡ byte_width T.PTYPE }
    ensures { result ≡ unsigned_abs (number_of T.PTYPE place.now) }
{
    T::get_le(place).as_i128().unsigned_abs() as usize
}

/// The bytes of these positions as numbers of a type, the least significant byte of each first.
/// Asks that the type has each of them. Fails only for want of memory.
pub fn write_counts(
    alloc: Global,
    ptype: PType,
    counts: &[usize],
) -> Result<ByteBuffer, VortexError>
    requires { All (λ n. Holds ptype (pos n)) counts.now }
    ensures ok { Gives result (λ b. numbers ptype b ≡ map pos counts.now) }
    ensures len { IfOk result (λ b. length b ≡ length counts.now * byte_width ptype) }
{
    call_native!(ptype, write_native(alloc, counts))
}

fn write_native<T: NativePType>(alloc: Global, counts: &[usize]) -> Result<ByteBuffer, VortexError>
    requires { All (λ n. Holds T.PTYPE (pos n)) counts.now }
    ensures ok { Gives result (λ b. numbers T.PTYPE b ≡ map pos counts.now) }
    ensures len { IfOk result (λ b. length b ≡ length counts.now * byte_width T.PTYPE) }
{
    let mut bytes = vec![in alloc; 0u8; counts.len() * T::PTYPE.byte_width()]?;
    put_counts::<T>(counts, &mut bytes);
    ByteBuffer::from_vec(alloc, bytes)
}

// Writes the bytes of these positions, one number after another.
fn put_counts<T: NativePType>(counts: &[usize], out: &mut [u8])
    requires holds { All (λ n. Holds T.PTYPE (pos n)) counts.now }
    requires room { length out.old ≡ length counts.now * byte_width T.PTYPE }
    ensures len { length out.new ≡ length out.old }
    ensures numbers { numbers T.PTYPE out.new ≡ map pos counts.now }
{
    let width = T::PTYPE.byte_width();
    for (i, count) in counts.iter().enumerate() {
        put_int(
            *count as i128,
            T::PTYPE,
            &mut out[i * width..i * width + width],
        );
    }
}
