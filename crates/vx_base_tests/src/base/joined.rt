// Bits that are set in both of two buffers, byte for byte. After the last one `and` keeps what the
// bytes of both have there, which is nothing past their end, and `and_zero_padded` keeps nothing.

ghost use Rattle.std.specs.Prelude.{◌≡◌, length};

use crate::base::plain::{Part, bit_at, has_bytes, noise, part_from, part_to, put_bit};
use std::alloc::Global;
use std::process::Abort;
use vx_base::VortexError;

// The bytes of `len` bits that are set in both: the first `count` are written one by one.
fn both_one_by_one(
    alloc: Global,
    left: &Part<'_>,
    right: &Part<'_>,
    len: usize,
    count: usize,
) -> Result<Vec<u8>, VortexError> {
    let mut out = vec![in alloc; 0u8; len.div_ceil(8)]?;
    for k in 0..count {
        let mine = bit_at(left.bytes, left.from.wrapping_add(k));
        put_bit(
            &mut out,
            k,
            mine && bit_at(right.bytes, right.from.wrapping_add(k)),
        );
    }
    Ok(out)
}

// Whether the bits that are set in both are those.
fn are_both(
    alloc: Global,
    left: &Part<'_>,
    right: &Part<'_>,
    len: usize,
) -> Result<bool, VortexError>
    requires left { length left.now.bits.bits ≡ len }
    requires right { length right.now.bits.bits ≡ len }
{
    let whole = len.div_ceil(8).saturating_mul(8);
    let kept = both_one_by_one(alloc, left, right, len, whole)?;
    let cleared = both_one_by_one(alloc, left, right, len, len)?;
    let both = left.bits.and(alloc, &right.bits)?;
    let padded = left.bits.and_zero_padded(alloc, &right.bits)?;
    Ok(has_bytes(both, len, &kept) && has_bytes(padded, len, &cleared))
}

// Stops unless it is so of the bits of some bytes from `from` on and of those of others up to the
// last but `left`, for each number of them up to 137.
fn expect_both(
    rt: &impl Abort,
    alloc: Global,
    bytes: (&[u8], &[u8]),
    from: usize,
    left: usize,
) -> Result<(), VortexError> {
    for len in 0..138 {
        let first = part_from(alloc, bytes.0, from, len)?;
        let last = part_to(alloc, bytes.1, len, left)?;
        assert!(rt;
            are_both(alloc, &first, &last, len)?,
            "{len} from {from}, {left} left"
        );
        assert!(rt;
            are_both(alloc, &last, &first, len)?,
            "{len}, {left} left, from {from}"
        );
    }
    Ok(())
}

// Stops unless it is so from each bit of a byte on, and up to each bit of one.
fn expect_both_at_each_bit(
    rt: &impl Abort,
    alloc: Global,
    bytes: (&[u8], &[u8]),
) -> Result<(), VortexError> {
    for case in 0..64 {
        expect_both(rt, alloc, bytes, case % 8, case / 8)?;
    }
    Ok(())
}

#[test]
fn bits_set_in_both(rt: HostRuntime) -> Result<(), VortexError> {
    let bytes = noise(rt.alloc(), 40)?;
    // without a pattern, all clear, and all set
    let sides: [&[u8]; 3] = [&bytes, &[0; 40], &[0xff; 40]];
    for case in 0..9 {
        expect_both_at_each_bit(&rt, rt.alloc(), (sides[case / 3], sides[case % 3]))?;
    }
    Ok(())
}
