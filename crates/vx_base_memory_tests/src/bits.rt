// Bits and masks.

use std::alloc::Global;
use vx_base::{BitBuffer, BitBufferMut, ByteBuffer, Mask, VortexError};
use vx_memory_help::{End, judged};

// Bits and a mask of as many rows.
#[derive(Drop)]
struct Given {
    bits: BitBuffer,
    mask: Mask,
}

impl Given {
    fn new(alloc: Global) -> Result<Given, VortexError> {
        let bits = BitBuffer::from_bools(alloc, &[true, false, true])?;
        let mask = Mask::from_buffer(alloc, bits.try_clone(alloc)?)?;
        Ok(Given { bits, mask })
    }

    // Whether both are the same.
    fn is_same(&self, other: &Given) -> bool {
        self.bits == other.bits && self.mask == other.mask
    }
}

// Whether the first, the second and the last of three bits are these.
fn are_three(bits: &BitBuffer, first: bool, second: bool, last: bool) -> bool {
    bits.len() == 3 && bits.value(0) == first && bits.value(1) == second && bits.value(2) == last
}

// `BitBuffer::new_with_offset`, `BitBuffer::from_bools`, `BitBuffer::full`, `BitBuffer::new_set`
// and `BitBuffer::new_unset`.
fn made(alloc: Global) -> Result<bool, VortexError> {
    let bytes = ByteBuffer::copy_from(alloc, &[0b101000])?;
    let shifted = BitBuffer::new_with_offset(alloc, bytes, 3, 3)?;
    let listed = BitBuffer::from_bools(alloc, &[false, true, true])?;
    let full = BitBuffer::full(alloc, true, 3)?;
    let set = BitBuffer::new_set(alloc, 3)?;
    let unset = BitBuffer::new_unset(alloc, 3)?;
    Ok(
        are_three(&shifted, true, false, true)
            && are_three(&listed, false, true, true)
            && are_three(&full, true, true, true)
            && are_three(&set, true, true, true)
            && are_three(&unset, false, false, false),
    )
}

#[test]
fn bits_that_are_made(rt: HostRuntime) -> Result<(), End> {
    judged(made(rt.alloc()), true)
}

// `BitBuffer::slice`, `BitBuffer::try_clone`, `BitBuffer::and` and `BitBuffer::and_zero_padded`.
fn joined(alloc: Global, given: &Given) -> Result<bool, VortexError> {
    let bits = &given.bits;
    if bits.len() != 3 {
        return Ok(false);
    }
    let last = bits.slice(alloc, 1..3)?;
    let shared = bits.try_clone(alloc)?;
    let both = bits.and(alloc, bits)?;
    let padded = bits.and_zero_padded(alloc, bits)?;
    Ok(
        last.len() == 2
            && last.value(1)
            && !last.value(0)
            && shared == *bits
            && are_three(&both, true, false, true)
            && are_three(&padded, true, false, true),
    )
}

#[test]
fn bits_that_are_joined(rt: HostRuntime) -> Result<(), End> {
    let (given, copy) = (Given::new(rt.alloc())?, Given::new(rt.alloc())?);
    judged(joined(rt.alloc(), &given), given.is_same(&copy))
}

// `Mask::from_buffer`, `Mask::from_buffer_within`, `Mask::true_runs`, `Mask::true_positions`,
// `Mask::and` and `MaskValues::bit_buffer`.
fn masked(alloc: Global, given: &Given) -> Result<bool, VortexError> {
    let (bits, mask) = (&given.bits, &given.mask);
    let Some(values) = mask.values() else {
        return Ok(false);
    };
    if bits.len() != 3 || mask.len() != 3 {
        return Ok(false);
    }
    let again = Mask::from_buffer(alloc, values.bit_buffer(alloc)?)?;
    let within = Mask::from_buffer_within(alloc, bits, mask)?;
    let both = mask.and(alloc, mask)?;
    let runs = mask.true_runs(alloc)?;
    let positions = mask.true_positions(alloc)?;
    Ok(
        again == *mask
            && within == *mask
            && both == *mask
            && runs.as_slice() == [(0, 1), (2, 3)].as_slice()
            && positions.as_slice() == [0, 2].as_slice(),
    )
}

#[test]
fn masks(rt: HostRuntime) -> Result<(), End> {
    let (given, copy) = (Given::new(rt.alloc())?, Given::new(rt.alloc())?);
    judged(masked(rt.alloc(), &given), given.is_same(&copy))
}

// The rows true, false, and one that is true.
fn two_masks(alloc: Global) -> Result<[Mask; 2], VortexError> {
    let bits = BitBuffer::from_bools(alloc, &[true, false])?;
    Ok([Mask::from_buffer(alloc, bits)?, Mask::new_true(1)])
}

// Whether both are the same.
fn are_same_two(some: &[Mask], others: &[Mask]) -> bool {
    some.len() == 2 && others.len() == 2 && some[0] == others[0] && some[1] == others[1]
}

// `Mask::concat`.
fn one_after_another(alloc: Global, masks: &[Mask]) -> Result<bool, VortexError> {
    let all = Mask::concat(alloc, masks)?;
    Ok(all.len() == 3 && all.runs() == [(0, 1), (2, 3)].as_slice())
}

#[test]
fn masks_one_after_another(rt: HostRuntime) -> Result<(), End> {
    let (masks, copies) = (two_masks(rt.alloc())?, two_masks(rt.alloc())?);
    let answer = one_after_another(rt.alloc(), &masks);
    judged(answer, are_same_two(&masks, &copies))
}

// `BitBufferMut::with_capacity`, `BitBufferMut::new_unset`, and `BitBufferMut::freeze`.
fn written(alloc: Global) -> Result<bool, VortexError> {
    let empty = BitBufferMut::with_capacity(alloc, 9)?;
    let unset = BitBufferMut::new_unset(alloc, 3)?;
    let is_empty = empty.len() == 0;
    Ok(is_empty && are_three(&unset.freeze()?, false, false, false))
}

#[test]
fn bits_to_be_written(rt: HostRuntime) -> Result<(), End> {
    judged(written(rt.alloc()), true)
}

// Whether bits have this length where something was added, and else are none.
fn is_grown(answer: Result<(), VortexError>, bits: &BitBufferMut, len: usize) -> Result<(), End> {
    let wanted = if answer.is_ok() { len } else { 0 };
    judged(answer.map(|_| true), bits.len() == wanted)
}

// `BitBufferMut::append`.
#[test]
fn bits_that_grow(rt: HostRuntime) -> Result<(), End> {
    let mut bits = BitBufferMut::with_capacity(rt.alloc(), 0)?;
    let answer = bits.append(true);
    is_grown(answer, &bits, 1)
}

// `BitBufferMut::append_n`.
#[test]
fn bits_that_grow_by_many(rt: HostRuntime) -> Result<(), End> {
    let mut bits = BitBufferMut::with_capacity(rt.alloc(), 0)?;
    let answer = bits.append_n(true, 70);
    is_grown(answer, &bits, 70)
}

// `BitBufferMut::append_slice`.
fn appended(bits: &mut BitBufferMut, given: &Given) -> Result<bool, VortexError> {
    if given.bits.len() != 3 {
        return Ok(false);
    }
    bits.append_slice(&given.bits, 1, 3)?;
    Ok(bits.len() == 2)
}

#[test]
fn bits_that_grow_by_others(rt: HostRuntime) -> Result<(), End> {
    let (given, copy) = (Given::new(rt.alloc())?, Given::new(rt.alloc())?);
    let mut bits = BitBufferMut::with_capacity(rt.alloc(), 0)?;
    let answer = appended(&mut bits, &given);
    let is_kept = answer.is_ok() || bits.len() == 0;
    judged(answer, is_kept && given.is_same(&copy))
}
