// Validity arrays that are joined, row by row or one after another, byte for byte: the bits are those
// that a mask of the rows turns into, also after the last row.

ghost use Rattle.std.specs.Prelude.{◌≡◌, length, IfOk};
ghost use Rattle.vx_tree.specs.Formed.{IsLenOf};
ghost use Rattle.vx_tree.specs.Parts.{valid_of};

use std::alloc::Global;
use std::process::Abort;
use vx_base::{BitBuffer, BitBufferMut, Mask, VortexError};
use vx_tree::{IntoArray, Layout, Validity};

// 320 bits without a pattern, then 160 that are set, and 160 that are not.
fn noise(alloc: Global) -> Result<BitBuffer, VortexError> {
    let mut bits = BitBufferMut::with_capacity(alloc, 640)?;
    let mut state = 1u32;
    for _ in 0..320 {
        state = state.wrapping_mul(1664525).wrapping_add(1013904223);
        bits.append(state >> 31 == 1)?;
    }
    bits.append_n(true, 160)?;
    bits.append_n(false, 160)?;
    bits.freeze()
}

// So many of these bits, from `start` on.
fn part_of(
    alloc: Global,
    bits: &BitBuffer,
    start: usize,
    len: usize,
) -> Result<BitBuffer, VortexError>
    ensures { IfOk result (λ part. length part.bits ≡ len) }
{
    let all = bits.len();
    if all < start || all - start < len {
        return Err(VortexError::Overflow);
    }
    bits.slice(alloc, start..start + len)
}

// The bits of a mask.
fn bits_of_mask(alloc: Global, mask: &Mask) -> Result<BitBuffer, VortexError> {
    if mask.all_true() {
        return BitBuffer::new_set(alloc, mask.len());
    }
    if mask.all_false() {
        return BitBuffer::new_unset(alloc, mask.len());
    }
    match mask.values() {
        Some(values) => values.bit_buffer(alloc),
        None => unreachable!(),
    }
}

// The bits that are set in both, by masks of them.
fn by_masks(alloc: Global, first: &BitBuffer, second: &BitBuffer) -> Result<BitBuffer, VortexError>
    requires { length first.now.bits ≡ length second.now.bits }
{
    let mine = Mask::from_buffer(alloc, first.try_clone(alloc)?)?;
    let theirs = Mask::from_buffer(alloc, second.try_clone(alloc)?)?;
    bits_of_mask(alloc, &mine.and(alloc, &theirs)?)
}

// Whether the two have the same bytes.
fn same_bytes(joined: BitBuffer, wanted: BitBuffer) -> bool {
    let (offset, len, bytes) = joined.into_inner();
    let (other_offset, other_len, other) = wanted.into_inner();
    offset == other_offset && len == other_len && bytes.as_slice() == other.as_slice()
}

// Valid where the bits are set.
fn valid(alloc: Global, bits: &BitBuffer) -> Result<Validity, VortexError>
    ensures { IfOk result (λ v. IsLenOf (valid_of v) (length bits.now.bits)) }
{
    Ok(Validity::Array(bits.try_clone(alloc)?.into_array(alloc)?))
}

// Whether the rows that are valid in both have the bits that masks of them have.
fn are_by_masks(alloc: Global, first: &BitBuffer, second: &BitBuffer) -> Result<bool, VortexError>
    requires { length first.now.bits ≡ length second.now.bits }
{
    let both = valid(alloc, first)?.and(alloc, valid(alloc, second)?)?;
    let Validity::Array(array) = &both else {
        return Ok(false);
    };
    let Layout::Bool { bits, .. } = array.layout() else {
        return Ok(false);
    };
    Ok(same_bytes(bits.try_clone(alloc)?, by_masks(alloc, first, second)?))
}

// Stops unless it is so of bits from these places on, for each number of rows up to 130.
fn expect_by_masks(
    rt: &impl Abort,
    alloc: Global,
    bits: &BitBuffer,
    places: (usize, usize),
) -> Result<(), VortexError> {
    let (first, second) = places;
    for len in 0..131 {
        let mine = part_of(alloc, bits, first, len)?;
        let theirs = part_of(alloc, bits, second, len)?;
        assert!(rt;
            are_by_masks(alloc, &mine, &theirs)?,
            "{len} rows from {first} and {second}"
        );
    }
    Ok(())
}

// Where two arrays begin: both without a pattern, the second one alike throughout, and both.
const PLACES: [(usize, usize); 7] = [
    (0, 160),
    (0, 320),
    (0, 480),
    (320, 320),
    (320, 480),
    (480, 320),
    (480, 480),
];

#[test]
fn bits_of_rows_valid_in_both(rt: HostRuntime) {
    let bits = noise(rt.alloc()).expect(&rt, "made");
    for case in 0..448 {
        let (first, second) = PLACES[case / 64];
        let places = (first + case % 8, second + case / 8 % 8);
        expect_by_masks(&rt, rt.alloc(), &bits, places).expect(&rt, "joined");
    }
}

// ---- one after another

// How many valid rows stand before two validities: so that they begin within a byte, and so that all
// rows are some 32,768, up to which bits are appended.
const BEFORE: [usize; 6] = [0, 3, 32_700, 32_704, 32_760, 32_768];

// The bits of so many valid rows and two parts after them, by masks of them.
fn after_by_masks(
    alloc: Global,
    before: usize,
    first: &BitBuffer,
    second: &BitBuffer,
) -> Result<BitBuffer, VortexError> {
    let mine = Mask::from_buffer(alloc, first.try_clone(alloc)?)?;
    let theirs = Mask::from_buffer(alloc, second.try_clone(alloc)?)?;
    let masks = vec![in alloc; Mask::new_true(before), mine, theirs]?;
    bits_of_mask(alloc, &Mask::concat(alloc, &masks)?)
}

// Whether so many valid rows and two parts after them have the bits that masks of them have.
fn are_after_by_masks(
    alloc: Global,
    before: usize,
    first: &BitBuffer,
    second: &BitBuffer,
) -> Result<bool, VortexError> {
    let parts = vec![in alloc;
        (Validity::AllValid, before),
        (valid(alloc, first)?, first.len()),
        (valid(alloc, second)?, second.len()),
    ]?;
    let Some(joined) = Validity::concat(alloc, parts)? else {
        return Ok(false);
    };
    let Some(array) = joined.as_array() else {
        return Ok(false);
    };
    let Layout::Bool { bits, .. } = array.layout() else {
        return Ok(false);
    };
    let wanted = after_by_masks(alloc, before, first, second)?;
    Ok(same_bytes(bits.try_clone(alloc)?, wanted))
}

// Stops unless it is so of bits from these places on, for each number of rows up to 130 of the first.
fn expect_after_by_masks(
    rt: &impl Abort,
    alloc: Global,
    bits: &BitBuffer,
    before: usize,
    places: (usize, usize),
) -> Result<(), VortexError> {
    let (first, second) = places;
    for len in 0..131 {
        let mine = part_of(alloc, bits, first, len)?;
        let theirs = part_of(alloc, bits, second, len * 7 % 131)?;
        assert!(rt;
            are_after_by_masks(alloc, before, &mine, &theirs)?,
            "{len} rows from {first}, {second} after {before}"
        );
    }
    Ok(())
}

#[test]
fn bits_of_rows_one_after_another(rt: HostRuntime) {
    let bits = noise(rt.alloc()).expect(&rt, "made");
    for case in 0..42 {
        let (first, second) = PLACES[case % 7];
        let places = (first + case % 5, second + case % 3);
        expect_after_by_masks(&rt, rt.alloc(), &bits, BEFORE[case / 7], places).expect(
            &rt, "joined",
        );
    }
}
