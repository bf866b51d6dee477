// Numbers as positions, of which some are null.

ghost use Rattle.std.specs.Prelude.{◌≡◌, ◌<◌, ◌*◌, length, map, unsigned_abs, IfOk};
ghost use Rattle.std.specs.List.{range_with_len};
ghost use Rattle.vx_base.specs.Integers.{byte_width, numbers, Holds};
ghost use Rattle.vx_base.specs.Refusals.{Gives, Refuses, Tests};
ghost use Rattle.vx_tree.specs.Tree.{primitive, non_nullable};
ghost use Rattle.vx_tree.specs.Formed.{WellFormed};
ghost use Rattle.vx_tree.specs.Parts.{valid_of};
ghost use Rattle.vx_tree.specs.Faults.{indices_fault, index_fault};
ghost use Rattle.vx_tree.specs.Meaning.{row_at};
ghost use Rattle.vx_tree.specs.Named.{AreIndices, number_under};
ghost use Rattle.vx_tree.specs.Operations.{masked_numbers};

use crate::array::Validity;
use crate::indices::checks::{are_all_positions, check_numbers};
use crate::indices::{Indices, number_position};
use std::alloc::Global;
use vx_base::{
    BitBuffer, NativePType, PType, VortexError, call_native, int_at, number_count, put_int,
};

// The positions below `len` that the numbers of an array name, read where they lie.
#[tactic(auto, using(crate::proofs::Named::in_place))]
pub(crate) fn number_indices<'a>(
    alloc: Global,
    ptype: PType,
    bytes: &'a [u8],
    validity: &Validity,
    len: usize,
) -> Result<Indices<'a>, VortexError>
    requires { WellFormed (primitive ptype bytes.now (valid_of validity.now)) }
    ensures ok { IfOk result (λ ps. AreIndices (primitive ptype bytes.now (valid_of validity.now)) len ps) }
    ensures refuses { Refuses result (indices_fault len (primitive ptype bytes.now (valid_of validity.now))) }
{
    match validity {
        Validity::NonNullable => plain_indices(ptype, bytes, len),
        Validity::AllValid => plain_indices(ptype, bytes, len),
        Validity::AllInvalid => Ok(Indices::repeated(0, number_count(bytes, ptype))),
        Validity::Array(array) => {
            let valid = array.plain_bits(alloc)?;
            let indices = masked_indices(alloc, ptype, bytes, &valid, len);
            drop(valid);
            indices
        }
    }
}

// The positions below `len` that numbers without nulls name, read where they lie.
fn plain_indices(ptype: PType, bytes: &[u8], len: usize) -> Result<Indices<'_>, VortexError>
    ensures ok { IfOk result (λ ps. ps ≡ map unsigned_abs (numbers ptype bytes.now)) }
    ensures tests { Tests result (indices_fault len (primitive ptype bytes.now non_nullable)) }
{
    check_numbers(ptype, bytes, len)?;
    Ok(Indices::of_numbers(ptype, bytes))
}

// The positions below `len` that numbers name of which bits tell the valid ones: the numbers where
// they lie, where those of the null rows are positions too, else the valid ones with 0 for each
// other.
#[tactic(auto, using(crate::proofs::Named::under_bits))]
fn masked_indices<'a>(
    alloc: Global,
    ptype: PType,
    bytes: &'a [u8],
    valid: &BitBuffer,
    len: usize,
) -> Result<Indices<'a>, VortexError>
    requires bits { length valid.now.bits ≡ length (numbers ptype bytes.now) }
    requires whole { length bytes.now ≡ length (numbers ptype bytes.now) * byte_width ptype }
    ensures ok { IfOk result (λ ps. AreIndices (masked_numbers ptype bytes.now valid.now.bits) len ps) }
    ensures refuses { Refuses result (indices_fault len (masked_numbers ptype bytes.now valid.now.bits)) }
{
    if are_all_positions(ptype, bytes, len) {
        return Ok(Indices::of_numbers(ptype, bytes));
    }
    check_valid(ptype, bytes, valid, len)?;
    let own = valid_numbers(alloc, ptype, bytes, valid)?;
    Ok(Indices::of_own_numbers(ptype, own))
}

// Whether each number whose bit is set is a position below `len`: refuses the first that is not.
fn check_valid(ptype: PType, bytes: &[u8], valid: &BitBuffer, len: usize) -> Result<(), VortexError>
    requires { length valid.now.bits ≡ length (numbers ptype bytes.now) }
    ensures { Tests result (indices_fault len (masked_numbers ptype bytes.now valid.now.bits)) }
{
    call_native!(ptype, check_each_valid(bytes, valid, len))
}

// Whether each number of one type whose bit is set is a position below `len`.
fn check_each_valid<T: NativePType>(
    bytes: &[u8],
    valid: &BitBuffer,
    len: usize,
) -> Result<(), VortexError>
    requires { length valid.now.bits ≡ length (numbers T.PTYPE bytes.now) }
    ensures { Tests result (indices_fault len (masked_numbers T.PTYPE bytes.now valid.now.bits)) }
{
    for row in 0..valid.len() {
        check_row(bytes, T::PTYPE, valid, row, len)?;
    }
    Ok(())
}

// Whether the number of a row is a position below `len`, where its bit is set.
#[inline]
fn check_row(
    bytes: &[u8],
    ptype: PType,
    valid: &BitBuffer,
    row: usize,
    len: usize,
) -> Result<(), VortexError>
    requires bits { length valid.now.bits ≡ length (numbers ptype bytes.now) }
    requires in_bounds { row < length valid.now.bits }
    ensures { Tests result (index_fault len row (row_at (masked_numbers ptype bytes.now valid.now.bits) row)) }
{
    if valid.value(row) {
        number_position(bytes, ptype, row, len)?;
    }
    Ok(())
}

// The numbers whose bit is set, in bytes of their own, with 0 for each other.
fn valid_numbers(
    alloc: Global,
    ptype: PType,
    bytes: &[u8],
    valid: &BitBuffer,
) -> Result<Vec<u8>, VortexError>
    requires bits { length valid.now.bits ≡ length (numbers ptype bytes.now) }
    requires whole { length bytes.now ≡ length (numbers ptype bytes.now) * byte_width ptype }
    ensures { Gives result (λ own. numbers ptype own.items
        ≡ map (number_under (numbers ptype bytes.now) valid.now.bits) (range_with_len 0 (length valid.now.bits))) }
{
    let mut own = vec![in alloc; 0u8; bytes.len()]?;
    put_numbers(ptype, bytes, valid, &mut own);
    Ok(own)
}

// Writes the numbers whose bit is set, over bytes of their own, with 0 for each other.
fn put_numbers(ptype: PType, bytes: &[u8], valid: &BitBuffer, out: &mut [u8])
    requires bits { length valid.now.bits ≡ length (numbers ptype bytes.now) }
    requires room { length out.old ≡ length (numbers ptype bytes.now) * byte_width ptype }
    ensures { numbers ptype out.new
        ≡ map (number_under (numbers ptype bytes.now) valid.now.bits) (range_with_len 0 (length valid.now.bits)) }
{
    call_native!(ptype, put_valid_numbers(bytes, valid, out))
}

// Writes the numbers of one type whose bit is set, over bytes of their own, with 0 for each other.
fn put_valid_numbers<T: NativePType>(bytes: &[u8], valid: &BitBuffer, out: &mut [u8])
    requires bits { length valid.now.bits ≡ length (numbers T.PTYPE bytes.now) }
    requires room { length out.old ≡ length (numbers T.PTYPE bytes.now) * byte_width T.PTYPE }
    ensures { numbers T.PTYPE out.new
        ≡ map (number_under (numbers T.PTYPE bytes.now) valid.now.bits) (range_with_len 0 (length valid.now.bits)) }
{
    let width = T::PTYPE.byte_width();
    for row in 0..valid.len() {
        let number = valid_number(bytes, T::PTYPE, valid, row);
        put_int(number, T::PTYPE, &mut out[row * width..row * width + width]);
    }
}

// The number of a row, 0 where its bit is not set.
#[inline]
fn valid_number(bytes: &[u8], ptype: PType, valid: &BitBuffer, row: usize) -> i128
    requires bits { length valid.now.bits ≡ length (numbers ptype bytes.now) }
    requires in_bounds { row < length valid.now.bits }
    ensures value { result ≡ number_under (numbers ptype bytes.now) valid.now.bits row }
    ensures holds { Holds ptype result }
{
    if valid.value(row) {
        int_at(bytes, ptype, row)
    } else {
        0
    }
}
