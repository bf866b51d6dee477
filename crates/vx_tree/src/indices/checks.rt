// Numbers as positions, each of them tested and none of them written.

ghost use Rattle.std.specs.Prelude.{◌≡◌, ℕ, None, IsTrue};
ghost use Rattle.vx_base.specs.Refusals.{Tests};
ghost use Rattle.vx_base.specs.Rows.{whole};
ghost use Rattle.vx_tree.specs.Tree.{primitive, non_nullable};
ghost use Rattle.vx_tree.specs.Faults.{index_fault, indices_fault};

use crate::indices::number_position;
use vx_base::{NativePType, PType, VortexError, call_native, int_at, number_count};

// Whether each number is a position below `len`: refuses the first that is not.
pub(crate) fn check_numbers(ptype: PType, bytes: &[u8], len: usize) -> Result<(), VortexError>
    ensures { Tests result (indices_fault len (primitive ptype bytes.now non_nullable)) }
{
    call_native!(ptype, check_typed(bytes, len))
}

// Whether each number is a position below `len`.
pub(crate) fn are_all_positions(ptype: PType, bytes: &[u8], len: usize) -> bool
    ensures { IsTrue result → indices_fault len (primitive ptype bytes.now non_nullable) ≡ None }
{
    call_native!(ptype, are_positions(bytes, len))
}

// Whether each number of one type is a position below `len`. The first that is not is looked for
// where there is one.
fn check_typed<T: NativePType>(bytes: &[u8], len: usize) -> Result<(), VortexError>
    ensures { Tests result (indices_fault len (primitive T.PTYPE bytes.now non_nullable)) }
{
    if are_positions::<T>(bytes, len) {
        return Ok(());
    }
    check_each::<T>(bytes, len)
}

// Whether each number is a position below `len`: no number ends the loop.
#[inline(never)]
fn are_positions<T: NativePType>(bytes: &[u8], len: usize) -> bool
    ensures { IsTrue result → indices_fault len (primitive T.PTYPE bytes.now non_nullable) ≡ None }
{
    let mut are_all = true;
    for row in 0..number_count(bytes, T::PTYPE) {
        if !is_position(int_at(bytes, T::PTYPE, row), len) {
            are_all = false;
        }
    }
    are_all
}

// Whether a number is a position below `len`, and so no fault of any row.
#[inline]
fn is_position(number: i128, len: usize) -> bool
    ensures { (row : ℕ) → IsTrue result → index_fault len row (whole number) ≡ None }
{
    0 <= number && number < len as i128
}

// Tests one number after another.
fn check_each<T: NativePType>(bytes: &[u8], len: usize) -> Result<(), VortexError>
    ensures { Tests result (indices_fault len (primitive T.PTYPE bytes.now non_nullable)) }
{
    for row in 0..number_count(bytes, T::PTYPE) {
        number_position(bytes, T::PTYPE, row, len)?;
    }
    Ok(())
}
