//! Laws of equal rows and of the packed form: functions that hold whatever they are given.

ghost use Rattle.std.specs.Prelude.{IsTrue};
ghost use Rattle.vx_pack.specs.PackedLaws.{PackedIsHeld, PackedIsOne, PackedKeepsRows, PackedOnce, PackedTellsRows};

use crate::rows_equal::RowsEqual;
use vx_tree::ArrayRef;

/// Every array equals itself.
pub fn arrays_equal_themselves(array: &ArrayRef) -> bool
    ensures { IsTrue result }
{
    array.rows_equal(array)
}

/// Of two arrays it is all the same which is asked.
pub fn equal_rows_are_equal_from_both_sides(a: &ArrayRef, b: &ArrayRef) -> bool
    ensures { IsTrue result }
{
    a.rows_equal(b) == b.rows_equal(a)
}

/// What equals one of two equal arrays equals the other.
pub fn equal_rows_are_equal_in_turn(a: &ArrayRef, b: &ArrayRef, c: &ArrayRef) -> bool
    ensures { IsTrue result }
{
    !a.rows_equal(b) || b.rows_equal(c) == a.rows_equal(c)
}

/// Rows of a data type have one packed form.
pub fn rows_pack_to_one_tree()
    ensures { PackedIsOne }
{}

/// What rows are packed to is of their data type, and its rows are these.
pub fn packing_keeps_rows()
    ensures { PackedKeepsRows }
{}

/// Two packed forms have the same parts exactly where the data types and the rows are the same.
pub fn packed_parts_tell_rows()
    ensures { PackedTellsRows }
{}

/// What is packed again is as it was.
pub fn packing_twice_is_packing_once()
    ensures { PackedOnce }
{}

/// Rows that have a packed form are not refused as too large.
pub fn what_is_packed_is_held()
    ensures { PackedIsHeld }
{}
