//! Columns that a reader makes of the bytes of a file.

ghost use Rattle.std.specs.Prelude.{◌≡◌, ◌==◌, map, length, true, false, if◌then◌else◌, None, Some, IfOk, IsOkUnless};
ghost use Rattle.vx_base.specs.Integers.{numbers};
ghost use Rattle.vx_base.specs.Kinds.{integers};
ghost use Rattle.vx_base.specs.Refusals.{Refuses, length_mismatch};
ghost use Rattle.vx_base.specs.Rows.{whole};
ghost use Rattle.vx_base.specs.declared.errors.VortexError.TheVariants.{Memory};
ghost use Rattle.vx_tree.specs.Meaning.{kind_of, rows};
ghost use Rattle.vx_tree.specs.Operations.{masked};
ghost use Rattle.vx_uses.specs.Uses.{TellsFault};

use std::alloc::Global;
use vx_base::{BitBuffer, Buffer, ByteBuffer, NativePType, VortexError, first_fault_is_least};
use vx_leaves::laws::rows_of_numbers;
use vx_leaves::{BoolArray, PrimitiveArray};
use vx_lists::ListViewArray;
use vx_tree::row_laws::{faultless_validities_fit, masks_stand_at_their_places};
use vx_tree::{ArrayRef, TypedArray, Validity};

/// A column of the numbers that these bytes hold, none of them null. Bytes beyond the last whole
/// number are left out, and nothing but want of memory refuses.
pub fn column_of_bytes<T: NativePType + Drop>(
    alloc: Global,
    bytes: &ByteBuffer,
) -> Result<ArrayRef, VortexError>
    ensures rows { IfOk result (λ a. rows a ≡ map whole (numbers T.PTYPE bytes.now)) }
    ensures kind { IfOk result (λ a. kind_of a ≡ integers T.PTYPE false) }
    ensures err { IsOkUnless result Memory }
{
    rows_of_numbers();
    let numbers = Buffer::<T>::from_byte_buffer(alloc, bytes)?;
    let column = PrimitiveArray::try_new(alloc, numbers, Validity::NonNullable)?;
    Ok(column.into_array())
}

/// A column of these numbers, null where the bit of the row is not set, as a file stores it: the
/// bits first, the least significant of each byte first. Refuses `LengthMismatch` where there is
/// not one bit a number.
pub fn nullable_column<T: NativePType + Drop>(
    alloc: Global,
    numbers: Buffer<T>,
    valid: BitBuffer,
) -> Result<ArrayRef, VortexError>
    ensures rows { IfOk result (λ a. rows a ≡ masked valid.bits (map whole (map T.value numbers))) }
    ensures kind { IfOk result (λ a. kind_of a ≡ integers T.PTYPE true) }
    ensures refuses { Refuses result
        (if length valid.bits == length numbers then None else Some length_mismatch) }
{
    rows_of_numbers();
    masks_stand_at_their_places();
    faultless_validities_fit();
    let valid = BoolArray::try_new(alloc, valid, Validity::NonNullable)?;
    let validity = Validity::Array(valid.into_array());
    let column = PrimitiveArray::try_new(alloc, numbers, validity)?;
    Ok(column.into_array())
}

/// What a reader tells of the parts of a column of lists.
#[derive(Drop)]
pub enum Lists {
    /// They make this column.
    Read(ListViewArray),
    /// The offset or the size of this row is negative, and no row before it is faulty.
    NegativeRow(usize),
    /// A list ends here, past the elements.
    EndsPast(usize),
    /// They are refused for another reason.
    Refused(VortexError),
}

/// Reads a column of lists that are never null, from parts that may say anything, and tells a
/// person which row is wrong.
pub fn read_lists(alloc: Global, elements: ArrayRef, offsets: ArrayRef, sizes: ArrayRef) -> Lists
    ensures { TellsFault elements offsets sizes result }
{
    first_fault_is_least();
    match ListViewArray::try_new(alloc, elements, offsets, sizes, Validity::NonNullable) {
        Ok(lists) => Lists::Read(lists),
        Err(refusal) => match refusal {
            VortexError::Negative { row } => Lists::NegativeRow(row),
            VortexError::OutOfBounds { index, .. } => Lists::EndsPast(index),
            _ => Lists::Refused(refusal),
        },
    }
}
