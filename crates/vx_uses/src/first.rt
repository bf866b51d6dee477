//! The example of the first page: three lists over shared elements, rebuilt and read.

ghost use Rattle.std.specs.Prelude.{◌≡◌, pos, Some, map, IfOk, IsOkUnless};
ghost use Rattle.vx_base.specs.declared.errors.VortexError.TheVariants.{Memory};
ghost use Rattle.vx_tree.specs.Tree.{non_nullable};
ghost use Rattle.vx_leaves.specs.Leaves.{IsPrimitive};

use std::alloc::Global;
use vx_base::{Buffer, NativePType, VortexError};
use vx_leaves::PrimitiveArray;
use vx_lists::laws::counts_stand_at_their_places;
use vx_lists::{ListViewArray, ListViewArrayExt, ListViewRebuildMode};
use vx_tree::row_laws::rows_stand_at_their_places;
use vx_tree::{ArrayRef, TypedArray, Validity};

/// A column of these numbers, none of them null.
pub fn column<T: NativePType + Drop>(alloc: Global, items: &[T]) -> Result<ArrayRef, VortexError>
    ensures numbers { IfOk result (IsPrimitive T.PTYPE (map T.value items.now) non_nullable) }
    ensures err { IsOkUnless result Memory }
{
    let numbers = Buffer::copy_from(alloc, items)?;
    let column = PrimitiveArray::try_new(alloc, numbers, Validity::NonNullable)?;
    Ok(column.into_array())
}

/// Builds the lists `[3, 4]`, `[1]`, `[2, 3]`, lays them end to end, and tells where the third one
/// now starts and what its first number is: 3 and 2, want of memory aside.
pub fn third_list(alloc: Global) -> Result<(usize, Option<i128>), VortexError>
    ensures read { IfOk result (λ r. (r.0 ≡ 3) × (r.1 ≡ Some (pos 2))) }
    ensures err { IsOkUnless result Memory }
{
    counts_stand_at_their_places();
    rows_stand_at_their_places();
    let elements = column::<i32>(alloc, &[1, 2, 3, 4])?;
    let offsets = column::<u32>(alloc, &[2, 0, 1])?;
    let sizes = column::<u32>(alloc, &[2, 1, 2])?;
    let lists = ListViewArray::try_new(alloc, elements, offsets, sizes, Validity::NonNullable)?;
    let rebuilt = lists.rebuild(alloc, ListViewRebuildMode::MakeZeroCopyToList)?;
    let third = rebuilt.list_elements_at(alloc, 2)?;
    Ok((rebuilt.offset_at(2), third.int_at(0)))
}
