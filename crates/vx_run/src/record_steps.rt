// Steps on records.

ghost use Rattle.std.specs.Prelude.{IfOk};
ghost use Rattle.vx_base.specs.Refusals.{Refuses};
ghost use Rattle.vx_run.specs.Steps.{IsStep, step_fault};

use crate::run_steps::{array_at, typed, typed_at};
use crate::steps::Step;
use std::alloc::Global;
use vx_base::{FieldName, VortexError};
use vx_structs::{StructArray, StructArrayExt};
use vx_tree::{ArrayRef, TypedArray};

// Records with the first field of each of these names.
pub(crate) fn projected(
    alloc: Global,
    arrays: &[ArrayRef],
    array: usize,
    names: &Vec<FieldName>,
) -> Result<ArrayRef, VortexError>
    ensures ok { IfOk result (IsStep (Step.Project array names.now) arrays.now) }
    ensures refuses { Refuses result (step_fault (Step.Project array names.now) arrays.now) }
{
    let records: StructArray = typed_at(alloc, arrays, array)?;
    Ok(records.project(alloc, names)?.into_array())
}

// Records with the rows of a column as one field more, the last.
pub(crate) fn with_column(
    alloc: Global,
    arrays: &[ArrayRef],
    array: usize,
    name: &FieldName,
    column: usize,
) -> Result<ArrayRef, VortexError>
    ensures ok { IfOk result (IsStep (Step.WithColumn array name.now column) arrays.now) }
    ensures refuses { Refuses result (step_fault (Step.WithColumn array name.now column) arrays.now) }
{
    let records = array_at(arrays, array)?;
    let column = array_at(arrays, column)?;
    let records: StructArray = typed(alloc, records)?;
    let column = column.try_clone(alloc)?;
    Ok(
        records
            .with_column(alloc, name.as_str(), column)?
            .into_array(),
    )
}

// Records without the first field of a name.
pub(crate) fn without_column(
    alloc: Global,
    arrays: &[ArrayRef],
    array: usize,
    name: &FieldName,
) -> Result<ArrayRef, VortexError>
    ensures ok { IfOk result (IsStep (Step.RemoveColumn array name.now) arrays.now) }
    ensures refuses { Refuses result (step_fault (Step.RemoveColumn array name.now) arrays.now) }
{
    let records: StructArray = typed_at(alloc, arrays, array)?;
    records.unmasked_field_by_name(name.as_str())?;
    match records.remove_column(alloc, name.as_str())? {
        Some((rest, _column)) => Ok(rest.into_array()),
        None => unreachable!(),
    }
}

// Records whose fields are null where the record is.
pub(crate) fn pushed(
    alloc: Global,
    arrays: &[ArrayRef],
    array: usize,
    remove: bool,
) -> Result<ArrayRef, VortexError>
    ensures ok { IfOk result (IsStep (Step.PushValidity array remove) arrays.now) }
    ensures refuses { Refuses result (step_fault (Step.PushValidity array remove) arrays.now) }
{
    let records: StructArray = typed_at(alloc, arrays, array)?;
    Ok(
        records
            .push_validity_into_children(alloc, remove)?
            .into_array(),
    )
}
