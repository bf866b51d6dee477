// One step of a run on columns.

ghost use Rattle.std.specs.Prelude.{◌≡◌, IfOk, IfErr, length};
ghost use Rattle.vx_base.specs.Refusals.{Refuses, Tests};
ghost use Rattle.vx_run.specs.Steps.{array_at, records_fault};
ghost use Rattle.vx_tree.specs.Faults.{position_fault};
ghost use Rattle.vx_c.specs.ColumnSteps.{IsColumnStep, IsStepRefused};

use std::alloc::Global;
use vx_base::{FieldName, VortexError};
use vx_pack::Pack;
use vx_run::Step;
use vx_structs::StructArray;
use vx_tree::{ArrayRef, TypedArray};

// What C can ask of the arrays: the steps of `vx_run`, and two more.
#[derive(Drop)]
pub(crate) enum ColumnStep {
    // One of these.
    Of(Step),
    // The packed form of the rows.
    Pack { array: usize },
    // The column of this name, null also where the record is. The array has the struct layout.
    Field { array: usize, name: FieldName },
}

impl ColumnStep {
    // What the step makes of the arrays.
    pub(crate) fn apply(&self, alloc: Global, arrays: &[ArrayRef]) -> Result<ArrayRef, VortexError>
        ensures ok { IfOk result (IsColumnStep self.now arrays.now) }
        ensures err { IfErr result (IsStepRefused self.now arrays.now) }
    {
        match self {
            ColumnStep::Of(step) => step.apply(alloc, arrays),
            ColumnStep::Pack { array } => packed(alloc, arrays, *array),
            ColumnStep::Field { array, name } => field(alloc, arrays, *array, name),
        }
    }
}

// The packed form of the array at a position.
fn packed(alloc: Global, arrays: &[ArrayRef], array: usize) -> Result<ArrayRef, VortexError>
    ensures ok { IfOk result (IsColumnStep (ColumnStep.Pack array) arrays.now) }
    ensures err { IfErr result (IsStepRefused (ColumnStep.Pack array) arrays.now) }
{
    array_at(arrays, array)?.pack(alloc)
}

// The column of a name of the records at a position.
fn field(
    alloc: Global,
    arrays: &[ArrayRef],
    array: usize,
    name: &FieldName,
) -> Result<ArrayRef, VortexError>
    ensures ok { IfOk result (IsColumnStep (ColumnStep.Field array name.now) arrays.now) }
    ensures err { IfErr result (IsStepRefused (ColumnStep.Field array name.now) arrays.now) }
{
    Ok(records_at(alloc, arrays, array)?.field(alloc, name.as_str())?)
}

// The records at a position, shared.
fn records_at(
    alloc: Global,
    arrays: &[ArrayRef],
    position: usize,
) -> Result<StructArray, VortexError>
    ensures found { IfOk result (λ records. records ≡ array_at arrays.now position) }
    ensures refuses { Refuses result (records_fault arrays.now position) }
{
    match StructArray::try_from_array(array_at(arrays, position)?.try_clone(alloc)?) {
        Ok(records) => Ok(records),
        Err(_other) => Err(VortexError::MismatchedTypes),
    }
}

// The array at a position.
fn array_at(arrays: &[ArrayRef], position: usize) -> Result<&ArrayRef, VortexError>
    ensures found { IfOk result (λ array. array.now ≡ array_at arrays.now position) }
    ensures tests { Tests result (position_fault (length arrays.now) position) }
{
    arrays.get(position).ok_or(VortexError::OutOfBounds {
        index: position,
        len: arrays.len(),
    })
}
