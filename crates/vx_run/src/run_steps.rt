// Runs lists of steps on arrays.

ghost use Rattle.std.specs.Prelude.{◌≡◌, ◌+◌, true, IfOk, IfErr, length, take};
ghost use Rattle.std.specs.Vec.{vec_capacity};
ghost use Rattle.vx_base.specs.Refusals.{Refuses, Tests, or_else};
ghost use Rattle.vx_tree.specs.Faults.{position_fault};
ghost use Rattle.vx_tree.specs.Meaning.{tree_len, rows};
ghost use Rattle.vx_tree.specs.Operations.{truths};
ghost use Rattle.vx_run.specs.Steps.{IsStep, HasRun, IsStop, HasRoom, array_at, arrays_at, positions_fault, mask_fault, layout_fault, step_fault};

use crate::record_steps::{projected, pushed, with_column, without_column};
use crate::steps::Step;
use std::alloc::Global;
use vx_base::{Mask, VortexError};
use vx_canonical::{Concatenate, ToCanonical};
use vx_leaves::{PrimitiveArray, PrimitiveArrayExt};
use vx_lists::{ListViewArray, ListViewRebuildMode};
use vx_tree::{ArrayRef, TypedArray, Validity};

/// Why a list of steps ended before its last step, and the arrays that stood before the step that
/// was refused. The last array is let go first, so that lists of lists of lists go level by level.
pub struct RunFault {
    /// The step that was refused, counted from 0.
    pub step: usize,
    /// Why it was refused.
    pub error: VortexError,
    /// The given arrays, then the results of the steps before.
    pub arrays: Vec<ArrayRef>,
}

impl Drop for RunFault {
    fn drop(self) {
        let RunFault {
            step: _,
            error: _,
            arrays,
        } = self;
        drop_last_first(arrays);
    }
}

impl RunFault {
    /// The given arrays, then the results of the steps before, to go on with.
    pub fn into_arrays(self) -> Vec<ArrayRef>
        ensures { result.items ≡ self.arrays.items }
    {
        let RunFault {
            step: _,
            error: _,
            arrays,
        } = self;
        arrays
    }
}

// Lets arrays go, the last first: an array shares those before it, so each goes while its parts
// are still held, and no drop recurses into what another step made.
pub(crate) fn drop_last_first(mut arrays: Vec<ArrayRef>) {
    while let Some(array) = arrays.pop() {
        drop(array);
    }
}

/// Takes the steps in order, each on the arrays that were given and the results of the steps
/// before, and appends its result to them: of the numbers 1, 2, 3 as array 0, the steps
/// `Slice { array: 0, start: 1, end: 3 }` and `Concat { arrays: [1, 0] }` append 2, 3 and then 2,
/// 3, 1, 2, 3.
///
/// Room for all results is reserved first: where that is refused, the fault is at step 0. No steps
/// give the arrays as they are. A step is
/// refused with `OutOfBounds` and the position where no array stands, in the order of its fields;
/// then with `MismatchedTypes` where an array has not the layout that the step takes, or the mask
/// of `Filter` is not one of plain booleans; then as its call refuses: `slice`, `take`, `filter`,
/// `mask`, `concat` and `to_canonical` of arrays, `rebuild` of list views, `narrow` of numbers,
/// `project`, `with_column` and `push_validity_into_children` of records. `RemoveColumn` is refused
/// with `UnknownField` where no field has the name.
pub fn run(
    alloc: Global,
    mut arrays: Vec<ArrayRef>,
    steps: &[Step],
) -> Result<Vec<ArrayRef>, RunFault>
    ensures ok { IfOk result (λ results. HasRun steps.now arrays.items results.items) }
    ensures before { IfErr result (λ fault. HasRun (take fault.step steps.now) arrays.items fault.arrays.items) }
    ensures stops { IfErr result (λ fault. IsStop steps.now fault.step fault.arrays.items fault.error) }
    ensures room { IfErr result (λ fault. HasRoom
        (length arrays.items + length steps.now) (vec_capacity fault.arrays) fault.step fault.error) }
{
    if arrays.reserve(steps.len()).is_err() {
        return Err(RunFault {
            step: 0,
            error: VortexError::Memory,
            arrays,
        });
    }
    for (i, step) in steps.iter().enumerate() {
        match step.apply(alloc, &arrays) {
            Ok(array) => arrays.push_reserved(array),
            Err(error) => {
                return Err(RunFault {
                    step: i,
                    error,
                    arrays,
                });
            }
        }
    }
    Ok(arrays)
}

impl Step {
    /// What this step makes of arrays, which stay as they are: the array that `run` appends. Of the
    /// numbers 1, 2, 3 as array 0, `Slice { array: 0, start: 1, end: 3 }` makes 2, 3. Refuses as
    /// `run` says of a step.
    pub fn apply(&self, alloc: Global, arrays: &[ArrayRef]) -> Result<ArrayRef, VortexError>
        ensures ok { IfOk result (IsStep self.now arrays.now) }
        ensures refuses { Refuses result (step_fault self.now arrays.now) }
    {
        match self {
            Step::Slice { array, start, end } => sliced(alloc, arrays, *array, *start, *end),
            Step::Take { array, indices } => taken_at(alloc, arrays, *array, *indices),
            Step::Filter { array, mask } => filtered(alloc, arrays, *array, *mask),
            Step::Mask { array, mask } => masked(alloc, arrays, *array, *mask),
            Step::Concat { arrays: positions } => concatenated(alloc, arrays, positions),
            Step::Canonical { array } => canonical(alloc, arrays, *array),
            Step::Rebuild { array, mode } => rebuilt(alloc, arrays, *array, *mode),
            Step::Narrow { array } => narrowed(alloc, arrays, *array),
            Step::Project { array, names } => projected(alloc, arrays, *array, names),
            Step::WithColumn {
                array,
                name,
                column,
            } => with_column(alloc, arrays, *array, name, *column),
            Step::RemoveColumn { array, name } => without_column(alloc, arrays, *array, name),
            Step::PushValidity { array, remove } => pushed(alloc, arrays, *array, *remove),
        }
    }
}

// The array at a position.
pub(crate) fn array_at(arrays: &[ArrayRef], position: usize) -> Result<&ArrayRef, VortexError>
    ensures found { IfOk result (λ array. array.now ≡ array_at arrays.now position) }
    ensures tests { Tests result (position_fault (length arrays.now) position) }
{
    arrays.get(position).ok_or(VortexError::OutOfBounds {
        index: position,
        len: arrays.len(),
    })
}

// The arrays at positions, shared.
fn arrays_at(
    alloc: Global,
    arrays: &[ArrayRef],
    positions: &[usize],
) -> Result<Vec<ArrayRef>, VortexError>
    ensures found { IfOk result (λ found. found.items ≡ arrays_at arrays.now positions.now) }
    ensures refuses { Refuses result (positions_fault (length arrays.now) positions.now) }
{
    let mut found = Vec::with_capacity(alloc, positions.len())?;
    for position in positions {
        found.push(array_at(arrays, *position)?.try_clone(alloc)?)?;
    }
    Ok(found)
}

// The truth values of the array at a position.
#[tactic(auto, using(crate::proofs::StepResults::plain_masks))]
fn mask_at(alloc: Global, arrays: &[ArrayRef], position: usize) -> Result<Mask, VortexError>
    ensures mask { IfOk result (λ mask. mask ≡ truths (rows (array_at arrays.now position))) }
    ensures len { IfOk result (λ mask. length mask ≡ tree_len (array_at arrays.now position)) }
    ensures refuses { Refuses result (mask_fault arrays.now position) }
{
    let array = array_at(arrays, position)?;
    let truths = Validity::Array(array.try_clone(alloc)?);
    Ok(truths.execute_mask(alloc, array.len())?)
}

// The array at a position, shared, as one of its layout.
pub(crate) fn typed_at<T: TypedArray>(
    alloc: Global,
    arrays: &[ArrayRef],
    position: usize,
) -> Result<T, VortexError>
    ensures found { IfOk result (λ array. T.as_tree array ≡ array_at arrays.now position) }
    ensures layout { IfOk result (λ array. T.has_layout (array_at arrays.now position) ≡ true) }
    ensures refuses { Refuses result (or_else (position_fault (length arrays.now) position)
        (layout_fault (T.has_layout (array_at arrays.now position)))) }
{
    typed(alloc, array_at(arrays, position)?)
}

// The array, shared, as one of its layout.
pub(crate) fn typed<T: TypedArray>(alloc: Global, array: &ArrayRef) -> Result<T, VortexError>
    ensures found { IfOk result (λ a. T.as_tree a ≡ array.now) }
    ensures layout { IfOk result (λ _. T.has_layout array.now ≡ true) }
    ensures refuses { Refuses result (layout_fault (T.has_layout array.now)) }
{
    match T::try_from_array(array.try_clone(alloc)?) {
        Ok(typed) => Ok(typed),
        Err(_other) => Err(VortexError::MismatchedTypes),
    }
}

// The rows of an array from `start` up to `end`.
fn sliced(
    alloc: Global,
    arrays: &[ArrayRef],
    array: usize,
    start: usize,
    end: usize,
) -> Result<ArrayRef, VortexError>
    ensures ok { IfOk result (IsStep (Step.Slice array start end) arrays.now) }
    ensures refuses { Refuses result (step_fault (Step.Slice array start end) arrays.now) }
{
    array_at(arrays, array)?.slice(alloc, start..end)
}

// The rows of an array at the indices that another one holds.
fn taken_at(
    alloc: Global,
    arrays: &[ArrayRef],
    array: usize,
    indices: usize,
) -> Result<ArrayRef, VortexError>
    ensures ok { IfOk result (IsStep (Step.Take array indices) arrays.now) }
    ensures refuses { Refuses result (step_fault (Step.Take array indices) arrays.now) }
{
    let array = array_at(arrays, array)?;
    let indices = array_at(arrays, indices)?;
    Ok(array.take(alloc, indices)?)
}

// The rows of an array at which another one is true.
fn filtered(
    alloc: Global,
    arrays: &[ArrayRef],
    array: usize,
    mask: usize,
) -> Result<ArrayRef, VortexError>
    ensures ok { IfOk result (IsStep (Step.Filter array mask) arrays.now) }
    ensures refuses { Refuses result (step_fault (Step.Filter array mask) arrays.now) }
{
    let array = array_at(arrays, array)?;
    let mask = mask_at(alloc, arrays, mask)?;
    Ok(array.filter(alloc, &mask)?)
}

// The rows of an array, null where another one is false.
fn masked(
    alloc: Global,
    arrays: &[ArrayRef],
    array: usize,
    mask: usize,
) -> Result<ArrayRef, VortexError>
    ensures ok { IfOk result (IsStep (Step.Mask array mask) arrays.now) }
    ensures refuses { Refuses result (step_fault (Step.Mask array mask) arrays.now) }
{
    let array = array_at(arrays, array)?;
    let mask = array_at(arrays, mask)?;
    array.mask(alloc, mask)
}

// The rows of several arrays, one array after another.
fn concatenated(
    alloc: Global,
    arrays: &[ArrayRef],
    positions: &Vec<usize>,
) -> Result<ArrayRef, VortexError>
    ensures ok { IfOk result (IsStep (Step.Concat positions.now) arrays.now) }
    ensures refuses { Refuses result (step_fault (Step.Concat positions.now) arrays.now) }
{
    let found = arrays_at(alloc, arrays, positions)?;
    Ok(ArrayRef::concat(alloc, &found)?)
}

// The rows of an array in plain layout.
fn canonical(alloc: Global, arrays: &[ArrayRef], array: usize) -> Result<ArrayRef, VortexError>
    ensures ok { IfOk result (IsStep (Step.Canonical array) arrays.now) }
    ensures refuses { Refuses result (step_fault (Step.Canonical array) arrays.now) }
{
    array_at(arrays, array)?.to_canonical(alloc)
}

// The lists of a list view, laid out anew.
fn rebuilt(
    alloc: Global,
    arrays: &[ArrayRef],
    array: usize,
    mode: ListViewRebuildMode,
) -> Result<ArrayRef, VortexError>
    ensures ok { IfOk result (IsStep (Step.Rebuild array mode) arrays.now) }
    ensures refuses { Refuses result (step_fault (Step.Rebuild array mode) arrays.now) }
{
    let lists: ListViewArray = typed_at(alloc, arrays, array)?;
    Ok(lists.rebuild(alloc, mode)?.into_array())
}

// The numbers of an array in the narrowest type that has them.
fn narrowed(alloc: Global, arrays: &[ArrayRef], array: usize) -> Result<ArrayRef, VortexError>
    ensures ok { IfOk result (IsStep (Step.Narrow array) arrays.now) }
    ensures refuses { Refuses result (step_fault (Step.Narrow array) arrays.now) }
{
    let numbers: PrimitiveArray = typed_at(alloc, arrays, array)?;
    Ok(numbers.narrow(alloc)?.into_array())
}
