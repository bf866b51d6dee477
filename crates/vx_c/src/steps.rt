// The steps that C hands over.

ghost use Rattle.std.specs.Prelude.{◌≡◌, Some, None, IfOk, IfErr, map};
ghost use Rattle.vx_base.specs.Refusals.{Refuses};
ghost use Rattle.vx_c.specs.Tables.{utf8_fault, names_fault};
ghost use Rattle.vx_c.specs.Answers.{IsFormFault};
ghost use Rattle.vx_c.specs.StepKinds.{step_numbered, mode_numbered, flag_numbered};
ghost use Rattle.vx_c.specs.Steps.{form_fault, step_form_fault, MeansStep, IsStepOf};

use crate::column_steps::ColumnStep;
use crate::faults::NodeError;
use crate::layouts::name_of;
use crate::table::CodraskBytes;
use std::alloc::Global;
use vx_base::{FieldName, VortexError};
use vx_lists::ListViewRebuildMode;
use vx_run::Step;

/// One step of a run: what it appends to the list of arrays. An array is named by its position in
/// the list, counted from 0. What the kind does not use is not looked at.
#[repr(C)]
#[derive(Drop)]
pub struct CodraskStep<'a> {
    /// Which step: a number of `StepKind`.
    pub kind: u32,
    /// Of a rebuild which one: a number of `ListViewRebuildMode`. Of a pushed validity 1 where no
    /// record is null any more, else 0.
    pub mode: u32,
    /// The array that the step takes.
    pub array: usize,
    /// The array of the indices, of the mask or of the new column.
    pub other: usize,
    /// The first row of a slice.
    pub start: usize,
    /// The row before which a slice ends.
    pub end: usize,
    /// The arrays that are joined.
    pub arrays: &'a [usize],
    /// The names of the columns that are kept.
    pub names: &'a [CodraskBytes<'a>],
    /// The name of the new column, or of the one that is removed or taken out.
    pub name: &'a [u8],
}

// What a step says that it is.
#[derive(Clone, Copy, Debug, PartialEq, Eq)]
pub(crate) enum StepKind {
    // The rows from `start` up to `end`.
    Slice,
    // The rows at the indices of another array.
    Take,
    // The rows at which another array is true.
    Filter,
    // The rows, null where another array is false.
    Mask,
    // The rows of several arrays.
    Concat,
    // The rows in plain layout.
    Canonical,
    // Lists, laid out anew.
    Rebuild,
    // Numbers in the narrowest type.
    Narrow,
    // The columns of these names.
    Project,
    // One column more.
    WithColumn,
    // Without a column.
    RemoveColumn,
    // The nulls of records in their columns.
    PushValidity,
    // The packed form of the rows.
    Pack,
    // A column of records, null also where the record is.
    Field,
}

impl StepKind {
    // The kind of this number.
    fn numbered(number: u32) -> Option<StepKind>
        ensures { result ≡ step_numbered number }
    {
        let kinds = [
            StepKind::Slice,
            StepKind::Take,
            StepKind::Filter,
            StepKind::Mask,
            StepKind::Concat,
            StepKind::Canonical,
            StepKind::Rebuild,
            StepKind::Narrow,
            StepKind::Project,
            StepKind::WithColumn,
            StepKind::RemoveColumn,
            StepKind::PushValidity,
            StepKind::Pack,
            StepKind::Field,
        ];
        kinds.get(number as usize).copied()
    }
}

// How lists are laid out anew, by its number.
fn mode_numbered(number: u32) -> Option<ListViewRebuildMode>
    ensures { result ≡ mode_numbered number }
{
    let modes = [
        ListViewRebuildMode::MakeZeroCopyToList,
        ListViewRebuildMode::TrimElements,
        ListViewRebuildMode::MakeExact,
        ListViewRebuildMode::OverlapCompression,
    ];
    modes.get(number as usize).copied()
}

// Whether no record is null any more, by its number.
fn flag_numbered(number: u32) -> Option<bool>
    ensures { result ≡ flag_numbered number }
{
    [false, true].get(number as usize).copied()
}

// The step that C means. Refuses `UnknownKind`, then as its parts are refused.
pub(crate) fn step_of(alloc: Global, step: &CodraskStep<'_>) -> Result<ColumnStep, NodeError>
    ensures ok { IfOk result (IsStepOf step.now) }
    ensures err { IfErr result (λ e. IsFormFault e (step_form_fault step.now)) }
{
    let kind = StepKind::numbered(step.kind).ok_or(NodeError::UnknownKind)?;
    step_of_kind(alloc, kind, step)
}

// The step of a kind. Refuses `BadMode` where the kind has no such mode, then `NotUtf8` at the first
// name that is no text.
#[tactic(auto, using(crate::proofs::Meant::meant))]
fn step_of_kind(
    alloc: Global,
    kind: StepKind,
    step: &CodraskStep<'_>,
) -> Result<ColumnStep, NodeError>
    ensures ok { IfOk result (MeansStep (Some kind) step.now) }
    ensures err { IfErr result (λ e. IsFormFault e (form_fault (Some kind) step.now)) }
    ensures sound { IfOk result (λ _. form_fault (Some kind) step.now ≡ None) }
{
    let (array, start, end) = (step.array, step.start, step.end);
    let (indices, mask, column) = (step.other, step.other, step.other);
    match kind {
        StepKind::Slice => Ok(ColumnStep::Of(Step::Slice { array, start, end })),
        StepKind::Take => Ok(ColumnStep::Of(Step::Take { array, indices })),
        StepKind::Filter => Ok(ColumnStep::Of(Step::Filter { array, mask })),
        StepKind::Mask => Ok(ColumnStep::Of(Step::Mask { array, mask })),
        StepKind::Concat => {
            let arrays = Vec::from_slice(alloc, step.arrays)?;
            Ok(ColumnStep::Of(Step::Concat { arrays }))
        }
        StepKind::Canonical => Ok(ColumnStep::Of(Step::Canonical { array })),
        StepKind::Narrow => Ok(ColumnStep::Of(Step::Narrow { array })),
        StepKind::Rebuild => {
            let mode = mode_numbered(step.mode).ok_or(NodeError::BadMode)?;
            Ok(ColumnStep::Of(Step::Rebuild { array, mode }))
        }
        StepKind::PushValidity => {
            let remove = flag_numbered(step.mode).ok_or(NodeError::BadMode)?;
            Ok(ColumnStep::Of(Step::PushValidity { array, remove }))
        }
        StepKind::Project => {
            let names = field_names(alloc, step.names)?;
            Ok(ColumnStep::Of(Step::Project { array, names }))
        }
        StepKind::WithColumn => Ok(ColumnStep::Of(Step::WithColumn {
            array,
            name: field_name(alloc, step.name, 0)?,
            column,
        })),
        StepKind::RemoveColumn => {
            let name = field_name(alloc, step.name, 0)?;
            Ok(ColumnStep::Of(Step::RemoveColumn { array, name }))
        }
        StepKind::Pack => Ok(ColumnStep::Pack { array }),
        StepKind::Field => {
            let name = field_name(alloc, step.name, 0)?;
            Ok(ColumnStep::Field { array, name })
        }
    }
}

// A copy of the name that bytes hold. Refuses `NotUtf8` with its place.
fn field_name(alloc: Global, bytes: &[u8], place: usize) -> Result<FieldName, VortexError>
    ensures ok { IfOk result (λ name. name ≡ bytes.now) }
    ensures refuses { Refuses result (utf8_fault bytes.now place) }
{
    FieldName::try_new(alloc, name_of(bytes, place)?)
}

// Copies of the names that buffers hold. Refuses `NotUtf8` at the first that is not.
fn field_names(alloc: Global, buffers: &[CodraskBytes<'_>]) -> Result<Vec<FieldName>, VortexError>
    ensures ok { IfOk result (λ names. names.items ≡ map (λ b. b.bytes.now) buffers.now) }
    ensures refuses { Refuses result (names_fault (map (λ b. b.bytes.now) buffers.now)) }
{
    let mut names = Vec::with_capacity(alloc, buffers.len())?;
    for i in 0..buffers.len() {
        names.push(field_name(alloc, buffers[i].bytes, i)?)?;
    }
    Ok(names)
}
