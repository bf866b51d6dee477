// A run: columns that C hands over, steps on them, and the tables of what is asked for.

ghost use Rattle.std.specs.Prelude.{IfOk, IfErr, map};
ghost use Rattle.std.specs.List.{All, AllZip};
ghost use Rattle.vx_tree.specs.Fitting.{AllFormed};
ghost use Rattle.vx_c.specs.ColumnSteps.{HasColumnRun};
ghost use Rattle.vx_c.specs.Tables.{column_of};
ghost use Rattle.vx_c.specs.Written.{node_of};
ghost use Rattle.vx_c.specs.Runs.{AreColumns, AreSteps, IsMade, IsMadeOf, AreExact, IsExactTable, IsRunError, IsNoTable, AreColumnsOr, AreStepsOr};
ghost use Rattle.vx_c.specs.Runs.{IsRanOr, AreTablesOr};

use crate::column_steps::ColumnStep;
use crate::counting::{left_by_array, left_by_kind};
use crate::faults::{NodeError, RunError};
use crate::lending::lend_tables;
use crate::reading::{MAX_NODES, column};
use crate::steps::{CodraskStep, step_of};
use crate::table::CodraskTable;
use crate::writing::write;
use crate::written::WrittenTable;
use std::alloc::Global;
use vx_base::VortexError;
use vx_canonical::ToCanonical;
use vx_tree::ArrayRef;

// The most steps of a run: of so many no nest is made that is too deep for the stack.
pub(crate) const MAX_STEPS: usize = 1024;

// Runs steps on the columns of tables, and gives the tables of the arrays that are asked for.
#[tactic(auto, using(crate::proofs::RunParts::run_parts, crate::proofs::ExactRuns::exact_lent))]
pub(crate) fn run_tables(
    alloc: Global,
    tables: &[CodraskTable<'_>],
    steps: &[CodraskStep<'_>],
    wanted: &[usize],
) -> Result<&'static [CodraskTable<'static>], RunError>
    ensures ok { IfOk result (λ made. IsMade tables.now steps.now wanted.now made.now) }
    ensures exact { IfOk result (λ made. All IsExactTable made.now) }
    ensures err { IfErr result (IsRunError tables.now steps.now wanted.now) }
{
    let columns = columns_of(alloc, tables)?;
    let steps = steps_of(alloc, steps)?;
    let results = results_of(alloc, columns, &steps)?;
    let written = tables_of(alloc, &results, wanted);
    drop_last_first(results);
    let written = written?;
    let room = Vec::with_capacity(alloc, written.len())?;
    Ok(lend_tables(written, room))
}

// The columns of tables.
#[tactic(auto, using(crate::proofs::RunParts::columns_read, crate::proofs::RunParts::no_column))]
fn columns_of(alloc: Global, tables: &[CodraskTable<'_>]) -> Result<Vec<ArrayRef>, RunError>
    ensures ok { IfOk result (λ columns. AreColumns tables.now columns.items) }
    ensures err { IfErr result (AreColumnsOr tables.now) }
{
    let mut columns = Vec::with_capacity(alloc, tables.len())?;
    for i in 0..tables.len() {
        match column(alloc, tables[i].nodes) {
            Ok(array) => columns.push(array)?,
            Err((node, error)) => return Err(RunError::Table(i, node, error)),
        }
    }
    Ok(columns)
}

// The steps that C means.
#[tactic(auto, using(crate::proofs::RunParts::step_parts))]
fn steps_of(alloc: Global, steps: &[CodraskStep<'_>]) -> Result<Vec<ColumnStep>, RunError>
    ensures ok { IfOk result (λ read. AreSteps steps.now read.items) }
    ensures err { IfErr result (AreStepsOr steps.now) }
{
    if MAX_STEPS < steps.len() {
        return Err(RunError::Form(MAX_STEPS, NodeError::TooManySteps));
    }
    let mut read = Vec::with_capacity(alloc, steps.len())?;
    for i in 0..steps.len() {
        match step_of(alloc, &steps[i]) {
            Ok(step) => read.push(step)?,
            Err(error) => return Err(RunError::Form(i, error)),
        }
    }
    Ok(read)
}

// The arrays after the steps. Room for all is asked for first.
fn results_of(
    alloc: Global,
    mut arrays: Vec<ArrayRef>,
    steps: &[ColumnStep],
) -> Result<Vec<ArrayRef>, RunError>
    ensures ok { IfOk result (λ results. HasColumnRun steps.now arrays.items results.items) }
    ensures formed { IfOk result (λ results. All AllFormed results.items) }
    ensures err { IfErr result (IsRanOr steps.now arrays.items) }
{
    if arrays.reserve(steps.len()).is_err() {
        drop_last_first(arrays);
        return Err(RunError::Memory);
    }
    for (i, step) in steps.iter().enumerate() {
        match step.apply(alloc, &arrays) {
            Ok(array) => arrays.push_reserved(array),
            Err(error) => {
                all_formed(&arrays);
                drop_last_first(arrays);
                return Err(RunError::Step(i, error));
            }
        }
    }
    all_formed(&arrays);
    Ok(arrays)
}

// Lets arrays go, the last first: an array shares those before it, so each goes while its parts
// are still held, and no drop recurses into what another step made.
fn drop_last_first(mut arrays: Vec<ArrayRef>) {
    while let Some(array) = arrays.pop() {
        drop(array);
    }
}

// What is always true of the arrays, at every depth. It does nothing.
fn all_formed(arrays: &[ArrayRef])
    ensures { All AllFormed arrays.now }
{
    for array in arrays {
        array.known();
    }
}

// The tables of the arrays that are asked for.
#[tactic(auto, using(crate::proofs::RunParts::tables_read, crate::proofs::RunParts::no_table, crate::proofs::ExactRuns::exact_more))]
fn tables_of(
    alloc: Global,
    results: &[ArrayRef],
    wanted: &[usize],
) -> Result<Vec<WrittenTable>, RunError>
    ensures ok { IfOk result (λ made. AllZip (IsMadeOf results.now) wanted.now (map (λ t. column_of (map node_of t.nodes.items)) made.items)) }
    ensures exact { IfOk result (λ made. All (λ t. AreExact (map node_of t.nodes.items)) made.items) }
    ensures err { IfErr result (AreTablesOr results.now wanted.now) }
{
    let mut tables = Vec::with_capacity(alloc, wanted.len())?;
    for i in 0..wanted.len() {
        match table_of(alloc, results, wanted[i]) {
            Ok(table) => tables.push(table)?,
            Err(error) => return Err(RunError::Result(i, error)),
        }
    }
    Ok(tables)
}

// The table of the array at a position, in plain layouts. Its nodes are counted before any is
// written, and those that its data type needs before it is made plain.
#[tactic(auto, using(crate::proofs::RunParts::table_parts))]
fn table_of(alloc: Global, results: &[ArrayRef], position: usize) -> Result<WrittenTable, NodeError>
    ensures ok { IfOk result (λ table. IsMadeOf results.now position (column_of (map node_of table.nodes.items))) }
    ensures exact { IfOk result (λ table. AreExact (map node_of table.nodes.items)) }
    ensures err { IfErr result (IsNoTable results.now position) }
{
    let array = results.get(position).ok_or(VortexError::OutOfBounds {
        index: position,
        len: results.len(),
    })?;
    if left_by_kind(array.dtype(), MAX_NODES).is_none() {
        return Err(NodeError::TooManyNodes);
    }
    let plain = array.to_canonical(alloc)?;
    plain.known();
    if left_by_array(&plain, MAX_NODES).is_none() {
        return Err(NodeError::TooManyNodes);
    }
    let mut nodes = Vec::new(alloc);
    write(alloc, &plain, &mut nodes)?;
    Ok(WrittenTable::of(alloc, nodes)?)
}
