// Taking rows in runs.

ghost use Rattle.std.specs.Prelude.{IfOk};
ghost use Rattle.std.specs.List.{All};
ghost use Rattle.vx_tree.specs.Runs.{IsRunWithin};

use crate::data::{Scale, limit_of, numbers, random_numbers};
use crate::fault::Fault;
use crate::made::Made;
use crate::operation::Operation;
use std::alloc::Global;
use vx_tree::ArrayRef;

// Runs of the rows of an array, which are seen to lie within it.
#[derive(Drop)]
pub(crate) struct TakeRuns {
    array: ArrayRef,
    runs: Vec<(usize, usize)>,
}

impl Operation for TakeRuns {
    fn run(&mut self, alloc: Global) -> Result<Made, Fault> {
        check_runs(&self.runs, self.array.len())?;
        Ok(Made::Array(self.array.take_runs(alloc, &self.runs)?))
    }
}

// Refuses a run that does not lie within so many rows.
fn check_runs(runs: &[(usize, usize)], len: usize) -> Result<(), Fault>
    ensures { IfOk result (λ _. All (IsRunWithin len) runs.now) }
{
    for run in runs {
        let (start, end) = *run;
        if start > end || end > len {
            return Err(Fault::Usage);
        }
    }
    Ok(())
}

// Runs of so many rows each that start anywhere, and have in all at most `rows` rows.
fn runs_of(alloc: Global, rows: usize, size: usize) -> Result<Vec<(usize, usize)>, Fault> {
    let count = rows / size.max(1);
    let limit = limit_of(rows.saturating_sub(size));
    let mut runs = Vec::with_capacity(alloc, count)?;
    for start in random_numbers(alloc, count, limit, 5)? {
        let start = start as usize;
        runs.push((start, start.saturating_add(size)))?;
    }
    Ok(runs)
}

// Numbers that are taken in runs of eight rows, or in a hundred runs.
pub(crate) fn ready(alloc: Global, scale: Scale, name: &str) -> Result<TakeRuns, Fault> {
    let rows = scale.rows();
    let size = match name {
        "short_runs" => 8,
        _ => rows / 100,
    };
    Ok(TakeRuns {
        array: numbers(alloc, rows)?,
        runs: runs_of(alloc, rows, size)?,
    })
}
