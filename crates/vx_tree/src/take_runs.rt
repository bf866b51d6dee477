// Rows of an array in runs.

ghost use Rattle.std.specs.Prelude.{◌≡◌, IfOk};
ghost use Rattle.std.specs.List.{All, flat_map};
ghost use Rattle.vx_base.specs.Booleans.{count_fault};
ghost use Rattle.vx_base.specs.Refusals.{Refuses, Tests};
ghost use Rattle.vx_base.specs.Selections.{run_positions};
ghost use Rattle.vx_tree.specs.Meaning.{tree_len, kind_of, rows};
ghost use Rattle.vx_tree.specs.Shapes.{shape_of, taken_shape, never_null};
ghost use Rattle.vx_tree.specs.Operations.{IsSelected};
ghost use Rattle.vx_tree.specs.Runs.{IsRunWithin, rows_in_run, runs_len, runs_fault};

use crate::array::ArrayRef;
use std::alloc::Global;
use vx_base::{Selection, VortexError};

impl ArrayRef {
    /// The rows of these runs, one run after another, each from its start up to its end: what
    /// `take` gives by the same positions, none of which is null, in the same layout and of the
    /// same data type and state; a list view keeps its elements and a dictionary its values, but
    /// neither its flag. Asks of each run that its start does not pass its end, nor its end the
    /// length. Refuses `Overflow` where the runs have in all more rows than can be counted, or
    /// lists of a fixed size would need more elements than can be. No position of a run is written
    /// out. Of the numbers 5, 6, 7, 8 the runs from 2 to 4 and from 0 to 1 have 7, 8, 5.
    pub fn take_runs(&self, alloc: Global, runs: &[(usize, usize)]) -> Result<ArrayRef, VortexError>
        requires { All (IsRunWithin (tree_len self.now)) runs.now }
        ensures rows { IfOk result (λ a. rows a ≡ flat_map (rows_in_run (rows self.now)) runs.now) }
        ensures kind { IfOk result (λ a. kind_of a ≡ kind_of self.now) }
        ensures shape { IfOk result (λ a. shape_of a ≡ taken_shape (shape_of self.now) never_null) }
        ensures by_row { IfOk result (IsSelected self.now (flat_map run_positions runs.now)) }
        ensures refuses { Refuses result (runs_fault self.now runs.now) }
    {
        let len = runs_len(runs)?;
        let selection = Selection::of_runs(runs, len);
        self.select(alloc, &selection)
    }
}

// How many rows the runs have in all: none where a run does not end past its start.
fn runs_len(runs: &[(usize, usize)]) -> Result<usize, VortexError>
    ensures len { IfOk result (λ n. n ≡ runs_len runs.now) }
    ensures tests { Tests result (count_fault (runs_len runs.now)) }
{
    let mut total = 0usize;
    for run in runs {
        let (start, end) = *run;
        let Some(longer) = total.checked_add(end.saturating_sub(start)) else {
            return Err(VortexError::Overflow);
        };
        total = longer;
    }
    Ok(total)
}
