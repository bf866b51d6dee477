//! Laws of the definitions that the crates above speak in: functions that do nothing, and whose
//! contract is the law.

ghost use Rattle.vx_base.specs.Refusals.{FirstFaultIsLeast};
ghost use Rattle.vx_base.specs.RunLaws.{MarkedRowsLieInRuns, MaximalRunsAreOne, RunsOfTruesMark};

pub use crate::dtypes::equal_where_same_kind;
pub use crate::native::{get_then_put, put_then_get};

/// The first fault of some rows is the fault of the least row that has one, and there is none
/// just where no row has one.
pub fn first_fault_is_least()
    ensures { FirstFaultIsLeast }
{}

/// Of booleans that are marked by runs, just those of rows that lie in a run are true.
pub fn marked_rows_lie_in_runs()
    ensures { MarkedRowsLieInRuns }
{}

/// Runs that are not empty and have a row between any two are told by the rows that lie in them:
/// two lists of such runs that mark the same rows are one list.
pub fn maximal_runs_are_one()
    ensures { MaximalRunsAreOne }
{}

/// Runs in which just the true rows of some booleans lie, in order, mark these booleans.
pub fn runs_of_true_rows_mark_them()
    ensures { RunsOfTruesMark }
{}
