// Runs of rows, each a pair of a start and an end: in order, none empty, and a row between any two.

ghost use Rattle.std.specs.Prelude.{◌≡◌, ◌<◌, ◌≤◌, ◌*◌, ◌^◌, ◌↔◌, ◌&&◌, ◌||◌, ℕ, length, min, max, IsTrue, IfOk, OnOk};
ghost use Rattle.std.specs.List.{All, flat_map};
ghost use Rattle.vx_base.specs.Refusals.{Gives};
ghost use Rattle.vx_base.specs.Bits.{bit_of};
ghost use Rattle.vx_base.specs.MaskRuns.{is_in_run, is_in_runs, AreRuns};
ghost use Rattle.vx_base.specs.Selections.{run_positions};

use crate::bit_bytes::fill_bits;
use crate::errors::VortexError;
use std::alloc::Global;

// How many rows lie in these runs.
pub(crate) fn rows_in(runs: &[(usize, usize)]) -> usize
    requires filled { All (λ run. run.0 < run.1) runs.now }
    requires countable { length (flat_map run_positions runs.now) < 2 ^ 64 }
    ensures { result ≡ length (flat_map run_positions runs.now) }
{
    let mut rows = 0;
    for run in runs {
        let (start, end) = *run;
        rows += end - start;
    }
    rows
}

// Whether the two are the same runs.
pub(crate) fn same_runs(left: &[(usize, usize)], right: &[(usize, usize)]) -> bool
    ensures { IsTrue result ↔ (left.now ≡ right.now) }
{
    left == right
}

// Sets the bits of these runs.
pub(crate) fn mark_runs(out: &mut [u8], runs: &[(usize, usize)])
    requires { All (λ run. (run.0 < run.1) × (run.1 ≤ 8 * length out.old)) runs.now }
    ensures len { length out.new ≡ length out.old }
    ensures marked { (k : ℕ) → bit_of out.new k ≡ (bit_of out.old k || is_in_runs runs.now k) }
{
    for run in runs {
        let (start, end) = *run;
        fill_bits(out, start, end, true);
    }
}

// Adds a run, and makes it one with the last where it begins at the end of that one.
pub(crate) fn push_run(
    runs: &mut Vec<(usize, usize)>,
    start: usize,
    end: usize,
) -> Result<(), VortexError>
    requires runs { AreRuns start runs.old.items }
    requires filled { start < end }
    ensures apart { OnOk result (AreRuns end runs.new.items) }
    ensures rows { Gives result (λ _. (k : ℕ) → is_in_runs runs.new.items k
        ≡ (is_in_runs runs.old.items k || is_in_run (start, end) k)) }
{
    let count = runs.len();
    if count > 0 && runs[count - 1].1 == start {
        runs[count - 1].1 = end;
        return Ok(());
    }
    Ok(runs.push((start, end))?)
}

// Adds the rows that two runs share, where there are any.
fn push_shared(
    runs: &mut Vec<(usize, usize)>,
    one: (usize, usize),
    other: (usize, usize),
) -> Result<(), VortexError>
    requires runs { AreRuns (min one.1 other.1) runs.old.items }
    requires past { All (λ run. run.1 < max one.0 other.0) runs.old.items }
    ensures apart { OnOk result (AreRuns (min one.1 other.1) runs.new.items) }
    ensures rows { Gives result (λ _. (k : ℕ) → is_in_runs runs.new.items k
        ≡ (is_in_runs runs.old.items k || (is_in_run one k && is_in_run other k))) }
{
    let start = one.0.max(other.0);
    let end = one.1.min(other.1);
    if start < end {
        runs.push((start, end))?;
    }
    Ok(())
}

// The runs of the rows that lie in runs of both, which lie within a length.
pub(crate) fn runs_of_both(
    alloc: Global,
    left: &[(usize, usize)],
    right: &[(usize, usize)],
    len: usize,
) -> Result<Vec<(usize, usize)>, VortexError>
    requires left { AreRuns len left.now }
    requires right { AreRuns len right.now }
    ensures apart { IfOk result (λ runs. AreRuns len runs.items) }
    ensures rows { Gives result (λ runs. (k : ℕ) → is_in_runs runs.items k
        ≡ (is_in_runs left.now k && is_in_runs right.now k)) }
{
    let mut runs = Vec::with_capacity(alloc, left.len().max(right.len()))?;
    let (mut i, mut j) = (0, 0);
    while i < left.len() && j < right.len() {
        let (one, other) = (left[i], right[j]);
        push_shared(&mut runs, one, other)?;
        if one.1 < other.1 {
            i += 1;
        } else {
            j += 1;
        }
    }
    Ok(runs)
}
