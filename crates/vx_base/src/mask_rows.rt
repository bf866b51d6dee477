// The booleans of a mask, read row by row.

ghost use Rattle.std.specs.Prelude.{◌≡◌, ◌<◌, ◌≤◌, ◌&&◌, ◌||◌, ℕ, length, take, slice_index_or, IsTrue};
ghost use Rattle.std.specs.List.{All};
ghost use Rattle.vx_base.specs.Bits.{bool_at};
ghost use Rattle.vx_base.specs.MaskRuns.{is_in_runs, marked, AreRuns, IsStretch, IsFirstPast};

use crate::mask::Mask;
use std::marker::Model;

/// The booleans of a mask, to be read in order: the rows that are alike around the last one that was
/// read are known, so that the next row costs one comparison, or a look at the next run. Rows out of
/// order are looked for by halves.
#[derive(Drop)]
pub struct MaskRows<'a> {
    runs: &'a [(usize, usize)],
    len: usize,
    stretch: Stretch,
}

// Rows that are alike, a run or what lies before one, and the place of that run.
#[derive(Clone, Copy, Drop)]
struct Stretch {
    run: usize,
    start: usize,
    end: usize,
    is_true: bool,
}

impl<'a> Model for MaskRows<'a> {
    ghost use Rattle.std.specs.Prelude.{Bool, List};
    ghost use Rattle.vx_base.specs.MaskRuns.{marked, AreRuns, IsStretch};

    ghost Value = { List Bool };

    ghost view = { λ m. marked m.len m.runs.now };

    ghost invariant = { λ m. AreRuns m.len m.runs.now
        × IsStretch m.runs.now m.stretch.run m.stretch.start m.stretch.end m.stretch.is_true };
}

impl<'a> MaskRows<'a> {
    // The booleans of a mask.
    pub(crate) fn new(mask: &'a Mask) -> MaskRows<'a>
        ensures { result ≡ mask.now }
    {
        MaskRows {
            runs: mask.runs(),
            len: mask.len(),
            stretch: Stretch {
                run: 0,
                start: 0,
                end: 0,
                is_true: false,
            },
        }
    }

    /// The boolean of row `i`, counted from 0. Asks that there is such a row.
    #[inline]
    pub fn value(&mut self, i: usize) -> bool
        requires { i < length self.old }
        ensures value { result ≡ bool_at self.old i }
        ensures same { self.new ≡ self.old }
    {
        if self.stretch.start <= i && i < self.stretch.end {
            return self.stretch.is_true;
        }
        self.stretch = stretch_at(self.runs, self.len, self.stretch.run, i);
        self.stretch.is_true
    }
}

// The rows around row `i` that are alike, looked for from a place among the runs on.
fn stretch_at(runs: &[(usize, usize)], len: usize, from: usize, i: usize) -> Stretch
    requires runs { AreRuns len runs.now }
    requires from { from ≤ length runs.now }
    requires row { i < len }
    ensures stretch { IsStretch runs.now result.run result.start result.end result.is_true }
    ensures row { (result.start ≤ i) × (i < result.end) }
{
    let run = first_past(runs, from, i);
    let start = end_before(runs, run);
    if run == runs.len() {
        return Stretch {
            run,
            start,
            end: len,
            is_true: false,
        };
    }
    let (first, end) = runs[run];
    if i < first {
        return Stretch {
            run,
            start,
            end: first,
            is_true: false,
        };
    }
    Stretch {
        run,
        start: first,
        end,
        is_true: true,
    }
}

// Where the runs before place `run` end.
fn end_before(runs: &[(usize, usize)], run: usize) -> usize
    requires runs { AreRuns usize.MAX runs.now }
    requires run { run ≤ length runs.now }
    ensures before { All (λ r. r.1 ≤ result) (take run runs.now) }
    ensures least { (i : ℕ) → All (λ r. r.1 ≤ i) (take run runs.now) → result ≤ i }
{
    if run == 0 {
        return 0;
    }
    runs[run - 1].1
}

// The first run that ends past row `i`: at this place, at the next, or found by halves.
fn first_past(runs: &[(usize, usize)], from: usize, i: usize) -> usize
    requires runs { AreRuns usize.MAX runs.now }
    requires from { from ≤ length runs.now }
    ensures { IsFirstPast runs.now i result }
{
    if is_first_past(runs, from, i) {
        return from;
    }
    if from < runs.len() && is_first_past(runs, from + 1, i) {
        return from + 1;
    }
    runs.partition_point(|run| run.1 <= i)
}

// Whether this is the first run that ends past row `i`.
fn is_first_past(runs: &[(usize, usize)], at: usize, i: usize) -> bool
    requires runs { AreRuns usize.MAX runs.now }
    requires at { at ≤ length runs.now }
    ensures { IsTrue result → IsFirstPast runs.now i at }
{
    end_before(runs, at) <= i && ends_past(runs, at, i)
}

// Whether the run at a place, where there is one, ends past row `i`.
fn ends_past(runs: &[(usize, usize)], at: usize, i: usize) -> bool
    requires { at ≤ length runs.now }
    ensures { IsTrue result → at < length runs.now → i < (slice_index_or runs.now at (0, 0)).1 }
{
    at == runs.len() || i < runs[at].1
}
