// The runs of places at which booleans are true, found by the edges of the words that hold them.

ghost use Rattle.std.specs.Prelude.{◌≡◌, ◌<◌, ◌≤◌, ◌+◌, ◌-◌, ◌%◌, ◌&&◌, ◌||◌, ℕ, true, false, not, length, IfOk, OnOk};
ghost use Rattle.std.specs.List.{All};
ghost use Rattle.vx_base.specs.Bits.{bool_at};
ghost use Rattle.vx_base.specs.Refusals.{Gives};
ghost use Rattle.vx_base.specs.MaskRuns.{is_in_run, is_in_runs, marked, AreAdded, AreRuns, IsEdge};
ghost use Rattle.vx_base.specs.Trues.{AreAll};

use crate::bit_buffer::BitBuffer;
use crate::bit_words::edges_of;
use crate::errors::VortexError;
use std::alloc::Global;

// The place at which booleans became what they are from there on.
#[derive(Clone, Copy, Drop)]
struct Edge {
    at: usize,
    is_true: bool,
}

// Adds the run from an edge up to another, where it is true.
#[inline]
fn end_run(runs: &mut Vec<(usize, usize)>, from: Edge, to: usize) -> Result<(), VortexError>
    requires { IsEdge from.at to from.is_true runs.old.items }
    ensures apart { OnOk result (IsEdge to (to + 1) (not from.is_true) runs.new.items) }
    ensures rows { Gives result (λ _. (k : ℕ) → is_in_runs runs.new.items k
        ≡ (is_in_runs runs.old.items k || (is_in_run (from.at, to) k && from.is_true))) }
{
    if from.is_true {
        runs.push((from.at, to))?;
    }
    Ok(())
}

impl BitBuffer {
    // The runs of places that are true, in order, each as long as it can be.
    pub(crate) fn true_runs(&self, alloc: Global) -> Result<Vec<(usize, usize)>, VortexError>
        ensures apart { IfOk result (λ runs. AreRuns (length self.now.bits) runs.items) }
        ensures rows { Gives result (λ runs. marked (length self.now.bits) runs.items ≡ self.now.bits) }
    {
        let mut runs = Vec::with_capacity(alloc, self.run_count())?;
        self.push_runs(&mut runs, 0, self.len())?;
        Ok(runs)
    }

    // The runs of places that are true and lie in these runs, in order. The room for them is had
    // once.
    pub(crate) fn true_runs_within(
        &self,
        alloc: Global,
        within: &[(usize, usize)],
    ) -> Result<Vec<(usize, usize)>, VortexError>
        requires { AreRuns (length self.now.bits) within.now }
        ensures apart { IfOk result (λ runs. AreRuns (length self.now.bits) runs.items) }
        ensures rows { Gives result (λ runs. (k : ℕ) → is_in_runs runs.items k
            ≡ (bool_at self.now.bits k && is_in_runs within.now k)) }
    {
        let room = self.run_count().saturating_add(within.len());
        let mut runs = Vec::with_capacity(alloc, room)?;
        for run in within {
            let (start, end) = *run;
            self.push_runs(&mut runs, start, end)?;
        }
        Ok(runs)
    }

    // Adds the runs of true places among those from `start` up to, but not at, `end`, a word at a
    // time.
    fn push_runs(
        &self,
        runs: &mut Vec<(usize, usize)>,
        start: usize,
        end: usize,
    ) -> Result<(), VortexError>
        requires ordered { start ≤ end }
        requires within { end ≤ length self.now.bits }
        requires runs { AreRuns start runs.old.items }
        requires apart { All (λ run. run.1 < start) runs.old.items }
        ensures apart { OnOk result (AreRuns end runs.new.items) }
        ensures rows { Gives result (λ _. AreAdded self.now.bits start end runs.old.items runs.new.items) }
    {
        let mut place = start;
        let mut last = Edge {
            at: start,
            is_true: false,
        };
        while place < end {
            let held = 64 - (self.offset() + place % 8) % 8;
            let next = place + held.min(end - place);
            last = self.push_word(runs, last, place, next)?;
            place = next;
        }
        Ok(end_run(runs, last, end)?)
    }

    // Adds the runs that end at places from `place` up to, but not at, `end`, which one word holds,
    // and gives the last edge before `end`.
    #[inline]
    fn push_word(
        &self,
        runs: &mut Vec<(usize, usize)>,
        from: Edge,
        place: usize,
        end: usize,
    ) -> Result<Edge, VortexError>
        requires ordered { place < end }
        requires within { end ≤ length self.now.bits }
        requires held { end ≤ place + (64 - (self.now.offset + place) % 8) }
        requires edge { IsEdge from.at place from.is_true runs.old.items }
        requires alike { AreAll self.now.bits from.at place from.is_true }
        ensures later { IfOk result (λ last. from.at ≤ last.at) }
        ensures edge { IfOk result (λ last. IsEdge last.at end last.is_true runs.new.items) }
        ensures alike { IfOk result (λ last. AreAll self.now.bits last.at end last.is_true) }
        ensures rows { Gives result (λ last. AreAdded self.now.bits from.at last.at runs.old.items runs.new.items) }
    {
        let mut last = from;
        let mut edges = edges_of(self.word_at(place), from.is_true, end - place);
        while edges != 0 {
            let at = place + edges.trailing_zeros() as usize;
            end_run(runs, last, at)?;
            last = Edge {
                at,
                is_true: !last.is_true,
            };
            edges &= edges - 1;
        }
        Ok(last)
    }

    // How many such runs there are, or a few more: one where the first place is true, and one for
    // each place that is false before one that is true. It is the room for them.
    fn run_count(&self) -> usize {
        let mut count = 1usize;
        for j in 0..self.len().div_ceil(56) {
            let word = self.word_at(56 * j);
            let rises = !word & (word >> 1) & (u64::MAX >> 8);
            count = count.saturating_add(rises.count_ones() as usize);
        }
        count
    }
}
