// Rows that are picked, by their positions, by runs of them, or as the elements of lists.

ghost use Rattle.std.specs.Prelude.{◌≡◌, ◌==◌, ◌<◌, ◌+◌, ◌*◌, ◌^◌, length, map, replicate, unsigned_abs};
ghost use Rattle.vx_base.specs.Refusals.{Gives};
ghost use Rattle.std.specs.List.{All, flat_map};
ghost use Rattle.vx_base.specs.Integers.{numbers};
ghost use Rattle.vx_base.specs.Picked.{positions_of};
ghost use Rattle.vx_base.specs.Selections.{run_positions, list_positions};

use crate::errors::VortexError;
use crate::numbers::number_count;
use crate::ptypes::PType;
use std::alloc::Global;
use std::marker::Model;

/// Which rows are picked, in their order: at positions, which may lie in bytes as numbers of a
/// type, one row again and again, in runs, each from its start up to its end, or as the elements of
/// lists of one size, which may be one list again and again. What is picked is the list of all their
/// positions, in each form.
#[derive(Drop)]
pub struct Selection<'a> {
    picks: Picks<'a>,
    len: usize,
}

// The forms.
#[derive(Drop)]
pub(crate) enum Picks<'a> {
    Positions(&'a [usize]),
    Numbers(PType, &'a [u8]),
    Repeated(usize, usize),
    Runs(&'a [(usize, usize)]),
    OwnRuns(Vec<(usize, usize)>),
    ListRepeated(usize, usize, usize),
    ListsAt(&'a [usize], usize),
    ListsAtNumbers(PType, &'a [u8], usize),
}

impl<'a> Model for Selection<'a> {
    ghost use Rattle.std.specs.Prelude.{ℕ, List, ◌≡◌, length};
    ghost use Rattle.vx_base.specs.Picked.{positions_of};

    ghost Value = { List ℕ };

    ghost view = { λ s. positions_of s.picks };

    ghost invariant = { λ s. s.len ≡ length (positions_of s.picks) };
}

impl<'a> Selection<'a> {
    ghost use Rattle.vx_base.specs.Picked.{positions_of};

    /// The rows at these positions.
    pub fn at_positions(positions: &'a [usize]) -> Selection<'a>
        ensures { result ≡ positions.now }
    {
        Selection {
            picks: Picks::Positions(positions),
            len: positions.len(),
        }
    }

    /// The rows at the positions that these numbers are, where they lie, one after another in the
    /// bytes. A number without its sign is the position.
    pub fn at_numbers(ptype: PType, bytes: &'a [u8]) -> Selection<'a>
        ensures { result ≡ map unsigned_abs (numbers ptype bytes.now) }
    {
        Selection {
            picks: Picks::Numbers(ptype, bytes),
            len: number_count(bytes, ptype),
        }
    }

    /// One row, `len` times.
    pub fn repeated(position: usize, len: usize) -> Selection<'a>
        ensures { result ≡ replicate len position }
    {
        Selection {
            picks: Picks::Repeated(position, len),
            len,
        }
    }

    /// The rows of these runs, of which there are `len` in all: none where a run does not end past
    /// its start.
    pub fn of_runs(runs: &'a [(usize, usize)], len: usize) -> Selection<'a>
        requires { len ≡ length (flat_map run_positions runs.now) }
        ensures { result ≡ flat_map run_positions runs.now }
    {
        Selection {
            picks: Picks::Runs(runs),
            len,
        }
    }

    /// How many rows are picked.
    pub fn len(&self) -> usize
        ensures { result ≡ length self.now }
    {
        self.len
    }

    /// Whether none is.
    pub fn is_empty(&self) -> bool
        ensures { result ≡ (length self.now == 0) }
    {
        self.len == 0
    }

    /// The elements of these lists, where each list has `size` elements. Asks that the end of each
    /// list is below 2^64, and so is the number of the elements. Fails only for want of memory.
    pub fn lists(&self, alloc: Global, size: usize) -> Result<Selection<'a>, VortexError>
        requires within { All (λ k. k * size + size < 2 ^ 64) self.now }
        requires countable { length self.now * size < 2 ^ 64 }
        ensures { Gives result (λ s. s ≡ flat_map (list_positions size) self.now) }
    {
        let len = self.len * size;
        if len == 0 {
            return Ok(Selection::at_positions(&[]));
        }
        let picks = lists_of(alloc, &self.picks, size)?;
        Ok(Selection { picks, len })
    }

    // The form.
    pub(crate) fn picks(&self) -> &Picks<'a>
        ensures { positions_of result.now ≡ self.now }
    {
        &self.picks
    }
}

// The elements of these lists, of which there is one at least. Elements of elements are those of
// longer lists.
#[tactic(auto, using(crate::proofs::SizedLists::lists_of_lists))]
fn lists_of<'a>(alloc: Global, picks: &Picks<'a>, size: usize) -> Result<Picks<'a>, VortexError>
    requires some { 0 < length (positions_of picks.now) }
    requires within { All (λ k. k * size + size < 2 ^ 64) (positions_of picks.now) }
    ensures { Gives result (λ p. positions_of p ≡ flat_map (list_positions size) (positions_of picks.now)) }
{
    Ok(match picks {
        Picks::Positions(positions) => Picks::ListsAt(*positions, size),
        Picks::Numbers(ptype, bytes) => Picks::ListsAtNumbers(*ptype, *bytes, size),
        Picks::Repeated(position, len) => Picks::ListRepeated(*position, *len, size),
        Picks::Runs(runs) => Picks::OwnRuns(runs_of_runs(alloc, *runs, size)?),
        Picks::OwnRuns(runs) => Picks::OwnRuns(runs_of_runs(alloc, runs, size)?),
        Picks::ListRepeated(position, len, whole) => {
            Picks::ListRepeated(*position, *len, *whole * size)
        }
        Picks::ListsAt(positions, whole) => Picks::ListsAt(*positions, *whole * size),
        Picks::ListsAtNumbers(ptype, bytes, whole) => {
            Picks::ListsAtNumbers(*ptype, *bytes, *whole * size)
        }
    })
}

// The run of each run of lists.
fn runs_of_runs(
    alloc: Global,
    lists: &[(usize, usize)],
    size: usize,
) -> Result<Vec<(usize, usize)>, VortexError>
    requires { All (λ k. k * size + size < 2 ^ 64) (flat_map run_positions lists.now) }
    ensures { Gives result (λ runs. flat_map run_positions runs.items
        ≡ flat_map (list_positions size) (flat_map run_positions lists.now)) }
{
    let mut runs = Vec::with_capacity(alloc, lists.len())?;
    for list in lists {
        let (start, end) = *list;
        runs.push(list_run(start, end, size))?;
    }
    Ok(runs)
}

// The elements of the lists from `start` up to `end`, none where there is none between.
fn list_run(start: usize, end: usize, size: usize) -> (usize, usize)
    requires { All (λ k. k * size + size < 2 ^ 64) (run_positions (start, end)) }
    ensures { run_positions result ≡ flat_map (list_positions size) (run_positions (start, end)) }
{
    if start < end {
        (start * size, end * size)
    } else {
        (0, 0)
    }
}
