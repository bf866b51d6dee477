// Rows that are gathered by a selection, in the way that each of its forms allows.

ghost use Rattle.std.specs.Prelude.{◌≡◌, length, map, replicate, unsigned_abs};
ghost use Rattle.vx_base.specs.Refusals.{Gives};
ghost use Rattle.std.specs.List.{flat_map};
ghost use Rattle.vx_base.specs.Integers.{numbers};
ghost use Rattle.vx_base.specs.Selections.{run_positions, list_positions};

use crate::call_native;
use crate::errors::VortexError;
use crate::native::NativePType;
use crate::places::{Listed, Numbered, Places, Same};
use crate::selection::{Picks, Selection};
use std::alloc::Global;

/// Rows of which some are gathered: numbers, booleans, or items of any type.
pub(crate) trait Gather: Drop {
    ghost use Rattle.std.specs.Prelude.{ℕ, List};

    /// What the gathered rows are put into.
    type Gathered: Drop;

    // There is a row at each of these positions.
    ghost HasRows: { Self → List ℕ → Type 0 };

    // What holds the rows at these positions, in their order.
    ghost AreGathered: { Self → List ℕ → Self.Gathered → Type 0 };

    /// The rows at these positions, one by one.
    fn at<P: Places>(self, alloc: Global, places: P) -> Result<Self::Gathered, VortexError>
        requires { HasRows self (P.positions places) }
        ensures { Gives result (AreGathered self (P.positions places)) };

    /// One row, `len` times.
    fn repeated(
        self,
        alloc: Global,
        position: usize,
        len: usize,
    ) -> Result<Self::Gathered, VortexError>
        requires { HasRows self (replicate len position) }
        ensures { Gives result (AreGathered self (replicate len position)) };

    /// The rows of these runs, of which there are `len` in all.
    fn of_runs(
        self,
        alloc: Global,
        runs: &[(usize, usize)],
        len: usize,
    ) -> Result<Self::Gathered, VortexError>
        requires within { HasRows self (flat_map run_positions runs.now) }
        requires len { len ≡ length (flat_map run_positions runs.now) }
        ensures { Gives result (AreGathered self (flat_map run_positions runs.now)) };

    /// The rows of these lists of `size` rows each, of which there are `len` in all.
    fn of_lists<P: Places>(
        self,
        alloc: Global,
        lists: P,
        size: usize,
        len: usize,
    ) -> Result<Self::Gathered, VortexError>
        requires within { HasRows self (flat_map (list_positions size) (P.positions lists)) }
        requires len { len ≡ length (flat_map (list_positions size) (P.positions lists)) }
        ensures { Gives result (AreGathered self (flat_map (list_positions size) (P.positions lists))) };
}

/// The rows that are picked, in their order.
pub(crate) fn gather_rows<G: Gather>(
    alloc: Global,
    rows: G,
    selection: &Selection,
) -> Result<G::Gathered, VortexError>
    requires { G.HasRows rows selection.now }
    ensures { Gives result (G.AreGathered rows selection.now) }
{
    let len = selection.len();
    match selection.picks() {
        Picks::Positions(positions) => rows.at(alloc, Listed(positions)),
        Picks::Numbers(ptype, places) => {
            call_native!(*ptype, gather_at_numbers::<G>(alloc, rows, places))
        }
        Picks::Repeated(position, times) => rows.repeated(alloc, *position, *times),
        Picks::Runs(runs) => rows.of_runs(alloc, runs, len),
        Picks::OwnRuns(runs) => rows.of_runs(alloc, runs, len),
        Picks::ListRepeated(position, times, size) => {
            rows.of_lists(alloc, Same::new(*position, *times), *size, len)
        }
        Picks::ListsAt(lists, size) => rows.of_lists(alloc, Listed(lists), *size, len),
        Picks::ListsAtNumbers(ptype, lists, size) => {
            call_native!(
                *ptype,
                gather_lists_at_numbers::<G>(alloc, rows, lists, *size, len)
            )
        }
    }
}

// The rows at the positions that are the numbers in these bytes.
fn gather_at_numbers<G: Gather, T: NativePType>(
    alloc: Global,
    rows: G,
    places: &[u8],
) -> Result<G::Gathered, VortexError>
    requires { G.HasRows rows (map unsigned_abs (numbers T.PTYPE places.now)) }
    ensures { Gives result (G.AreGathered rows (map unsigned_abs (numbers T.PTYPE places.now))) }
{
    rows.at(alloc, Numbered::<T>::new(places))
}

// The rows of the lists of `size` rows each, of which the numbers in these bytes tell which.
fn gather_lists_at_numbers<G: Gather, T: NativePType>(
    alloc: Global,
    rows: G,
    places: &[u8],
    size: usize,
    len: usize,
) -> Result<G::Gathered, VortexError>
    requires within { G.HasRows rows (flat_map (list_positions size) (map unsigned_abs (numbers T.PTYPE places.now))) }
    requires len { len ≡ length (flat_map (list_positions size) (map unsigned_abs (numbers T.PTYPE places.now))) }
    ensures { Gives result (G.AreGathered rows (flat_map (list_positions size) (map unsigned_abs (numbers T.PTYPE places.now)))) }
{
    rows.of_lists(alloc, Numbered::<T>::new(places), size, len)
}
