// Parts of columns: rows that are read where they stand.

ghost use Rattle.std.specs.Prelude.{◌≡◌, ◌<◌, ◌≤◌, ◌+◌, IsTrue, option_map};
ghost use Rattle.vx_base.specs.Kinds.{Kind};
ghost use Rattle.vx_base.specs.Refusals.{Gives};
ghost use Rattle.vx_base.specs.Rows.{is_present, number_in};
ghost use Rattle.vx_tree.specs.Meaning.{tree_len};
ghost use Rattle.vx_tree.specs.Values.{bytes_in};
ghost use Rattle.vx_pack.specs.Parts.{AreAllOne, AreNumbers, AreValuesOf, IsFirstOf, IsPartOf, IsWithin, part_len, part_row};
ghost use Rattle.vx_pack.specs.RowForms.{truth_in};

use crate::one_row::has_one_row;
use crate::texts::bytes_at;
use crate::truths::truth_at;
use crate::values::{bytes_of, number_of, truth_of};
use std::alloc::Global;
use vx_base::{ScalarValue, VortexError};
use vx_tree::ArrayRef;

// Rows, one after another.
#[derive(Clone, Copy)]
pub(crate) enum Part<'a> {
    // Of an array, from a row on, so many.
    Array(&'a ArrayRef, usize, usize),
    // The rows that values stand for.
    Values(&'a [Option<ScalarValue>]),
}

// So many rows of an array, from one on.
#[tactic(auto, using(vx_tree::proofs::Fitting::rows_fit))]
pub(crate) fn part_of(array: &ArrayRef, start: usize, len: usize) -> Part<'_>
    requires { start + len ≤ tree_len array.now }
    ensures { IsPartOf array.now start len result }
{
    array.known();
    array.known_len();
    Part::Array(array, start, len)
}

// The rows that values stand for.
pub(crate) fn part_of_values(values: &[Option<ScalarValue>]) -> Part<'_>
    ensures { AreValuesOf values.now result }
{
    Part::Values(values)
}

impl<'a> Part<'a> {
    // How many rows there are.
    #[inline(always)]
    pub fn len(self) -> usize
        ensures { result ≡ part_len self.entry }
    {
        match self {
            Part::Array(_, _, len) => len,
            Part::Values(values) => values.len(),
        }
    }

    // The first row, where there is one.
    pub fn first(self) -> Part<'a>
        ensures { IsFirstOf self.entry result }
    {
        match self {
            Part::Array(array, start, len) => Part::Array(array, start, len.min(1)),
            Part::Values(values) => Part::Values(&values[..values.len().min(1)]),
        }
    }

    // Whether the layout says that all rows are one.
    pub fn has_one_row(self) -> bool
        ensures { (k : Kind) → IsTrue result → AreAllOne k self.entry }
    {
        match self {
            Part::Array(array, _, _) => has_one_row(array),
            Part::Values(_) => false,
        }
    }

    // Whether row `i` is not null.
    pub fn is_present(self, alloc: Global, i: usize) -> Result<bool, VortexError>
        requires within { IsWithin self }
        requires in_bounds { i < part_len self }
        ensures { Gives result (λ b. (k : Kind) → b ≡ is_present (part_row k self.entry i)) }
    {
        match self {
            Part::Array(array, start, _) => array.is_valid(alloc, start + i),
            Part::Values(values) => Ok(values[i].is_some()),
        }
    }

    // The truth value that row `i` is, where it is one.
    pub fn truth(self, i: usize) -> Option<bool>
        requires within { IsWithin self }
        requires in_bounds { i < part_len self }
        ensures { (k : Kind) → result ≡ truth_in (part_row k self.entry i) }
    {
        match self {
            Part::Array(array, start, _) => truth_at(array, start + i),
            Part::Values(values) => truth_of(&values[i]),
        }
    }

    // The number that row `i` is, where it is one.
    pub fn number(self, i: usize) -> Option<i128>
        requires ints { AreNumbers self }
        requires within { IsWithin self }
        requires in_bounds { i < part_len self }
        ensures { (k : Kind) → result ≡ number_in (part_row k self.entry i) }
    {
        match self {
            Part::Array(array, start, _) => array.int_at(start + i),
            Part::Values(values) => number_of(&values[i]),
        }
    }

    // The bytes of row `i`, where it is a text or a byte list.
    pub fn bytes(self, i: usize) -> Option<&'a [u8]>
        requires within { IsWithin self }
        requires in_bounds { i < part_len self }
        ensures { (k : Kind) → option_map (λ b. b.now) result ≡ bytes_in (part_row k self.entry i) }
    {
        match self {
            Part::Array(array, start, _) => bytes_at(array, start + i),
            Part::Values(values) => bytes_of(&values[i]),
        }
    }
}
