// The rows that indices name.

ghost use Rattle.std.specs.Prelude.{◌≡◌, map, replicate, unsigned_abs};
ghost use Rattle.vx_base.specs.Integers.{numbers};

use std::marker::Model;
use vx_base::{PType, Selection};

/// The positions that indices name, where they lie: numbers, of which those of null rows may be any
/// positions, one position, where the rows are all one or null, else a list. For the crates above.
#[derive(Drop)]
pub struct Indices<'a> {
    form: Form<'a>,
}

// The forms.
#[derive(Drop)]
enum Form<'a> {
    Numbers(PType, &'a [u8]),
    OwnNumbers(PType, Vec<u8>),
    Positions(Vec<usize>),
    Repeated(usize, usize),
}

impl<'a> Model for Indices<'a> {
    ghost use Rattle.std.specs.Prelude.{ℕ, List};
    ghost use Rattle.vx_tree.specs.Named.{named_by};

    ghost Value = { List ℕ };

    ghost view = { λ s. named_by s.form };
}

impl<'a> Indices<'a> {
    // The positions that these numbers are, each without its sign.
    pub(crate) fn of_numbers(ptype: PType, bytes: &'a [u8]) -> Indices<'a>
        ensures { result ≡ map unsigned_abs (numbers ptype bytes.now) }
    {
        Indices {
            form: Form::Numbers(ptype, bytes),
        }
    }

    // The positions that numbers in bytes of its own are, each without its sign.
    pub(crate) fn of_own_numbers(ptype: PType, bytes: Vec<u8>) -> Indices<'a>
        ensures { result ≡ map unsigned_abs (numbers ptype bytes.items) }
    {
        Indices {
            form: Form::OwnNumbers(ptype, bytes),
        }
    }

    // These positions.
    pub(crate) fn of_positions(positions: Vec<usize>) -> Indices<'a>
        ensures { result ≡ positions.items }
    {
        Indices {
            form: Form::Positions(positions),
        }
    }

    // One position, `len` times.
    pub(crate) fn repeated(position: usize, len: usize) -> Indices<'a>
        ensures { result ≡ replicate len position }
    {
        Indices {
            form: Form::Repeated(position, len),
        }
    }

    /// The rows at the positions. For the crates above.
    pub fn selection(&self) -> Selection<'_>
        ensures { result ≡ self.now }
    {
        let positions = match &self.form {
            Form::Numbers(ptype, bytes) => return Selection::at_numbers(*ptype, bytes),
            Form::OwnNumbers(ptype, bytes) => return Selection::at_numbers(*ptype, bytes),
            Form::Repeated(position, len) => return Selection::repeated(*position, *len),
            Form::Positions(positions) => positions,
        };
        Selection::at_positions(positions)
    }
}
