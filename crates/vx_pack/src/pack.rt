// The packed form of arrays.

ghost use Rattle.std.specs.Prelude.{◌≡◌, IfErr, IfOk};
ghost use Rattle.vx_tree.specs.Meaning.{kind_of, rows};
ghost use Rattle.vx_pack.specs.Packed.{IsPackRefused, IsPacked};

use crate::pack_rows::pack_rows;
use crate::parts::part_of;
use crate::pieces::Piece;
use std::alloc::Global;
use vx_base::VortexError;
use vx_tree::ArrayRef;

/// What can be made anew of its rows alone.
pub trait Pack: Sized {
    /// The packed form of the rows: one array, whatever layouts they come in, with nothing in it
    /// but them. It is made of the data type and the rows alone, so two columns have the same data
    /// type and equal rows exactly where they pack to the same parts.
    ///
    /// No part is constant or coded, at any depth. Truth values are bits and numbers their bytes,
    /// false and 0 where they are null. A value of at most 12 bytes stands in its view, the others
    /// one after another in the fewest buffers. Lists stand end to end, their flag set, with
    /// offsets and sizes of I32 where it holds the number of all elements, and of I64 else. Under a
    /// null list there is no element, under a null list of one size and a null record default rows.
    /// Where null may stand, no row is null by the state alone where none is, every row where all
    /// are, and else bits tell.
    ///
    /// So what was sliced, filtered or taken leaves all that was cut away behind: a text sliced
    /// out of a thousand keeps its own bytes alone.
    ///
    /// Refuses `Overflow` where, at any depth, lists have more elements than I64 counts, lists of
    /// one size more than a `usize` counts, or texts more buffers than a view can number.
    fn pack(&self, alloc: Global) -> Result<Self, VortexError>;
}

impl Pack for ArrayRef {
    fn pack(&self, alloc: Global) -> Result<ArrayRef, VortexError>
        ensures packed { IfOk result (IsPacked (kind_of self.now) (rows self.now)) }
        ensures rows { IfOk result (λ a. rows a ≡ rows self.now) }
        ensures kind { IfOk result (λ a. kind_of a ≡ kind_of self.now) }
        ensures refuses { IfErr result (IsPackRefused (kind_of self.now) (rows self.now)) }
    {
        let len = self.len();
        let pieces = [Piece::Rows(part_of(self, 0, len))];
        pack_rows(alloc, self.dtype(), &pieces, len)
    }
}
