// Arrays in the plain layout of their data type.

ghost use Rattle.std.specs.Prelude.{◌≡◌, IfOk};
ghost use Rattle.vx_base.specs.Refusals.{Refuses};
ghost use Rattle.vx_tree.specs.Meaning.{rows};
ghost use Rattle.vx_tree.specs.CanonicalFaults.{canonical_fault};
ghost use Rattle.vx_tree.specs.Plain.{IsPlain};
ghost use Rattle.vx_canonical.specs.Canonical.{IsCanonical, IsCanonicalWithin};

use crate::canonical::canonical;
use crate::countable_rows::has_countable_rows;
use crate::is_plain::is_plain;
use std::alloc::Global;
use vx_base::VortexError;
use vx_tree::ArrayRef;

/// What has a plain layout.
pub trait ToCanonical {
    /// The same rows in the plain layout of their data type: no part is a constant or a dictionary,
    /// also not in a validity. A list view keeps its numbers, its flag and the rows of its
    /// elements, texts and byte lists their views and buffers, and so does each part, at every
    /// depth; a constant list has its elements once, a constant text one buffer at most, whatever
    /// the length; a dictionary has the elements and the buffers of its values, also if it has no
    /// values, and where it has some, offsets and sizes of their types. Lists that a constant or a
    /// dictionary becomes have the flag false. An array that is plain already is shared. Refuses by
    /// the first fault of the parts in their order, the values of a dictionary first: a constant
    /// with `Overflow` where all of its rows, or the elements of a list in its row, need more
    /// elements of lists of one size than can be counted, or its row more than 4294967296 buffers
    /// in one layout; a dictionary with `Overflow` where the rows of its codes need too many
    /// elements. Of the values 7, 9 and the codes 1, null, 0, 1 it makes the numbers 9, null, 7, 9.
    fn to_canonical(&self, alloc: Global) -> Result<ArrayRef, VortexError>;
}

impl ToCanonical for ArrayRef {
    #[tactic(auto, using(crate::proofs::PlainTests::plain_tests))]
    fn to_canonical(&self, alloc: Global) -> Result<ArrayRef, VortexError>
        ensures rows { IfOk result (λ a. rows a ≡ rows self.now) }
        ensures canonical { IfOk result (IsCanonical self.now) }
        ensures within { IfOk result (IsCanonicalWithin self.now) }
        ensures shared { IsPlain self.now → IfOk result (λ a. a ≡ self.now) }
        ensures refuses { Refuses result (canonical_fault self.now) }
    {
        if is_plain(self) {
            return Ok(self.try_clone(alloc)?);
        }
        if !has_countable_rows(self) {
            return Err(VortexError::Overflow);
        }
        canonical(alloc, self)
    }
}
