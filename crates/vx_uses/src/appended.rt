//! Arrays that are joined in two steps.

ghost use Rattle.std.specs.Prelude.{◌≡◌, ◌++◌, ◌∷◌, [], map, IfOk};
ghost use Rattle.std.specs.List.{All, flat_map};
ghost use Rattle.vx_base.specs.Refusals.{Refuses, or_else};
ghost use Rattle.vx_canonical.specs.Concatenated.{concat_fault};
ghost use Rattle.vx_tree.specs.Extents.{extent_of, joined_extent};
ghost use Rattle.vx_tree.specs.Meaning.{kind_of, rows};
ghost use Rattle.vx_tree.specs.Plain.{IsPlain};

use std::alloc::Global;
use vx_base::VortexError;
use vx_canonical::Concatenate;
use vx_canonical::laws::concats_of_concats_are_concats;
use vx_tree::ArrayRef;

/// The rows of arrays and then of one that comes later, as a writer appends a batch to what it has
/// joined before: `[1, 2]`, `[3]` and then `[4]` are `[1, 2, 3, 4]`. They are in plain layout.
///
/// Refuses as `ArrayRef::concat` does of the arrays that came first, then as it does of all of them
/// together: joining in two steps is refused nowhere else.
pub fn appended(
    alloc: Global,
    first: &[ArrayRef],
    later: &ArrayRef,
) -> Result<ArrayRef, VortexError>
    ensures rows { IfOk result (λ a. rows a ≡ flat_map rows first.now ++ rows later.now) }
    ensures kind { IfOk result (λ a.
        All (λ t. kind_of t ≡ kind_of a) (first.now ++ later.now ∷ [])) }
    ensures plain { IfOk result IsPlain }
    ensures extent { IfOk result (λ a. extent_of a
        ≡ joined_extent (kind_of a) (map extent_of (first.now ++ later.now ∷ []))) }
    ensures refuses { Refuses result (or_else
        (concat_fault first.now)
        (concat_fault (first.now ++ later.now ∷ []))) }
{
    concats_of_concats_are_concats();
    let both = [ArrayRef::concat(alloc, first)?, later.try_clone(alloc)?];
    ArrayRef::concat(alloc, &both)
}
