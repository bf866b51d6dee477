// Booleans, numbers, texts and byte lists in plain layout.

ghost use Rattle.std.specs.Prelude.{◌≡◌, true, IfOk};
ghost use Rattle.vx_base.specs.Refusals.{Gives};
ghost use Rattle.vx_tree.specs.Layouts.{is_leaf};
ghost use Rattle.vx_tree.specs.Meaning.{tree_len};
ghost use Rattle.vx_canonical.specs.Canonical.{IsCanonical, IsCanonicalAt, IsCanonicalWithin, IsPickedWithin};
ghost use Rattle.vx_tree.specs.Operations.{AreBelow};

use crate::canonical::canonical_validity;
use std::alloc::Global;
use vx_base::{Selection, VortexError};
use vx_tree::{ArrayRef, Layout};

// Booleans, numbers, texts or byte lists in plain layout: the same parts, under a plain
// validity.
#[tactic(auto, using(crate::proofs::Leaves::leaves, crate::proofs::CanonicalWithin::no_parts))]
pub(crate) fn canonical_leaf(alloc: Global, array: &ArrayRef) -> Result<ArrayRef, VortexError>
    requires { is_leaf array.now ≡ true }
    ensures plain { Gives result (IsCanonical array.now) }
    ensures within { IfOk result (IsCanonicalWithin array.now) }
{
    match array.layout() {
        Layout::Bool { validity, .. }
        | Layout::Primitive { validity, .. }
        | Layout::VarBinView { validity, .. } => {
            let validity = canonical_validity(alloc, validity, array.len())?;
            array.with_validity(alloc, validity)
        }
        _ => unreachable!(),
    }
}

// The rows that are picked of booleans, numbers, texts or byte lists, in plain layout.
pub(crate) fn canonical_leaf_at(
    alloc: Global,
    array: &ArrayRef,
    selection: &Selection,
) -> Result<ArrayRef, VortexError>
    requires leaf { is_leaf array.now ≡ true }
    requires within { AreBelow (tree_len array.now) selection.now }
    ensures rows { Gives result (IsCanonicalAt array.now selection.now) }
    ensures within { IfOk result (IsPickedWithin array.now) }
{
    let picked = array.select_within(alloc, selection)?;
    canonical_leaf(alloc, &picked)
}
