// Truth values, and which rows are valid.

ghost use Rattle.std.specs.Prelude.{◌≡◌, ◌<◌, ℕ, true, IsTrue};
ghost use Rattle.vx_tree.specs.Formed.{ValidReads};
ghost use Rattle.vx_tree.specs.Meaning.{is_valid_at, row_at, tree_len};
ghost use Rattle.vx_tree.specs.Parts.{valid_of};
ghost use Rattle.vx_pack.specs.RowForms.{truth_in};

use crate::places::place_of;
use crate::values::truth_of;
use vx_tree::{ArrayRef, Layout, Validity};

// The truth value that a row is, where it is one.
#[cycle(truth)]
#[tactic(auto, using(crate::proofs::RowForms::masked, vx_tree::specs::Formed::valid_reads))]
pub(crate) fn truth_at(array: &ArrayRef, row: usize) -> Option<bool>
    requires { row < tree_len array.now }
    ensures { result ≡ truth_in (row_at array.now row) }
{
    let place = place_of(array, row)?;
    match place.array.layout() {
        Layout::Bool { bits, validity } => {
            if is_valid_at(validity, place.row) {
                Some(bits.value(place.row))
            } else {
                None
            }
        }
        Layout::Constant { scalar, .. } => truth_of(scalar.value()),
        Layout::Primitive { .. } | Layout::VarBinView { .. } | Layout::Dict { .. } => None,
        Layout::FixedSizeList { .. } | Layout::ListView { .. } | Layout::Struct { .. } => None,
    }
}

// Whether a row is valid.
#[cycle(truth)]
pub(crate) fn is_valid_at(validity: &Validity, row: usize) -> bool
    requires { ValidReads (valid_of validity.now) row }
    ensures { result ≡ is_valid_at (valid_of validity.now) row }
{
    match validity {
        Validity::NonNullable | Validity::AllValid => true,
        Validity::AllInvalid => false,
        Validity::Array(array) => truth_at(array, row) == Some(true),
    }
}

// Whether the state alone says that every row is valid.
#[inline(always)]
pub(crate) fn is_full(validity: &Validity) -> bool
    ensures { IsTrue result → (i : ℕ) → is_valid_at (valid_of validity.now) i ≡ true }
{
    match validity {
        Validity::NonNullable | Validity::AllValid => true,
        Validity::AllInvalid | Validity::Array(_) => false,
    }
}
