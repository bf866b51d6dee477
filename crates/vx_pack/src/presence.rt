// Which rows are there, as layouts tell it.

ghost use Rattle.std.specs.Prelude.{◌≡◌, ℕ, IfSome};
ghost use Rattle.vx_base.specs.Kinds.{Kind};
ghost use Rattle.vx_base.specs.Rows.{is_present};
ghost use Rattle.vx_tree.specs.Meaning.{is_valid_at, row_at};
ghost use Rattle.vx_tree.specs.Parts.{valid_of};
ghost use Rattle.vx_pack.specs.Parts.{part_row};

use crate::parts::Part;
use crate::stored_bits::validity_in;
use vx_tree::{ArrayRef, Layout, Validity};

impl<'a> Part<'a> {
    // Whether the layout tells that all rows are there, or that all are null.
    pub fn presence(self) -> Option<bool>
        ensures { IfSome result (λ b. (k : Kind) (i : ℕ) → is_present (part_row k self.entry i) ≡ b) }
    {
        match self {
            Part::Array(array, _, _) => presence_of(array),
            Part::Values(_) => None,
        }
    }
}

// Whether the layout of an array tells that all its rows are there, or that all are null.
pub(crate) fn presence_of(array: &ArrayRef) -> Option<bool>
    ensures { IfSome result (λ b. (i : ℕ) → is_present (row_at array.now i) ≡ b) }
{
    if let Layout::Constant { scalar, .. } = array.layout() {
        return Some(scalar.value().is_some());
    }
    state_of(validity_in(array)?)
}

// Whether the state alone says that all rows are valid, or that none is.
fn state_of(validity: &Validity) -> Option<bool>
    ensures { IfSome result (λ b. (i : ℕ) → is_valid_at (valid_of validity.now) i ≡ b) }
{
    match validity {
        Validity::NonNullable | Validity::AllValid => Some(true),
        Validity::AllInvalid => Some(false),
        Validity::Array(_) => None,
    }
}
