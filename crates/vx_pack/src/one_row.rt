// Arrays whose rows are all one, as their layouts say.

ghost use Rattle.std.specs.Prelude.{◌≡◌, ℕ, List, IsTrue};
ghost use Rattle.vx_tree.specs.Meaning.{fields_at, row_at, trees_from};

use crate::truths::is_full;
use vx_tree::{ArrayRef, Layout};

// Whether the layout says that all rows are one: those of a constant, those that such codes name,
// and lists and records of such parts where the state says that none is null.
#[cycle(one_row)]
pub(crate) fn has_one_row(array: &ArrayRef) -> bool
    ensures { IsTrue result → (i : ℕ) → row_at array.now i ≡ row_at array.now 0 }
{
    match array.layout() {
        Layout::Constant { .. } => true,
        Layout::Dict { codes, .. } => has_one_row(codes),
        Layout::FixedSizeList {
            elements,
            validity,
            ..
        } => is_full(validity) && has_one_row(elements),
        Layout::ListView {
            offsets,
            sizes,
            validity,
            ..
        } => is_full(validity) && has_one_row(offsets) && has_one_row(sizes),
        Layout::Struct {
            columns,
            validity,
            ..
        } => is_full(validity) && have_one_row(columns),
        Layout::Bool { .. } | Layout::Primitive { .. } | Layout::VarBinView { .. } => false,
    }
}

// Whether the layout of each column says that all its rows are one.
#[cycle(one_row)]
fn have_one_row(columns: &[ArrayRef]) -> bool
    ensures { IsTrue result → (names : List (List ℕ)) (i : ℕ) →
        fields_at (trees_from columns.now) names i ≡ fields_at (trees_from columns.now) names 0 }
{
    for column in columns {
        if !has_one_row(column) {
            return false;
        }
    }
    true
}
