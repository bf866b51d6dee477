// Whether the rows of constants and dictionaries need no more elements than can be counted: this is
// told before any of them is made plain.

ghost use Rattle.std.specs.Prelude.{◌≡◌, None, Some, if◌then◌else◌};
ghost use Rattle.vx_base.specs.Refusals.{overflow};
ghost use Rattle.vx_tree.specs.Meaning.{trees_from};
ghost use Rattle.vx_canonical.specs.Counted.{columns_rows_overflow, rows_overflow};

use crate::canonical_zeroes::is_countable;
use vx_tree::{ArrayRef, Layout};

// Whether those in an array, at every depth, do.
#[cycle(has_countable_rows)]
pub(crate) fn has_countable_rows(array: &ArrayRef) -> bool
    ensures { rows_overflow array.now ≡ (if result then None else Some overflow) }
{
    match array.layout() {
        Layout::Bool { .. } | Layout::Primitive { .. } | Layout::VarBinView { .. } => true,
        Layout::Constant { scalar, len } => is_countable(scalar.dtype(), *len),
        Layout::Dict { codes, values, .. } => {
            has_countable_rows(values) && is_countable(values.dtype(), codes.len())
        }
        Layout::FixedSizeList { elements, .. } => has_countable_rows(elements),
        Layout::ListView { elements, .. } => has_countable_rows(elements),
        Layout::Struct { columns, .. } => have_countable_rows(columns),
    }
}

// Whether those in each of these arrays do.
#[cycle(has_countable_rows)]
pub(crate) fn have_countable_rows(arrays: &[ArrayRef]) -> bool
    ensures { columns_rows_overflow (trees_from arrays.now) ≡ (if result then None else Some overflow) }
{
    for array in arrays {
        if !has_countable_rows(array) {
            return false;
        }
    }
    true
}
