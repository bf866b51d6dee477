// Whether an array is in plain layout already.

ghost use Rattle.std.specs.Prelude.{◌≡◌};
ghost use Rattle.vx_tree.specs.Meaning.{trees_from};
ghost use Rattle.vx_tree.specs.Parts.{valid_of};
ghost use Rattle.vx_canonical.specs.PlainTests.{is_plain, are_plain, is_plain_valid};

use vx_tree::{ArrayRef, Layout, Validity};

// Whether neither it nor any of its parts is a constant or a dictionary.
#[cycle(is_plain)]
pub(crate) fn is_plain(array: &ArrayRef) -> bool
    ensures { result ≡ is_plain array.now }
{
    match array.layout() {
        Layout::Bool { validity, .. } => is_plain_validity(validity),
        Layout::Primitive { validity, .. } => is_plain_validity(validity),
        Layout::Constant { .. } => false,
        Layout::Dict { .. } => false,
        Layout::FixedSizeList {
            elements,
            validity,
            ..
        } => is_plain(elements) && is_plain_validity(validity),
        Layout::ListView {
            elements,
            offsets,
            sizes,
            validity,
            ..
        } => {
            is_plain(elements)
                && is_plain(offsets)
                && is_plain(sizes)
                && is_plain_validity(validity)
        }
        Layout::VarBinView { validity, .. } => is_plain_validity(validity),
        Layout::Struct {
            columns,
            validity,
            ..
        } => are_plain(columns) && is_plain_validity(validity),
    }
}

// Whether each of the columns is so.
#[cycle(is_plain)]
fn are_plain(columns: &[ArrayRef]) -> bool
    ensures { result ≡ are_plain (trees_from columns.now) }
{
    for column in columns {
        if !is_plain(column) {
            return false;
        }
    }
    true
}

// Whether its array is so, where it has one.
#[cycle(is_plain)]
fn is_plain_validity(validity: &Validity) -> bool
    ensures { result ≡ is_plain_valid (valid_of validity.now) }
{
    match validity {
        Validity::NonNullable => true,
        Validity::AllValid => true,
        Validity::AllInvalid => true,
        Validity::Array(array) => is_plain(array),
    }
}
