// The rows of lists.

ghost use Rattle.std.specs.Prelude.{◌≡◌, ◌<◌, ℕ, true, IfSome};
ghost use Rattle.vx_base.specs.Kinds.{Kind};
ghost use Rattle.vx_tree.specs.Layouts.{is_fixed_list, is_list_view};
ghost use Rattle.vx_tree.specs.Meaning.{kind_of, row_at, tree_len};
ghost use Rattle.vx_pack.specs.Lists.{IsItemOf, IsListIn};
ghost use Rattle.vx_pack.specs.Pieces.{AreAllItems, blank_of};
ghost use Rattle.vx_pack.specs.Parts.{IsPart, IsWithin, part_len, part_row};

use crate::codes::count_at;
use crate::parts::{Part, part_of, part_of_values};
use crate::places::place_of;
use crate::truths::{is_full, is_valid_at};
use crate::values::items_of;
use vx_tree::{ArrayRef, Layout};

impl<'a> Part<'a> {
    // The rows of the list that row `i` is, where it is one.
    #[inline(always)]
    pub fn list(self, i: usize) -> Option<Part<'a>>
        requires within { IsWithin self }
        requires in_bounds { i < part_len self }
        ensures { (item k : Kind) → IsItemOf item k → IsPart k self.entry →
            IsListIn item (part_row k self.entry i) result }
    {
        match self {
            Part::Array(array, start, _) => list_at(array, start + i),
            Part::Values(values) => Some(part_of_values(items_of(&values[i])?)),
        }
    }

    // The elements of all rows, where these are lists of one size that stand one after another and
    // none is null.
    pub fn elements(self) -> Option<Part<'a>>
        requires { IsWithin self }
        ensures { IfSome result (λ p. (item k : Kind) (blank : ℕ) → IsItemOf item k → blank_of k ≡ blank → IsPart k self.entry →
            AreAllItems item blank k self.entry p) }
    {
        let Part::Array(array, start, len) = self else {
            return None;
        };
        let Layout::FixedSizeList {
            elements,
            size,
            validity,
            ..
        } = array.layout()
        else {
            return None;
        };
        if !is_full(validity) {
            return None;
        }
        elements.known_len();
        let size = *size as usize;
        Some(part_of(elements, start * size, len * size))
    }
}

// The rows of the list that a row is, where it is one: those of a list view with no way to it.
#[inline(always)]
fn list_at(array: &ArrayRef, row: usize) -> Option<Part<'_>>
    requires { row < tree_len array.now }
    ensures { (item : Kind) → IsItemOf item (kind_of array.now) →
        IsListIn item (row_at array.now row) result }
{
    match array.layout() {
        Layout::ListView { .. } => list_of_view(array, row),
        _ => list_of_place(array, row),
    }
}

// The rows of the list that a row is, where it is one, in any layout.
fn list_of_place(array: &ArrayRef, row: usize) -> Option<Part<'_>>
    requires { row < tree_len array.now }
    ensures { (item : Kind) → IsItemOf item (kind_of array.now) →
        IsListIn item (row_at array.now row) result }
{
    let place = place_of(array, row)?;
    match place.array.layout() {
        Layout::FixedSizeList { .. } => list_of_size(place.array, place.row),
        Layout::ListView { .. } => list_of_view(place.array, place.row),
        Layout::Constant { scalar, .. } => Some(part_of_values(items_of(scalar.value())?)),
        Layout::Bool { .. } | Layout::Primitive { .. } | Layout::VarBinView { .. } => None,
        Layout::Dict { .. } | Layout::Struct { .. } => None,
    }
}

// The rows of the list that a row is, where it is one, of lists of one size.
fn list_of_size(array: &ArrayRef, row: usize) -> Option<Part<'_>>
    requires layout { is_fixed_list array.now ≡ true }
    requires in_bounds { row < tree_len array.now }
    ensures { (item : Kind) → IsItemOf item (kind_of array.now) →
        IsListIn item (row_at array.now row) result }
{
    let Layout::FixedSizeList {
        elements,
        size,
        validity,
        ..
    } = array.layout()
    else {
        unreachable!();
    };
    if !is_valid_at(validity, row) {
        return None;
    }
    elements.known_len();
    let size = *size as usize;
    Some(part_of(elements, row * size, size))
}

// The rows of the list that a row is, where it is one, of a list view.
#[inline(always)]
fn list_of_view(array: &ArrayRef, row: usize) -> Option<Part<'_>>
    requires layout { is_list_view array.now ≡ true }
    requires in_bounds { row < tree_len array.now }
    ensures { (item : Kind) → IsItemOf item (kind_of array.now) →
        IsListIn item (row_at array.now row) result }
{
    let Layout::ListView {
        elements,
        offsets,
        sizes,
        validity,
        ..
    } = array.layout()
    else {
        unreachable!();
    };
    if !is_valid_at(validity, row) {
        return None;
    }
    Some(part_of(elements, count_at(offsets, row), count_at(sizes, row)))
}
