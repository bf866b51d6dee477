// The fields of records.

ghost use Rattle.std.specs.Prelude.{◌≡◌, ◌<◌, ℕ, Bool, List, true, IfSome};
ghost use Rattle.vx_base.specs.Kinds.{Kind, Kinds, records};
ghost use Rattle.vx_tree.specs.Layouts.{is_struct};
ghost use Rattle.vx_tree.specs.Meaning.{kind_of, row_at, tree_len};
ghost use Rattle.vx_pack.specs.Parts.{IsPart, IsWithin, part_len, part_row};
ghost use Rattle.vx_pack.specs.Records.{AreRecords, AreRecordsIn, HasReach, IsField, IsRecordIn, field_count};

use crate::parts::{Part, part_of, part_of_values};
use crate::places::place_of;
use crate::truths::{is_full, is_valid_at};
use crate::values::fields_of;
use std::slice;
use vx_base::ScalarValue;
use vx_tree::{ArrayRef, Layout};

// Records that are there, one after another.
#[derive(Clone, Copy)]
pub(crate) enum Records<'a> {
    // The rows of columns, from a row on, so many.
    Columns(&'a [ArrayRef], usize, usize),
    // One record of these values.
    Values(&'a [Option<ScalarValue>]),
}

impl<'a> Records<'a> {
    // The field at a place, of each record.
    pub fn field(self, place: usize) -> Part<'a>
        requires reach { HasReach self }
        requires in_bounds { place < field_count self }
        ensures { (names : List (List ℕ)) (kinds : Kinds) → AreRecords names kinds self.entry →
            IsField names kinds self.entry place result }
    {
        match self {
            Records::Columns(columns, start, len) => part_of(&columns[place], start, len),
            Records::Values(values) => part_of_values(slice::from_ref(&values[place])),
        }
    }
}

impl<'a> Part<'a> {
    // The record that row `i` is, where it is one.
    pub fn record(self, i: usize) -> Option<Records<'a>>
        requires within { IsWithin self }
        requires in_bounds { i < part_len self }
        ensures { (names : List (List ℕ)) (kinds : Kinds) (n : Bool) → IsPart (records names kinds n) self.entry →
            IsRecordIn names kinds (part_row (records names kinds n) self.entry i) result }
    {
        match self {
            Part::Array(array, start, _) => record_at(array, start + i),
            Part::Values(values) => Some(Records::Values(fields_of(&values[i])?)),
        }
    }

    // All rows, where they are columns beside each other and none of them is null.
    pub fn records(self) -> Option<Records<'a>>
        ensures { IfSome result (λ rs. (names : List (List ℕ)) (kinds : Kinds) (n : Bool) →
            IsPart (records names kinds n) self.entry → AreRecordsIn names kinds self.entry rs) }
    {
        let Part::Array(array, start, len) = self else {
            return None;
        };
        let Layout::Struct {
            columns,
            validity,
            ..
        } = array.layout()
        else {
            return None;
        };
        if !is_full(validity) {
            return None;
        }
        Some(Records::Columns(columns, start, len))
    }
}

// The record that a row is, where it is one.
fn record_at(array: &ArrayRef, row: usize) -> Option<Records<'_>>
    requires { row < tree_len array.now }
    ensures { (names : List (List ℕ)) (kinds : Kinds) (n : Bool) → kind_of array.now ≡ records names kinds n →
        IsRecordIn names kinds (row_at array.now row) result }
{
    let place = place_of(array, row)?;
    match place.array.layout() {
        Layout::Struct { .. } => record_of_columns(place.array, place.row),
        Layout::Constant { scalar, .. } => Some(Records::Values(fields_of(scalar.value())?)),
        Layout::Bool { .. } | Layout::Primitive { .. } | Layout::VarBinView { .. } => None,
        Layout::Dict { .. } | Layout::FixedSizeList { .. } | Layout::ListView { .. } => None,
    }
}

// The record that a row is, where it is one, of records whose columns stand beside each other.
fn record_of_columns(array: &ArrayRef, row: usize) -> Option<Records<'_>>
    requires layout { is_struct array.now ≡ true }
    requires in_bounds { row < tree_len array.now }
    ensures { (names : List (List ℕ)) (kinds : Kinds) (n : Bool) → kind_of array.now ≡ records names kinds n →
        IsRecordIn names kinds (row_at array.now row) result }
{
    let Layout::Struct {
        columns,
        validity,
        ..
    } = array.layout()
    else {
        unreachable!();
    };
    if !is_valid_at(validity, row) {
        return None;
    }
    Some(Records::Columns(columns, row, 1))
}
