// Where a row stands, once the codes of dictionaries are followed.

ghost use Rattle.std.specs.Prelude.{◌<◌};
ghost use Rattle.vx_tree.specs.Meaning.{tree_len};
ghost use Rattle.vx_pack.specs.Places.{IsPlaceOf};

use crate::codes::code_at;
use vx_tree::{ArrayRef, Layout};

// A row of an array that is no dictionary.
#[derive(Clone, Copy)]
pub(crate) struct Place<'a> {
    pub array: &'a ArrayRef,
    pub row: usize,
}

// Where a row stands: none where a code on the way is null, and so the row.
pub(crate) fn place_of(array: &ArrayRef, row: usize) -> Option<Place<'_>>
    requires { row < tree_len array.now }
    ensures { IsPlaceOf array.now row result }
{
    let Layout::Dict { codes, values, .. } = array.layout() else {
        return Some(Place { array, row });
    };
    match code_at(codes, row, values.len()) {
        Some(code) => place_of(values, code),
        None => None,
    }
}
