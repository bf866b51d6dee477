// Records of arrays, one array after another.

ghost use Rattle.std.specs.Prelude.{◌≡◌, ◌<◌, true, length, map, IfOk};
ghost use Rattle.vx_base.specs.Refusals.{Gives};
ghost use Rattle.vx_base.specs.Kinds.{records};
ghost use Rattle.vx_tree.specs.Layouts.{is_struct};
ghost use Rattle.vx_tree.specs.Meaning.{kinds_of, trees_from, nullable};
ghost use Rattle.vx_tree.specs.Formed.{column_count};
ghost use Rattle.std.specs.List.{All};
ghost use Rattle.vx_canonical.specs.Joined.{joined_len, IsJoined, IsValidJoined, HasJoinedNumbers, HaveJoinedNumbers, AreRecords, AreColumnsJoined, columns_in, column_of};
ghost use Rattle.vx_tree.specs.Parts.{valid_of};

use std::alloc::Global;
use vx_base::{FieldNames, VortexError};
use vx_tree::{ArrayRef, Layout, Validity};

// The records of arrays, one array after another, under the validity of them. Asks that the
// columns are those of the arrays, one array after another.
pub(crate) fn join_structs(
    alloc: Global,
    names: FieldNames,
    columns: Vec<ArrayRef>,
    arrays: &[ArrayRef],
    len: usize,
    validity: Validity,
) -> Result<ArrayRef, VortexError>
    requires records { All (AreRecords names) arrays.now }
    requires columns { AreColumnsJoined arrays.now (length names) (trees_from columns.items) }
    requires len { len ≡ joined_len arrays.now }
    requires valid { IsValidJoined (nullable (valid_of validity)) arrays.now (valid_of validity) }
    ensures joined { Gives result (IsJoined (records names (kinds_of (trees_from columns.items)) (nullable (valid_of validity))) arrays.now) }
    ensures numbers { HaveJoinedNumbers arrays.now 0 (trees_from columns.items) → IfOk result (HasJoinedNumbers arrays.now) }
{
    let _ = arrays;
    ArrayRef::structure(alloc, names, columns, validity, len)
}

// The column at a place of each of these arrays of records.
pub(crate) fn columns_of(
    alloc: Global,
    arrays: &[ArrayRef],
    place: usize,
) -> Result<Vec<ArrayRef>, VortexError>
    requires layout { All (λ t. is_struct t ≡ true) arrays.now }
    requires place { All (λ t. place < column_count (columns_in t)) arrays.now }
    ensures { Gives result (λ list. list.items ≡ map (column_of place) arrays.now) }
{
    let mut list = Vec::with_capacity(alloc, arrays.len())?;
    for array in arrays {
        list.push(column_of(alloc, array, place)?)?;
    }
    Ok(list)
}

// The column at a place of an array of records.
fn column_of(alloc: Global, array: &ArrayRef, place: usize) -> Result<ArrayRef, VortexError>
    requires layout { is_struct array.now ≡ true }
    requires place { place < column_count (columns_in array.now) }
    ensures { Gives result (λ a. a ≡ column_of place array.now) }
{
    let Layout::Struct { columns, .. } = array.layout() else {
        unreachable!();
    };
    columns[place].try_clone(alloc)
}
