// Lists of one size of arrays, one array after another.

ghost use Rattle.std.specs.Prelude.{◌≡◌, map, IfOk};
ghost use Rattle.vx_base.specs.Refusals.{Gives};
ghost use Rattle.std.specs.List.{All};
ghost use Rattle.vx_base.specs.Kinds.{fixed_lists};
ghost use Rattle.vx_tree.specs.Meaning.{kind_of, nullable};
ghost use Rattle.vx_canonical.specs.Joined.{joined_len, IsJoined, IsValidJoined, HasJoinedNumbers, elements_in, AreFixedLists};
ghost use Rattle.vx_tree.specs.Parts.{valid_of};

use std::alloc::Global;
use vx_base::VortexError;
use vx_tree::{ArrayRef, Layout, Validity};

// The lists of arrays, one array after another, under the validity of them. Asks that the
// elements are those of the arrays, one array after another.
pub(crate) fn join_fixed_lists(
    alloc: Global,
    elements: ArrayRef,
    size: u32,
    arrays: &[ArrayRef],
    len: usize,
    validity: Validity,
) -> Result<ArrayRef, VortexError>
    requires lists { All (AreFixedLists size) arrays.now }
    requires elements { IsJoined (kind_of elements) (map elements_in arrays.now) elements }
    requires len { len ≡ joined_len arrays.now }
    requires valid { IsValidJoined (nullable (valid_of validity)) arrays.now (valid_of validity) }
    ensures joined { Gives result (IsJoined (fixed_lists (kind_of elements) size (nullable (valid_of validity))) arrays.now) }
    ensures numbers { HasJoinedNumbers (map elements_in arrays.now) elements → IfOk result (HasJoinedNumbers arrays.now) }
{
    let _ = arrays;
    ArrayRef::fixed_size_list(alloc, elements, size, validity, len)
}

// The elements of arrays of lists.
pub(crate) fn elements_of(alloc: Global, arrays: &[ArrayRef]) -> Result<Vec<ArrayRef>, VortexError>
    ensures { Gives result (λ list. list.items ≡ map elements_in arrays.now) }
{
    let mut list = Vec::with_capacity(alloc, arrays.len())?;
    for array in arrays {
        let elements = match array.layout() {
            Layout::FixedSizeList { elements, .. } => elements,
            Layout::ListView { elements, .. } => elements,
            _ => array,
        };
        list.push(elements.try_clone(alloc)?)?;
    }
    Ok(list)
}
