//! What is so of every list view, as laws.

ghost use Rattle.std.specs.Prelude.{◌≡◌, true};
ghost use Rattle.vx_tree.specs.Meaning.{kind_of, tree_len};
ghost use Rattle.vx_lists.specs.ListViews.{elements_of, is_list_view, offsets_of, sizes_of};
ghost use Rattle.vx_uses.specs.Uses.{AreListsOf};

use vx_lists::ListViewArray;
use vx_tree::TypedArray;

/// A list view has the layout of list views and as many offsets and sizes as rows, and its rows are
/// lists of its elements' data type.
pub fn list_views_have_lists_of_their_elements(lists: &ListViewArray)
    ensures layout { is_list_view lists.now ≡ true }
    ensures kind { AreListsOf (kind_of (elements_of lists.now)) (kind_of lists.now) }
    ensures offsets { tree_len (offsets_of lists.now) ≡ tree_len lists.now }
    ensures sizes { tree_len (sizes_of lists.now) ≡ tree_len lists.now }
{
    lists.as_array();
    lists.offsets();
    lists.sizes();
}
