//! Pages of lists, as a writer appends and stores them.

ghost use Rattle.std.specs.Prelude.{◌≡◌, ◌≢◌, ◌<◌, ◌-◌, ◌++◌, ◌∷◌, ◌+◌, [], Bool, true, false, map, IfOk, slice_range};
ghost use Rattle.vx_base.specs.Kinds.{Kind, integers, lists};
ghost use Rattle.vx_base.specs.Refusals.{Refuses, or_else};
ghost use Rattle.vx_base.specs.Rows.{list_in};
ghost use Rattle.vx_base.specs.declared.ptypes.PType.TheVariants.{U64};
ghost use Rattle.vx_canonical.specs.Concatenated.{concat_fault};
ghost use Rattle.vx_tree.specs.Faults.{slice_fault};
ghost use Rattle.vx_tree.specs.Meaning.{kind_of, rows, tree_len};
ghost use Rattle.vx_tree.specs.Plain.{IsPlain};
ghost use Rattle.vx_lists.specs.declared.list_view.rebuild.ListViewRebuildMode.TheVariants.{MakeZeroCopyToList};
ghost use Rattle.vx_lists.specs.ListViews.Faults.{rebuild_fault};
ghost use Rattle.vx_lists.specs.ListViews.Layout.{canonical};
ghost use Rattle.vx_lists.specs.ListViews.{flag_of, is_list_view, list_layout_of, offsets_of, sizes_of};
ghost use Rattle.vx_uses.specs.AppendedLists.{AreJoinedLists, end_to_end_fault};

use std::alloc::Global;
use std::ops::Range;
use vx_base::VortexError;
use vx_canonical::Concatenate;
use vx_lists::laws::list_views_stand_for_their_lists;
use vx_lists::{ListViewArray, ListViewRebuildMode};
use vx_tree::row_laws::rows_stand_at_their_places;
use vx_tree::{ArrayRef, TypedArray};

/// A page of a column of lists to which another column is appended, the lists end to end, as a
/// writer stores it: of `[1, 2]`, `[3]` and `[4]`, `[5, 6]` the page `1..4` has `[3]`, `[4]`,
/// `[5, 6]`, with the offsets 0, 1, 2 and the sizes 1, 1, 2, both of type `u64`. A page without
/// lists keeps the elements of both columns.
///
/// Refuses in this order: as `ArrayRef::concat` does of both columns; `OutOfBounds` where the page
/// does not lie within both together; then `Overflow` where the lists of the page have more
/// elements than a `u64` counts, as lists that overlap may, or more than can be taken.
pub fn appended_page(
    alloc: Global,
    first: &ListViewArray,
    later: &ListViewArray,
    page: Range<usize>,
) -> Result<ListViewArray, VortexError>
    ensures rows { IfOk result (λ a. rows a
        ≡ slice_range (rows first.now ++ rows later.now) page.start page.end) }
    ensures kind { IfOk result (λ a. kind_of a ≡ kind_of first.now) }
    ensures flag { IfOk result (λ a. flag_of a ≡ true) }
    ensures offsets { IfOk result (λ a. kind_of (offsets_of a) ≡ integers U64 false) }
    ensures sizes { IfOk result (λ a. kind_of (sizes_of a) ≡ integers U64 false) }
    ensures laid_out { page.start < page.end → IfOk result (λ a. list_layout_of a
        ≡ canonical (map list_in (slice_range (rows first.now ++ rows later.now) page.start page.end))) }
    ensures refuses { Refuses result (or_else (concat_fault (first.now ∷ later.now ∷ []))
        (or_else (slice_fault (tree_len first.now + tree_len later.now) page.start page.end)
        (end_to_end_fault (kind_of first.now)
        (slice_range (rows first.now ++ rows later.now) page.start page.end)))) }
{
    rows_stand_at_their_places();
    let joined = joined_lists(alloc, first, later)?;
    let lists = page_of_lists(alloc, &joined, page)?;
    laid_end_to_end(alloc, &lists)
}

// The lists of two columns, one after the other.
fn joined_lists(
    alloc: Global,
    first: &ListViewArray,
    later: &ListViewArray,
) -> Result<ListViewArray, VortexError>
    ensures rows { IfOk result (λ a. rows a ≡ rows first.now ++ rows later.now) }
    ensures kind { IfOk result (λ a. kind_of a ≡ kind_of first.now) }
    ensures joined { IfOk result AreJoinedLists }
    ensures refuses { Refuses result (concat_fault (first.now ∷ later.now ∷ [])) }
{
    let both = [
        first.as_array().try_clone(alloc)?,
        later.as_array().try_clone(alloc)?,
    ];
    let joined = ArrayRef::concat(alloc, &both)?;
    plain_lists_are_list_views(&joined);
    let Ok(lists) = ListViewArray::try_from_array(joined) else {
        unreachable!()
    };
    Ok(lists)
}

// Lists in plain layout are a list view.
fn plain_lists_are_list_views(array: &ArrayRef)
    requires { IsPlain array.now }
    ensures { (item : Kind) (m : Bool) → kind_of array.now ≡ lists item m →
        is_list_view array.now ≡ true }
{
    array.layout();
}

// A page of joined lists.
fn page_of_lists(
    alloc: Global,
    joined: &ListViewArray,
    page: Range<usize>,
) -> Result<ListViewArray, VortexError>
    requires { AreJoinedLists joined.now }
    ensures rows { IfOk result (λ a. rows a ≡ slice_range (rows joined.now) page.start page.end) }
    ensures kind { IfOk result (λ a. kind_of a ≡ kind_of joined.now) }
    ensures len { IfOk result (λ a. tree_len a ≡ page.end - page.start) }
    ensures joined { IfOk result AreJoinedLists }
    ensures refuses { Refuses result (slice_fault (tree_len joined.now) page.start page.end) }
{
    let lists = joined.as_array().slice(alloc, page)?;
    let Ok(lists) = ListViewArray::try_from_array(lists) else {
        unreachable!()
    };
    Ok(lists)
}

// Joined lists, end to end.
fn laid_end_to_end(alloc: Global, lists: &ListViewArray) -> Result<ListViewArray, VortexError>
    requires { AreJoinedLists lists.now }
    ensures rows { IfOk result (λ a. rows a ≡ rows lists.now) }
    ensures kind { IfOk result (λ a. kind_of a ≡ kind_of lists.now) }
    ensures flag { IfOk result (λ a. flag_of a ≡ true) }
    ensures offsets { IfOk result (λ a. kind_of (offsets_of a) ≡ integers U64 false) }
    ensures sizes { IfOk result (λ a. kind_of (sizes_of a) ≡ integers U64 false) }
    ensures laid_out { tree_len lists.now ≢ 0 →
        IfOk result (λ a. list_layout_of a ≡ canonical (map list_in (rows lists.now))) }
    ensures refuses { Refuses result (end_to_end_fault (kind_of lists.now) (rows lists.now)) }
{
    joined_lists_are_refused_by_their_rows(lists);
    Ok(lists.rebuild(alloc, ListViewRebuildMode::MakeZeroCopyToList)?)
}

// What refuses to lay joined lists end to end, by their rows.
fn joined_lists_are_refused_by_their_rows(lists: &ListViewArray)
    requires { AreJoinedLists lists.now }
    ensures { rebuild_fault MakeZeroCopyToList lists.now
        ≡ end_to_end_fault (kind_of lists.now) (rows lists.now) }
{
    list_views_stand_for_their_lists();
    lists.as_array().known();
}
