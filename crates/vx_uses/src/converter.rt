//! Columns of lists as a format of offsets alone stores them.

ghost use Rattle.std.specs.Prelude.{◌≡◌, ◌≢◌, ◌↔◌, map, true, false, IfOk, IsOkUnless, IsTrue};
ghost use Rattle.std.specs.List.{flat_map};
ghost use Rattle.vx_base.specs.Refusals.{Refuses};
ghost use Rattle.vx_base.specs.declared.errors.VortexError.TheVariants.{Memory};
ghost use Rattle.vx_tree.specs.Formed.{IsConsecutive};
ghost use Rattle.vx_tree.specs.Meaning.{kind_of, rows, tree_len};
ghost use Rattle.vx_lists.specs.declared.list_view.rebuild.ListViewRebuildMode.TheVariants.{MakeZeroCopyToList};
ghost use Rattle.vx_lists.specs.ListViews.Layout.{items_of, size_of};
ghost use Rattle.vx_lists.specs.ListViews.{counts_in, elements_of, flag_of, list_rows, offsets_of, sizes_of, with_flag};
ghost use Rattle.vx_lists.specs.ListViews.Faults.{rebuild_overflow, rebuild_fault};
ghost use Rattle.vx_uses.specs.Uses.{AreListOffsets, AreListsOf, first_start, list_offsets, offsets_by};

use crate::list_laws::list_views_have_lists_of_their_elements;
use std::alloc::Global;
use vx_base::VortexError;
use vx_lists::laws::{
    counts_stand_at_their_places, joined_rows_have_all_elements, list_views_stand_for_their_lists,
};
use vx_lists::{ListViewArray, ListViewArrayExt, ListViewRebuildMode};
use vx_tree::row_laws::{
    masks_stand_at_their_places, rows_are_equal_by_place, rows_stand_at_their_places,
};
use vx_tree::{ArrayRef, TypedArray};

/// Lists by offsets alone: list `i` is the elements from offset `i` up to offset `i + 1`.
#[derive(Drop)]
pub struct ListColumn {
    /// Where each list starts among the elements, and at last where the last one ends.
    pub offsets: Vec<usize>,
    /// The elements that the lists lie in.
    pub elements: ArrayRef,
}

/// The lists end to end, with one offset more than there are lists. A null list has no elements.
pub fn lists_end_to_end(alloc: Global, lists: &ListViewArray) -> Result<ListColumn, VortexError>
    ensures offsets { IfOk result (λ c.
        c.offsets.items ≡ list_offsets 0 (map size_of (list_rows lists.now))) }
    ensures elements { IfOk result (λ c. rows c.elements ≡ flat_map items_of (list_rows lists.now)) }
    ensures kind { IfOk result (λ c. AreListsOf (kind_of c.elements) (kind_of lists.now)) }
    ensures refuses { Refuses result (rebuild_overflow lists.now) }
{
    counts_stand_at_their_places();
    rows_stand_at_their_places();
    joined_rows_have_all_elements();
    let rebuilt = lists.rebuild_by_take(alloc)?;
    let mut offsets = Vec::with_capacity(alloc, rebuilt.len())?;
    for i in 0..rebuilt.offsets().len() {
        offsets.push(rebuilt.offset_at(i))?;
    }
    offsets.push(rebuilt.elements().len())?;
    let elements = rebuilt.elements().try_clone(alloc)?;
    Ok(ListColumn { offsets, elements })
}

/// A list view whose flag says whether its lists lie one after another, null ones counted, which is
/// read from its offsets and sizes: all else stays. Where they do, `lists_by_offsets` copies no
/// element. Fails only for want of memory.
pub fn flagged_lists(alloc: Global, lists: ListViewArray) -> Result<ListViewArray, VortexError>
    ensures same { IfOk result (λ a. a ≡ with_flag (flag_of a) lists) }
    ensures flag { IfOk result (λ a.
        IsTrue (flag_of a) ↔ IsConsecutive (offsets_of lists) (sizes_of lists)) }
    ensures rows { IfOk result (λ a. rows a ≡ rows lists) }
    ensures err { IsOkUnless result Memory }
{
    list_views_have_lists_of_their_elements(&lists);
    let follow = lists.is_consecutive();
    Ok(lists.with_zero_copy_to_list(alloc, follow)?)
}

/// The lists of a flagged list view where they lie, over its own elements, none of which is copied.
/// The offsets are where its first list starts, and so much further what the sizes before sum to:
/// sizes 2, 0, 3 from 4 on have the offsets 4, 6, 6, 9. Fails only for want of memory.
pub fn zero_copy_lists(alloc: Global, lists: &ListViewArray) -> Result<ListColumn, VortexError>
    requires { flag_of lists.now ≡ true }
    ensures offsets { IfOk result (λ c. c.offsets.items
        ≡ list_offsets (first_start lists.now) (counts_in (sizes_of lists.now))) }
    ensures lists { IfOk result (λ c. AreListOffsets lists.now (rows c.elements) c.offsets.items) }
    ensures elements { IfOk result (λ c. c.elements ≡ elements_of lists.now) }
    ensures kind { IfOk result (λ c. AreListsOf (kind_of c.elements) (kind_of lists.now)) }
    ensures err { IsOkUnless result Memory }
{
    counts_stand_at_their_places();
    rows_stand_at_their_places();
    masks_stand_at_their_places();
    list_views_stand_for_their_lists();
    let mut offsets = Vec::with_capacity(alloc, lists.len())?;
    let mut end = 0;
    for i in 0..lists.offsets().len() {
        let start = lists.offset_at(i);
        offsets.push(start)?;
        end = start + lists.size_at(i);
    }
    offsets.push(end)?;
    let elements = lists.elements().try_clone(alloc)?;
    Ok(ListColumn { offsets, elements })
}

/// The lists of any list view by offsets alone: a flagged one is taken as it is, another is laid
/// out anew first, which refuses `Overflow` where the total of its sizes passes the new offsets.
/// Then null lists have no elements, and the offsets are 0 and the sums of the sizes up to each list.
pub fn lists_by_offsets(alloc: Global, lists: &ListViewArray) -> Result<ListColumn, VortexError>
    ensures offsets { IfOk result (λ c. c.offsets.items ≡ offsets_by (flag_of lists.now) lists.now) }
    ensures lists { IfOk result (λ c. AreListOffsets lists.now (rows c.elements) c.offsets.items) }
    ensures shared { flag_of lists.now ≡ true →
        IfOk result (λ c. c.elements ≡ elements_of lists.now) }
    ensures laid_out { flag_of lists.now ≡ false → tree_len lists.now ≢ 0 →
        IfOk result (λ c. rows c.elements ≡ flat_map items_of (list_rows lists.now)) }
    ensures kind { IfOk result (λ c. AreListsOf (kind_of c.elements) (kind_of lists.now)) }
    ensures refuses { Refuses result (rebuild_fault MakeZeroCopyToList lists.now) }
{
    counts_stand_at_their_places();
    rows_stand_at_their_places();
    rows_are_equal_by_place();
    list_views_have_lists_of_their_elements(lists);
    let rebuilt = lists.rebuild(alloc, ListViewRebuildMode::MakeZeroCopyToList)?;
    Ok(zero_copy_lists(alloc, &rebuilt)?)
}
