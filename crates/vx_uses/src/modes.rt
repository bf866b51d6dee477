//! Lists that a mode rebuilds, once and again.

ghost use Rattle.std.specs.Prelude.{◌≡◌, ◌<◌, false, IfOk};
ghost use Rattle.vx_base.specs.Refusals.{Refuses};
ghost use Rattle.vx_tree.specs.Meaning.{tree_len, rows};
ghost use Rattle.vx_lists.specs.ListViews.Faults.{rebuild_fault};
ghost use Rattle.vx_lists.specs.ListViews.{AreAlike};
ghost use Rattle.vx_lists.specs.ListViews.Modes.{IsRebuiltBy};

use std::alloc::Global;
use vx_base::VortexError;
use vx_lists::laws::{
    alike_views_have_equal_places, rebuilt_lists_are_not_refused, rebuilt_twice_is_rebuilt_once,
};
use vx_lists::{ListViewArray, ListViewArrayExt, ListViewRebuildMode};
use vx_tree::row_laws::rows_stand_at_their_places;

/// Lists rebuilt by a mode, whichever it is.
pub fn rebuilt_by(
    alloc: Global,
    lists: &ListViewArray,
    mode: ListViewRebuildMode,
) -> Result<ListViewArray, VortexError>
    ensures rebuilt { IfOk result (IsRebuiltBy mode lists.now) }
    ensures rows { IfOk result (λ a. rows a ≡ rows lists.now) }
    ensures refuses { Refuses result (rebuild_fault mode lists.now) }
{
    Ok(lists.rebuild(alloc, mode)?)
}

/// Lists rebuilt by a mode, and these rebuilt by it again: the second time nothing changes, and
/// nothing but want of memory refuses.
pub fn rebuilt_twice(
    alloc: Global,
    lists: &ListViewArray,
    mode: ListViewRebuildMode,
) -> Result<(ListViewArray, ListViewArray), VortexError>
    ensures alike { IfOk result (λ r. AreAlike r.0 r.1) }
    ensures rows { IfOk result (λ r. (rows r.0 ≡ rows lists.now) × (rows r.1 ≡ rows lists.now)) }
    ensures refuses { Refuses result (rebuild_fault mode lists.now) }
{
    rebuilt_twice_is_rebuilt_once();
    rebuilt_lists_are_not_refused();
    let once = rebuilt_by(alloc, lists, mode)?;
    let twice = rebuilt_by(alloc, &once, mode)?;
    Ok((once, twice))
}

/// Whether list `i`, once a mode has rebuilt the lists, starts elsewhere or is longer or shorter
/// when that mode rebuilds them again, which is never so. Refuses as rebuilding them once does.
pub fn moves_again(
    alloc: Global,
    lists: &ListViewArray,
    mode: ListViewRebuildMode,
    i: usize,
) -> Result<bool, VortexError>
    requires { i < tree_len lists.now }
    ensures stays { IfOk result (λ moves. moves ≡ false) }
    ensures refuses { Refuses result (rebuild_fault mode lists.now) }
{
    rows_stand_at_their_places();
    alike_views_have_equal_places();
    let (once, twice) = rebuilt_twice(alloc, lists, mode)?;
    Ok(once.offset_at(i) != twice.offset_at(i) || once.size_at(i) != twice.size_at(i))
}
