//! Lists over just the elements that they lie in.

ghost use Rattle.std.specs.Prelude.{◌≡◌, IfOk};
ghost use Rattle.vx_base.specs.Refusals.{Refuses};
ghost use Rattle.vx_tree.specs.Meaning.{kind_of, rows};
ghost use Rattle.vx_lists.specs.ListViews.References.{IsTrimmedToBounds, bounds_fault};

use std::alloc::Global;
use vx_base::VortexError;
use vx_lists::{ListViewArray, ListViewArrayExt};

/// The same lists over the elements from the first start to the last end of them alone, so that a
/// writer stores no others: null rows and empty lists count. Lists of two elements at 2 and 5 of
/// nine elements lie at 0 and 3 of five. Refuses `EmptyInput` where there are no lists.
pub fn trimmed_lists(alloc: Global, lists: &ListViewArray) -> Result<ListViewArray, VortexError>
    ensures trimmed { IfOk result (IsTrimmedToBounds lists.now) }
    ensures rows { IfOk result (λ a. rows a ≡ rows lists.now) }
    ensures kind { IfOk result (λ a. kind_of a ≡ kind_of lists.now) }
    ensures refuses { Refuses result (bounds_fault lists.now) }
{
    let (start, end) = lists.referenced_element_bounds()?;
    Ok(lists.trim_elements(alloc, start, end)?)
}
