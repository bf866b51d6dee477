//! Columns of lists: the one layout that their rows fix, and their arrays.
//!
//! Read `list_view/array` first, with specs/ListViews; then `list_view/checks`, what `try_new`
//! tests, and `list_view/rebuild`, with specs/ListViews/Layout: `totals` tells what is refused,
//! `plan` makes the runs and the new numbers, `positions` the places of elements. `references`
//! tells which elements the lists lie in, and `trim` lets the others go. `number_rows` has the
//! loops over offsets and sizes, one for each pair of their types. `fixed_size_list/` is lists of
//! one size. `laws` are for callers.
//!
//! Two walks recurse: `#[cycle(is_countable)]` in `totals`, and `has_one_row` in `counts`.
#![tactic(auto)]

mod fixed_size_list;
pub mod laws;
mod list_view;

pub use crate::fixed_size_list::array::FixedSizeListArray;
pub use crate::fixed_size_list::data::FixedSizeListData;
pub use crate::fixed_size_list::ext::{
    FixedSizeListArrayExt, FixedSizeListDataParts, FixedSizeListSlots,
};
pub use crate::list_view::array::ListViewArray;
pub use crate::list_view::data::ListViewData;
pub use crate::list_view::ext::{ListViewArrayExt, ListViewDataParts, ListViewSlots};
pub use crate::list_view::rebuild::ListViewRebuildMode;
