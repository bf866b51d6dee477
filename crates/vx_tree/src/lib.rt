//! Arrays as a closed tree of layouts.
//!
//! Read `array` first, with specs/Tree (an array as a tree) and specs/Meaning (its rows), then
//! `validity`. Then one operation whole: `slice`, with its arms in `layouts/`. `take`, `take_runs`
//! and `filter` go through `select`, and `mask` through `null_rows`. `indices` reads numbers as
//! positions; `read` and `execute_scalar` read rows. `laws` and `row_laws` are for callers.
//!
//! Recursions go down the tree, and most have arms in `layouts/`: `#[cycle(slice)]`, `select`,
//! `can_select` (whether so many rows can be counted), `value` and `read` (one row), `validity`,
//! `nulls` and `null_rows` (these three through dictionaries alone). `defaults`, in `default_rows`,
//! goes down a data type.
#![tactic(auto)]

mod array;
mod collect;
mod default_rows;
mod execute_scalar;
mod filter;
mod indices;
mod into_array;
pub mod laws;
mod layouts;
mod mask;
mod null_rows;
mod read;
pub mod row_laws;
mod select;
mod slice;
mod slots;
mod take;
mod take_runs;
mod typed_array;
mod validity;
mod with_validity;

pub use crate::array::{ArrayRef, Layout, Validity};
pub use crate::collect::collect_items;
pub use crate::indices::Indices;
pub use crate::into_array::IntoArray;
pub use crate::laws::{
    dictionaries_keep_their_values, faults_of_worked_arrays, fewer_rows_are_countable,
    rows_fit_their_dtype, rows_fit_their_kind, rows_of_worked_arrays,
    selections_of_selections_are_selections, slices_of_slices_are_slices, worked_arrays_are_formed,
};
pub use crate::layouts::constant::scalar_validity;
pub use crate::layouts::var_bin_view::empty_views;
pub use crate::typed_array::TypedArray;
pub use crate::validity::{
    and_associates, and_commutes, and_has_a_unit, and_repeats, told_by, trivial_casts_are_casts,
};
