//! Columns of texts and of byte lists, each row by its view.
//!
//! Read `var_bin_view` first, with specs/Texts and specs/TextFaults; then `view_parts`, what
//! `try_new` tests, by the check of vx_views. `from_items` reads iterators: `items` looks at each
//! item once, `utf8` tells whether it is text, and `filling` puts it into the buffers. `rebuffer`
//! moves the values of an array into new buffers, with specs/Rebuffered.
//!
//! Nothing recurses: no array of texts has another array in it but its validity.
#![tactic(auto)]

mod data_from_items;
mod filling;
mod from_items;
mod items;
mod rebuffer;
mod utf8;
mod var_bin_view;
mod var_bin_view_data;
mod var_bin_view_ext;
mod view_parts;

pub use crate::filling::Filling;
pub use crate::var_bin_view::VarBinViewArray;
pub use crate::var_bin_view_data::VarBinViewData;
pub use crate::var_bin_view_ext::{VarBinViewArrayExt, VarBinViewDataParts, VarBinViewSlots};
