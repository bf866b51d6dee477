// Each layout: how its array is made, and its part of each operation.

pub(crate) mod bool;
pub(crate) mod constant;
pub(crate) mod dict;
pub(crate) mod fixed_size_list;
pub(crate) mod list_view;
pub(crate) mod primitive;
pub(crate) mod structure;
pub(crate) mod var_bin_view;
