// Each layout: its part of the plain layout, and of arrays one after another.

pub(crate) mod bool;
pub(crate) mod constant;
pub(crate) mod fixed_size_list;
pub(crate) mod leaf;
pub(crate) mod list_view;
pub(crate) mod primitive;
pub(crate) mod structure;
pub(crate) mod var_bin_view;
