// Lists of one size, one after another.

pub(crate) mod array;
pub(crate) mod data;
pub(crate) mod ext;
