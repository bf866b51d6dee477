// Lists that lie anywhere among shared elements.

pub(crate) mod array;
mod checks;
mod counts;
pub(crate) mod data;
pub(crate) mod ext;
mod number_rows;
mod plan;
mod positions;
pub(crate) mod rebuild;
mod references;
mod totals;
mod trim;
