//! Operations on large arrays by name, their data, and how they are timed: what `vx_bench` runs, but
//! for lists of steps.
#![tactic(auto)]

mod checksum;
mod data;
mod fault;
mod made;
mod operation;
mod operations;

pub use crate::data::{Scale, limit_of, numbers_below, truths};
pub use crate::fault::Fault;
pub use crate::made::Made;
pub use crate::operation::{Bench, Operation, Report};
pub use crate::operations::{measure, measure_all};
