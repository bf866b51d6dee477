//! Runs scripts that build columnar arrays, rebuild them and print them, and lists of steps on
//! arrays, and writes rows as text.
//!
//! Lists of steps: read `steps` and `run_steps`, with specs/Steps; `record_steps` has the steps on
//! records. Scripts: read `script`, then `command` (a line as a command, over `words`, `operands`
//! and `literals`) and `registers` (the arrays, and what each command does). Text: `show` and
//! `show_scalar` write rows, `parts` the parts of an array, and `written_rows` the first rows of
//! one.
//!
//! Two walks recurse: rows as text (`#[cycle(show)]`, down the tree, in `show`) and one row as text
//! (`value`, in `show_scalar`).
#![tactic(auto)]

mod byte_items;
mod command;
mod counted_reader;
mod faults;
mod hexadecimal;
pub mod laws;
mod line_buffer;
mod literals;
mod operands;
mod output;
mod parts;
mod record_steps;
mod registers;
mod run_steps;
mod script;
mod show;
mod show_scalar;
mod steps;
mod words;
mod written_rows;

pub use crate::run_steps::{RunFault, run};
pub use crate::script::run_script;
pub use crate::steps::Step;
pub use crate::written_rows::{WriteFault, write_rows};
