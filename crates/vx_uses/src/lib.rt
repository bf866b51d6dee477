//! What a caller can conclude: short callers, as a reader, a kernel and a converter would write
//! them, proved over the contracts of what they call. Their proofs cite lemmas of the crates below.
//!
//! Read `first` (lists rebuilt and read), `reader` (columns from the bytes of a file) and `kernel`
//! (columns that are cut, regrouped and read in any layout). Then what is near to your own use:
//! `writer`, `texts`, `foreign_texts` and `repacking` are of texts; `converter`, `comparison`,
//! `modes`, `trimming` and `appended_lists` of lists; `tables` of records; `encoder` of numbers and
//! dictionaries; `part_by_steps` of lists of steps; `packing` of equal rows. specs/ has what these
//! callers say of their own results.
//!
//! Nothing recurses.
#![tactic(auto)]

pub mod appended;
pub mod appended_lists;
pub mod collected;
pub mod comparison;
pub mod converter;
pub mod encoder;
pub mod faulty_rows;
pub mod first;
pub mod foreign_texts;
pub mod kernel;
pub mod kernel_laws;
pub mod list_laws;
pub mod modes;
pub mod packing;
pub mod pairs;
pub mod part_by_steps;
pub mod picked_rows;
pub mod reader;
pub mod repacking;
pub mod tables;
pub mod texts;
pub mod trimming;
pub mod writer;
