//! Whether two arrays have equal rows, in any two layouts, and the one form that rows alone
//! determine.
//!
//! Read `rows_equal` and `pack` first: the contracts, with specs/Packed. Then `parts` (rows that
//! are read where they stand) and `same_rows`, which compares two parts; then `pieces` (parts, and
//! default rows between them) and `pack_rows`, which packs pieces. The files `packed_*` pack one
//! kind of column each, `gathered` values that come list by list; `stored_bits`, `stored_numbers`
//! and `stored_lists` tell what can be read as it lies: `list_runs` gathers the numbers of lists,
//! `run_pieces` their rows, and `lists_anywhere` compares lists. `exact_bits` leaves no bit beside
//! those of rows. `laws` are for callers.
//!
//! Two walks go down a data type: `#[cycle(same)]` and `pack`. Three follow codes or layouts:
//! `place_of` in `places`, `truth` in `truths`, and `one_row`.
#![tactic(auto)]

mod bit_bytes;
mod codes;
mod count_bytes;
mod exact_bits;
mod fields;
mod gathered;
mod joined_lists;
pub mod laws;
mod list_counts;
mod list_runs;
mod lists;
mod lists_anywhere;
mod one_row;
mod pack;
mod pack_rows;
mod packed_bits;
mod packed_fields;
mod packed_items;
mod packed_lists;
mod packed_numbers;
mod packed_texts;
mod parts;
mod pieces;
mod places;
mod presence;
mod rows_equal;
mod run_pieces;
mod same_bytes;
mod same_elements;
mod same_leaves;
mod same_numbers;
mod same_rows;
mod same_sizes;
mod stored_bits;
mod stored_lists;
mod stored_numbers;
mod stored_texts;
mod texts;
mod truths;
mod values;

pub use crate::bit_bytes::bits_bytes;
pub use crate::pack::Pack;
pub use crate::rows_equal::RowsEqual;
