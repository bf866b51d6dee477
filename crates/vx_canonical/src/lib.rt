//! Arrays in plain layout: one at a time, and one after another.
//!
//! Read `to_canonical` and `concat` first: the contracts, with specs/Canonical and
//! specs/Concatenated. Both count first, by `countable_rows`; `concat` by `extents` over `pieces`
//! too. Then `canonical`, which makes an array plain, or picked rows of it, and `join`, which joins
//! plain arrays. Of constants, `canonical_nested` makes the values plain, level by level, and
//! `canonical_values` the leaves; `canonical_zeroes` makes rows of which only the validity is
//! given, `kept_parts` what values keep without a row, and `kept_faults` whether that can be
//! counted, before it is made. `layouts/` has what does not recurse.
//!
//! Each walk is a circle of free functions in one file: `canonical`, `plain_values`
//! (`canonical_nested`), `blank` and `is_countable` (`canonical_zeroes`), `kept_parts`, `is_plain`,
//! `join`, `piece_of`, `pieces_fit` (`extents`) and `has_countable_rows`.
#![tactic(auto)]

mod canonical;
mod canonical_nested;
mod canonical_values;
mod canonical_zeroes;
mod concat;
mod countable_rows;
mod extents;
mod is_plain;
mod join;
mod kept_faults;
mod kept_parts;
pub mod laws;
mod layouts;
mod pieces;
mod to_canonical;

pub use crate::concat::Concatenate;
pub use crate::laws::concats_of_concats_are_concats;
pub use crate::to_canonical::ToCanonical;
