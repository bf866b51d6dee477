//! Views of 16 bytes over values of bytes: their parts and words, the cut of a heap of values into
//! buffers, the check of views, and what is UTF-8.
//!
//! Read `view` first, with specs/Views: what the 16 bytes say; `view_parts` takes them apart. Then
//! `build`, with specs/Cut: which buffers a heap becomes; `lengths` and `length_checks` read the
//! lengths and tell their faults. Then `view_checks`, with specs/Faulty and specs/Sound: which
//! foreign views are taken. `ascii_checks` is its shorter way, `texts_around` bounds what it reads,
//! and `view_emptying` also empties the views of null rows. `cut_laws`, `view_laws` and `text_laws` are for callers. Nothing recurses.
#![tactic(auto)]

mod ascii_checks;
mod build;
pub mod cut_laws;
mod length_checks;
mod lengths;
pub mod text_laws;
mod texts_around;
mod view;
mod view_checks;
mod view_emptying;
pub mod view_laws;
mod view_parts;

pub use crate::build::{build_views, build_views_from_offsets, offsets_to_lengths};
pub use crate::text_laws::{
    boundaries_decide_ranges, faultless_views_are_sound, table_decides_utf8,
};
pub use crate::view::{BinaryView, MAX_BUFFER_LEN, MAX_INLINED_SIZE};
pub use crate::view_checks::{check_views, check_views_counted};
pub use crate::view_emptying::check_and_empty_views;
pub use crate::view_parts::{Inlined, Ref};
