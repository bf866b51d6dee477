//! Columns of records.
//!
//! Read `array` first, with specs/Structs/Records; then `checks`, what the constructors test, with
//! specs/Structs/Faults. `fields` makes records of columns that have names. `columns` chooses, adds
//! and removes columns; `ext`, `unmasked_fields` and `field` read them; `push` moves the nulls of
//! records into them; `concat` joins arrays of records. `laws` are for callers.
//!
//! Nothing recurses: the columns are walked by vx_tree and vx_canonical.
#![tactic(auto)]

mod array;
mod checks;
mod columns;
mod concat;
mod ext;
mod field;
mod fields;
pub mod laws;
mod push;
mod unmasked_fields;

pub use crate::array::StructArray;
pub use crate::ext::{StructArrayExt, StructDataParts, StructSlots};
pub use crate::unmasked_fields::UnmaskedFields;
