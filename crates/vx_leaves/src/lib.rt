//! Typed arrays of truth values and of whole numbers, of values that codes name, and of one row
//! however often.
//!
//! A type has up to three files: its array (`primitive_array`), what it tells of its parts, a trait
//! (`primitive_ext`), and its data apart from the validity (`primitive_data`). Read these three
//! first, with specs/Leaves; then `narrow`, with specs/Narrow, and of dictionaries `valid_rows`
//! (which codes are valid, by words), `code_checks` (which codes are refused) and `code_scan` over
//! `code_marks`, with specs/Scan (which values codes name). `collect`, `number_bytes` and
//! `bool_iterators` read iterators; `spread` lays values over valid rows.
//!
//! Nothing recurses: the trees below are walked by vx_tree.
#![tactic(auto)]

mod bool_array;
mod bool_data;
mod bool_ext;
mod bool_iterators;
mod code_checks;
mod code_marks;
mod code_scan;
mod collect;
mod constant_array;
mod dict_array;
mod dict_data;
mod dict_ext;
pub mod laws;
mod narrow;
mod number_bytes;
mod primitive_array;
mod primitive_buffers;
mod primitive_data;
mod primitive_ext;
mod spread;
mod valid_rows;

pub use crate::bool_array::BoolArray;
pub use crate::bool_data::{BoolData, BoolDataParts};
pub use crate::bool_ext::{BoolArrayExt, BoolSlots};
pub use crate::constant_array::{ConstantArray, ConstantData};
pub use crate::dict_array::{DictArray, DictSlots};
pub use crate::dict_data::{DictData, DictMetadata};
pub use crate::dict_ext::{DictArrayExt, DictOwnedExt, DictParts};
pub use crate::primitive_array::PrimitiveArray;
pub use crate::primitive_data::PrimitiveData;
pub use crate::primitive_ext::{PrimitiveArrayExt, PrimitiveDataParts, PrimitiveSlots};
