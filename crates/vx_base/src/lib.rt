//! The ground of the arrays: refusals, data types, integer types, buffers, bits and masks.
//!
//! Read `errors`, `dtypes` and `scalar_value` first, with specs/Kinds, specs/Rows and
//! specs/Refusals: what a column may hold, and how a call is refused. Then numbers (`native`,
//! `numbers`, `buffer`, `byte_buffer`), bits (`bit_buffer` over `bit_bytes`, `bit_words` and
//! `bit_copies`), and `mask`, which keeps runs (`true_runs`, `mask_runs`). Last `selection`:
//! `gather` and the files `gathered_*` pick rows in each of its forms; `position_runs` writes out
//! positions that follow one another.
//!
//! Data types and values recurse (`#[cycle(dtype)]`, `value`), and so do three walks of them:
//! whether types are equal (`same_dtype`, in `dtypes` and `struct_fields`), whether a value fits
//! one (`fits`, in `scalar_value`), and its default (`default`, in `default_value`).
#![tactic(auto)]

mod bit_ands;
mod bit_buffer;
mod bit_buffer_mut;
mod bit_buffer_view;
mod bit_bytes;
mod bit_copies;
mod bit_words;
mod buffer;
mod buffer_mut;
mod byte_buffer;
mod counts;
mod default_value;
mod dtypes;
mod errors;
mod field_names;
mod gather;
mod gathered_bits;
mod gathered_items;
mod gathered_numbers;
pub mod laws;
mod mask;
mod mask_rows;
mod mask_runs;
mod mask_values;
mod named;
mod native;
mod nullability;
mod number_runs;
mod numbers;
mod places;
mod position_runs;
mod ptypes;
mod scalar;
mod scalar_value;
mod selection;
mod struct_fields;
mod true_runs;

pub use crate::bit_buffer::BitBuffer;
pub use crate::bit_buffer_mut::BitBufferMut;
pub use crate::bit_buffer_view::{BitBufferMeta, BitBufferView};
pub use crate::buffer::Buffer;
pub use crate::buffer_mut::BufferMut;
pub use crate::byte_buffer::{ByteBuffer, share_buffers, slice_numbers, zero_numbers};
pub use crate::counts::{read_counts, write_counts};
pub use crate::dtypes::{DType, equal_where_same_kind};
pub use crate::errors::VortexError;
pub use crate::field_names::{FieldName, FieldNames};
pub use crate::gathered_bits::gather_bits;
pub use crate::gathered_items::gather_items;
pub use crate::gathered_numbers::{extend_with_numbers, gather_numbers};
pub use crate::laws::first_fault_is_least;
pub use crate::mask::Mask;
pub use crate::mask_rows::MaskRows;
pub use crate::mask_values::MaskValues;
pub use crate::native::{NativePType, get_then_put, put_then_get};
pub use crate::nullability::Nullability;
pub use crate::numbers::{int_at, int_of, number_count, put_int};
pub use crate::position_runs::{MANY_POSITIONS, push_positions, put_positions};
pub use crate::ptypes::PType;
pub use crate::scalar::Scalar;
pub use crate::scalar_value::{MAX_VALUE_LEN, ScalarValue, ScalarValues};
pub use crate::selection::Selection;
pub use crate::struct_fields::StructFields;
