//! Small arrays of some layouts, whose rows are told.

ghost use Rattle.std.specs.Prelude.{◌≡◌, true, IfOk};
ghost use Rattle.vx_tree.specs.Layouts.{is_view_array};
ghost use Rattle.vx_tree.specs.Meaning.{tree_len};

use crate::{bools, columns_of, numbers};
use std::alloc::Global;
use vx_base::{
    BitBuffer, Buffer, ByteBuffer, DType, Mask, Nullability, PType, Scalar, VortexError,
};
use vx_tree::{ArrayRef, Layout, Validity};
use vx_views::{BinaryView, check_views};

/// The numbers 2, null, 0 of type u8.
pub fn indices(alloc: Global) -> Result<ArrayRef, VortexError> {
    let validity = Validity::Array(bools(alloc, &[true, false, true])?);
    numbers(alloc, PType::U8, &[2, 0, 0], validity)
}

/// The lists [3, 4], [1], [2, 3] of the numbers 1 to 4.
pub fn lists(alloc: Global) -> Result<ArrayRef, VortexError> {
    let elements = numbers(alloc, PType::U8, &[1, 2, 3, 4], Validity::NonNullable)?;
    let offsets = [2, 0, 0, 0, 0, 0, 0, 0, 1, 0, 0, 0];
    let offsets = numbers(alloc, PType::U32, &offsets, Validity::NonNullable)?;
    let sizes = [2, 0, 0, 0, 1, 0, 0, 0, 2, 0, 0, 0];
    let sizes = numbers(alloc, PType::U32, &sizes, Validity::NonNullable)?;
    let validity = Validity::NonNullable;
    let flag = false;
    ArrayRef::from_parts(
        alloc,
        Layout::ListView {
            elements,
            offsets,
            sizes,
            validity,
            flag,
        },
    )
}

/// The codes 0, null, 2, null, 1 into the values null, 6, 9.
pub fn dictionary(alloc: Global) -> Result<ArrayRef, VortexError> {
    let validity = Validity::Array(bools(alloc, &[true, false, true, false, true])?);
    let codes = numbers(alloc, PType::U8, &[0, 0, 2, 0, 1], validity)?;
    let validity = Validity::Array(bools(alloc, &[false, true, true])?);
    let values = numbers(alloc, PType::U8, &[0, 6, 9], validity)?;
    ArrayRef::dictionary(alloc, codes, values, false)
}

/// The lists [1, 2], [3, 4], [5, 6] of one size.
pub fn pairs(alloc: Global) -> Result<ArrayRef, VortexError> {
    let elements = numbers(alloc, PType::U8, &[1, 2, 3, 4, 5, 6], Validity::NonNullable)?;
    let validity = Validity::NonNullable;
    ArrayRef::from_parts(
        alloc,
        Layout::FixedSizeList {
            elements,
            size: 2,
            validity,
            len: 3,
        },
    )
}

/// One list of 1048576 lists of 2147483648 zeroes each.
pub fn huge_list(alloc: Global) -> Result<ArrayRef, VortexError> {
    let scalar = Scalar::int(0, PType::U8, Nullability::NonNullable);
    let zeroes = ArrayRef::constant(alloc, scalar, 2251799813685248)?;
    let validity = Validity::NonNullable;
    let lists = ArrayRef::fixed_size_list(alloc, zeroes, 2147483648, validity, 1048576)?;
    ArrayRef::fixed_size_list(alloc, lists, 1048576, Validity::NonNullable, 1)
}

/// The records {a:1,b:true}, null, {a:3,b:true}.
pub fn records(alloc: Global) -> Result<ArrayRef, VortexError> {
    let first = numbers(alloc, PType::U8, &[1, 2, 3], Validity::NonNullable)?;
    let second = bools(alloc, &[true, false, true])?;
    let validity = Validity::Array(bools(alloc, &[true, false, true])?);
    columns_of(alloc, &["a", "b"], first, second, validity, 3)
}

/// A text that no view has room for.
pub const LONG: &[u8] = b"this value is definitely long";

/// The texts `hi`, null, `é` and a long one, which stands in a buffer.
pub fn texts(alloc: Global) -> Result<ArrayRef, VortexError>
    ensures layout { IfOk result (λ a. is_view_array a ≡ true) }
    ensures len { IfOk result (λ a. tree_len a ≡ 4) }
{
    let views = [
        BinaryView::make_view(b"hi", 0, 0),
        BinaryView::empty_view(),
        BinaryView::make_view(b"\xC3\xA9", 0, 0),
        BinaryView::make_view(LONG, 0, 0),
    ];
    let valid = [true, false, true, true];
    let mask = Mask::from_buffer(alloc, BitBuffer::from_bools(alloc, &valid)?)?;
    let mut buffers = Vec::new(alloc);
    buffers.push(ByteBuffer::copy_from(alloc, LONG)?)?;
    check_views(alloc, &views, &mask, &buffers, true, 0)?;
    let views = Buffer::copy_from(alloc, &views)?;
    let validity = Validity::Array(bools(alloc, &valid)?);
    let dtype = DType::Utf8(Nullability::Nullable);
    ArrayRef::var_bin_view(alloc, views, buffers, dtype, validity)
}
