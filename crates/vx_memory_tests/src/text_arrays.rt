// Texts and byte lists.

use crate::rows::has_rows;
use crate::samples::{LONG, texts};
use crate::typed::{is_same, typed};
use std::alloc::Global;
use vx_base::{Buffer, ByteBuffer, DType, Nullability, VortexError};
use vx_memory_help::{End, deep, have_same_bytes, judged};
use vx_text::{VarBinViewArray, VarBinViewArrayExt, VarBinViewData};
use vx_tree::{TypedArray, Validity};
use vx_views::BinaryView;

// The texts hi, null and a long one.
fn given(alloc: Global) -> Result<VarBinViewArray, VortexError> {
    typed(texts(alloc)?)
}

// Texts that may not be null.
const PLAIN_TEXTS: DType = DType::Utf8(Nullability::NonNullable);

// Whether an array has this value at this row, null for `None`.
fn has_value(array: &VarBinViewArray, i: usize, value: Option<&[u8]>) -> bool {
    i < array.len() && array.as_array().bytes_at(i) == value
}

// Whether the values of an array are a short and a long text.
fn are_hi_and_long(array: &VarBinViewArray) -> bool {
    has_value(array, 0, Some(b"hi")) && has_value(array, 1, Some(LONG.as_bytes()))
}

// Whether the values of an array are a long text and null.
fn are_long_and_null(array: &VarBinViewArray) -> bool {
    has_value(array, 0, Some(LONG.as_bytes())) && has_value(array, 1, None)
}

// `VarBinViewArray::from_iter`.
fn of_optional_bytes(alloc: Global) -> Result<bool, VortexError> {
    let items = [Some(b"hi".as_slice()), Some(LONG.as_bytes())];
    let made = VarBinViewArray::from_iter(alloc, items.iter().copied(), PLAIN_TEXTS)?;
    Ok(are_hi_and_long(&made))
}

// `VarBinViewArray::from_iter_str`.
fn of_texts(alloc: Global) -> Result<bool, VortexError> {
    let items = ["hi", LONG];
    let made = VarBinViewArray::from_iter_str(alloc, items.iter().copied())?;
    Ok(are_hi_and_long(&made))
}

// `VarBinViewArray::from_iter_bin`.
fn of_bytes(alloc: Global) -> Result<bool, VortexError> {
    let items = [b"hi".as_slice(), LONG.as_bytes()];
    let made = VarBinViewArray::from_iter_bin(alloc, items.iter().copied())?;
    Ok(are_hi_and_long(&made))
}

// `VarBinViewArray::from_iter_nullable_str`.
fn of_optional_texts(alloc: Global) -> Result<bool, VortexError> {
    let items = [Some(LONG), None];
    let made = VarBinViewArray::from_iter_nullable_str(alloc, items.iter().copied())?;
    Ok(are_long_and_null(&made))
}

// `VarBinViewArray::from_iter_nullable_bin`.
fn of_nullable_bytes(alloc: Global) -> Result<bool, VortexError> {
    let items = [Some(LONG.as_bytes()), None];
    let made = VarBinViewArray::from_iter_nullable_bin(alloc, items.iter().copied())?;
    Ok(are_long_and_null(&made))
}

// The calls that make texts of items.
fn item_calls(alloc: Global) -> Result<bool, VortexError> {
    Ok(
        of_optional_bytes(alloc)?
            && of_texts(alloc)?
            && of_bytes(alloc)?
            && of_optional_texts(alloc)?
            && of_nullable_bytes(alloc)?,
    )
}

#[test]
fn texts_of_items(rt: HostRuntime) -> Result<(), End> {
    judged(item_calls(rt.alloc()), true)
}

// Whether the first of these views is that of a long text, by `VarBinViewData::bytes_at`.
fn is_long_first(alloc: Global, data: &VarBinViewData) -> Result<bool, VortexError> {
    if data.len() == 0 {
        return Ok(false);
    }
    let value = data.bytes_at(alloc, 0)?;
    Ok(value.as_slice() == LONG.as_bytes())
}

// `VarBinViewData::from_iter`.
fn data_of_optional_bytes(alloc: Global) -> Result<bool, VortexError> {
    let items = [Some(LONG.as_bytes())];
    let made = VarBinViewData::from_iter(alloc, items.iter().copied(), PLAIN_TEXTS)?;
    is_long_first(alloc, &made)
}

// `VarBinViewData::from_iter_str`.
fn data_of_texts(alloc: Global) -> Result<bool, VortexError> {
    let items = [LONG];
    let made = VarBinViewData::from_iter_str(alloc, items.iter().copied())?;
    is_long_first(alloc, &made)
}

// `VarBinViewData::from_iter_bin`.
fn data_of_bytes(alloc: Global) -> Result<bool, VortexError> {
    let items = [LONG.as_bytes()];
    let made = VarBinViewData::from_iter_bin(alloc, items.iter().copied())?;
    is_long_first(alloc, &made)
}

// `VarBinViewData::from_iter_nullable_str`.
fn data_of_optional_texts(alloc: Global) -> Result<bool, VortexError> {
    let items = [Some(LONG), None];
    let made = VarBinViewData::from_iter_nullable_str(alloc, items.iter().copied())?;
    is_long_first(alloc, &made)
}

// `VarBinViewData::from_iter_nullable_bin` and `VarBinViewData::try_clone`.
fn data_of_nullable_bytes(alloc: Global) -> Result<bool, VortexError> {
    let items = [Some(LONG.as_bytes()), None];
    let made = VarBinViewData::from_iter_nullable_bin(alloc, items.iter().copied())?;
    let same = made.try_clone(alloc)?;
    Ok(is_long_first(alloc, &made)? && same.views() == made.views())
}

// The calls that make views of items.
fn data_calls(alloc: Global) -> Result<bool, VortexError> {
    Ok(
        data_of_optional_bytes(alloc)?
            && data_of_texts(alloc)?
            && data_of_bytes(alloc)?
            && data_of_optional_texts(alloc)?
            && data_of_nullable_bytes(alloc)?,
    )
}

#[test]
fn views_of_items(rt: HostRuntime) -> Result<(), End> {
    judged(data_calls(rt.alloc()), true)
}

// The view of a long text.
fn one_view(alloc: Global) -> Result<Buffer<BinaryView>, VortexError> {
    Buffer::copy_from(alloc, &[BinaryView::make_view(LONG.as_bytes(), 0, 0)])
}

// The buffer that has the long text.
fn one_buffer(alloc: Global) -> Result<Vec<ByteBuffer>, VortexError> {
    let mut buffers = Vec::with_capacity(alloc, 1)?;
    buffers.push(ByteBuffer::copy_from(alloc, LONG.as_bytes())?)?;
    Ok(buffers)
}

// `VarBinViewData::validate_with_budget`.
fn faultless(
    alloc: Global,
    views: &[BinaryView],
    buffers: &[ByteBuffer],
) -> Result<bool, VortexError> {
    let valid = Validity::NonNullable;
    VarBinViewData::validate_with_budget(alloc, views, buffers, &PLAIN_TEXTS, &valid, 9)?;
    Ok(true)
}

#[test]
fn views_that_are_tested(rt: HostRuntime) -> Result<(), End> {
    let (buffers, copy) = (one_buffer(rt.alloc())?, one_buffer(rt.alloc())?);
    let views = one_view(rt.alloc())?;
    let answer = faultless(rt.alloc(), views.as_slice(), &buffers);
    judged(answer, have_same_bytes(&buffers, &copy))
}

// `VarBinViewData::validate` and `VarBinViewArray::new`.
fn asked(alloc: Global) -> Result<bool, VortexError> {
    let valid = Validity::NonNullable;
    let (views, buffers) = (one_view(alloc)?, one_buffer(alloc)?);
    VarBinViewData::validate(alloc, views.as_slice(), &buffers, &PLAIN_TEXTS, &valid)?;
    let made = VarBinViewArray::new(alloc, views, buffers, PLAIN_TEXTS, valid)?;
    Ok(has_value(&made, 0, Some(LONG.as_bytes())))
}

// `VarBinViewArray::try_new`.
fn tested(alloc: Global) -> Result<bool, VortexError> {
    let valid = Validity::NonNullable;
    let (views, buffers) = (one_view(alloc)?, one_buffer(alloc)?);
    let made = VarBinViewArray::try_new(alloc, views, buffers, PLAIN_TEXTS, valid)?;
    Ok(has_value(&made, 0, Some(LONG.as_bytes())))
}

// `VarBinViewData::new`.
fn data_asked(alloc: Global) -> Result<bool, VortexError> {
    let valid = Validity::NonNullable;
    let (views, buffers) = (one_view(alloc)?, one_buffer(alloc)?);
    VarBinViewData::validate(alloc, views.as_slice(), &buffers, &PLAIN_TEXTS, &valid)?;
    let made = VarBinViewData::new(alloc, views, buffers, PLAIN_TEXTS, valid)?;
    is_long_first(alloc, &made)
}

// `VarBinViewData::try_new`.
fn data_tested(alloc: Global) -> Result<bool, VortexError> {
    let valid = Validity::NonNullable;
    let (views, buffers) = (one_view(alloc)?, one_buffer(alloc)?);
    let made = VarBinViewData::try_new(alloc, views, buffers, PLAIN_TEXTS, valid)?;
    is_long_first(alloc, &made)
}

// The calls that make texts of views.
fn view_calls(alloc: Global) -> Result<bool, VortexError> {
    Ok(asked(alloc)? && tested(alloc)? && data_asked(alloc)? && data_tested(alloc)?)
}

#[test]
fn texts_of_views(rt: HostRuntime) -> Result<(), End> {
    judged(view_calls(rt.alloc()), true)
}

// `VarBinViewArray::to_data` and `VarBinViewArray::into_data_parts`.
fn parts(alloc: Global, array: &VarBinViewArray) -> Result<bool, VortexError> {
    let data = array.to_data(alloc)?;
    let parts = array.try_clone(alloc)?.into_data_parts(alloc)?;
    Ok(
        data.views() == parts.views.as_slice()
            && have_same_bytes(data.data_buffers(), &parts.buffers),
    )
}

// `VarBinViewArrayExt::varbinview_validity` and `VarBinViewArray::slots`.
fn validities(alloc: Global, array: &VarBinViewArray) -> Result<bool, VortexError> {
    let validity = array.varbinview_validity(alloc)?;
    let slots = array.slots(alloc)?;
    let same = array.as_array().validity(alloc)?;
    Ok(deep().is_same_validity(&validity, &same) && slots.validity.is_some())
}

// `VarBinViewArray::rebuffer`.
fn packed(alloc: Global, array: &VarBinViewArray) -> Result<bool, VortexError> {
    let packed = array.rebuffer(alloc, 64)?;
    let places = [Some(0), Some(1), Some(2)];
    has_rows(alloc, packed.as_array(), array.as_array(), &places)
}

// The calls that read texts.
fn read_calls(alloc: Global, array: &VarBinViewArray) -> Result<bool, VortexError> {
    Ok(parts(alloc, array)? && validities(alloc, array)? && packed(alloc, array)?)
}

#[test]
fn texts_that_are_read(rt: HostRuntime) -> Result<(), End> {
    let (array, copy) = (given(rt.alloc())?, given(rt.alloc())?);
    judged(read_calls(rt.alloc(), &array), is_same(&array, &copy))
}
