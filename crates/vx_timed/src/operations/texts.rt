// Operations on columns of texts.

use crate::data::{
    Scale, random_mask, repeated_texts, short_texts, some_left_out, some_null, text_array,
    text_views,
};
use crate::fault::Fault;
use crate::made::Made;
use crate::operation::Operation;
use std::alloc::Global;
use vx_base::{Buffer, ByteBuffer, DType, VortexError, share_buffers};
use vx_text::{VarBinViewArray, VarBinViewData};
use vx_tree::{ArrayRef, TypedArray, Validity};
use vx_views::{BinaryView, MAX_BUFFER_LEN};

// Texts of at most 12 bytes, which lie in their views, and longer ones.
const SHORT: [&str; 4] = ["alder", "birch", "cypress", "dogwood"];

const LONG: [&str; 4] = [
    "an alder beside the water",
    "a birch on the northern hill",
    "a cypress at the old gate",
    "a dogwood along the garden wall",
];

// Columns of texts, and what is done with them.
#[derive(Drop)]
pub(crate) enum TextOperation {
    // Moving the values of a column into buffers of their own.
    Rebuffer(VarBinViewArray),
    // The checks of the parts of a column.
    TryNew(Parts),
    // Texts, one after another.
    FromIter(Vec<&'static str>),
    // Texts, one after another, of which some are left out.
    FromOptionIter(Vec<Option<&'static str>>),
    // The bytes of each text, each let go at once.
    BytesAt(VarBinViewData),
}

// The parts of a column.
#[derive(Drop)]
pub(crate) struct Parts {
    views: Buffer<BinaryView>,
    buffers: Vec<ByteBuffer>,
    validity: Validity,
}

impl Operation for TextOperation {
    fn run(&mut self, alloc: Global) -> Result<Made, Fault> {
        match &*self {
            TextOperation::Rebuffer(texts) => {
                let moved = texts.rebuffer(alloc, MAX_BUFFER_LEN)?;
                Ok(Made::Texts(moved.into_array()))
            }
            TextOperation::TryNew(parts) => Ok(Made::Texts(parts.joined(alloc)?.into_array())),
            TextOperation::FromIter(texts) => {
                let made = VarBinViewArray::from_iter_str(alloc, texts.iter().copied())?;
                Ok(Made::Texts(made.into_array()))
            }
            TextOperation::FromOptionIter(items) => {
                let items = items.iter().copied();
                let made = VarBinViewArray::from_iter_nullable_str(alloc, items)?;
                Ok(Made::Texts(made.into_array()))
            }
            TextOperation::BytesAt(data) => total_of(alloc, data),
        }
    }
}

impl Parts {
    fn joined(&self, alloc: Global) -> Result<VarBinViewArray, VortexError> {
        let views = self.views.try_clone(alloc)?;
        let buffers = share_buffers(alloc, &self.buffers)?;
        let validity = self.validity.try_clone(alloc)?;
        let dtype = DType::Utf8(validity.nullability());
        VarBinViewArray::try_new(alloc, views, buffers, dtype, validity)
    }
}

fn total_of(alloc: Global, data: &VarBinViewData) -> Result<Made, Fault> {
    let mut total = 0u64;
    for i in 0..data.len() {
        let bytes = data.bytes_at(alloc, i)?;
        total = total.wrapping_add(bytes.len() as u64);
    }
    Ok(Made::Number(total))
}

// The texts of an array.
fn texts_of(array: ArrayRef) -> Result<VarBinViewArray, Fault> {
    match VarBinViewArray::try_from_array(array) {
        Ok(texts) => Ok(texts),
        Err(_) => Err(Fault::Usage),
    }
}

// A column of which a filter kept three rows of four.
fn filtered(alloc: Global, rows: usize) -> Result<VarBinViewArray, Fault> {
    let array = text_array(alloc, rows)?;
    let mask = random_mask(alloc, rows)?;
    let kept = array.filter(alloc, &mask);
    drop(mask);
    texts_of(kept?)
}

// The parts of a column of so many rows.
fn parts_of(alloc: Global, rows: usize, validity: Validity) -> Result<TextOperation, Fault> {
    let (buffers, views) = text_views(alloc, rows, short_texts(false))?;
    Ok(TextOperation::TryNew(Parts {
        views,
        buffers,
        validity,
    }))
}

// An operation on texts.
pub(crate) fn ready(alloc: Global, scale: Scale, name: &str) -> Result<TextOperation, Fault> {
    let rows = scale.rows();
    match name {
        "filtered" => Ok(TextOperation::Rebuffer(filtered(alloc, rows)?)),
        "try_new" => parts_of(alloc, rows, Validity::NonNullable),
        "try_new_null" => parts_of(alloc, rows, some_null(alloc, rows, 3)?),
        "from_iter_short" => Ok(TextOperation::FromIter(repeated_texts(alloc, rows, &SHORT)?)),
        "from_iter_long" => Ok(TextOperation::FromIter(repeated_texts(alloc, rows, &LONG)?)),
        "from_option_iter" => {
            let texts = repeated_texts(alloc, rows, &LONG)?;
            Ok(TextOperation::FromOptionIter(some_left_out(alloc, &texts)?))
        }
        "bytes_at" => {
            let texts = texts_of(text_array(alloc, rows)?)?;
            Ok(TextOperation::BytesAt(texts.to_data(alloc)?))
        }
        _ => Err(Fault::Usage),
    }
}
