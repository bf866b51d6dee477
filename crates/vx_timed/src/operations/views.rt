// Operations on views.

use crate::data::{Heap, Scale, Texts, offsets_of, short_texts, text_heap, text_views};
use crate::fault::Fault;
use crate::made::Made;
use crate::operation::Operation;
use std::alloc::Global;
use vx_base::{Buffer, ByteBuffer, Mask};
use vx_views::{BinaryView, MAX_BUFFER_LEN, build_views, build_views_from_offsets, check_views};

// Values of bytes, and what is done with them.
#[derive(Drop)]
pub(crate) enum ViewOperation {
    // The views of values whose lengths are given.
    Build(Heap),
    // The views of values whose ends are given.
    BuildFromOffsets(ByteBuffer, Vec<u32>),
    // The check of views, as text or not.
    Check(Checked),
}

// Views, their buffers, and whether they are text.
#[derive(Drop)]
pub(crate) struct Checked {
    buffers: Vec<ByteBuffer>,
    views: Buffer<BinaryView>,
    is_text: bool,
}

impl Operation for ViewOperation {
    fn run(&mut self, alloc: Global) -> Result<Made, Fault> {
        match &*self {
            ViewOperation::Build(heap) => build(alloc, heap),
            ViewOperation::BuildFromOffsets(bytes, offsets) => {
                build_from_offsets(alloc, bytes, offsets)
            }
            ViewOperation::Check(checked) => checked.check(alloc),
        }
    }
}

fn build(alloc: Global, heap: &Heap) -> Result<Made, Fault> {
    let bytes = heap.bytes.try_clone(alloc)?;
    let (buffers, views) = build_views(alloc, 0, MAX_BUFFER_LEN, bytes, &heap.lengths)?;
    Ok(Made::Views(buffers, views))
}

fn build_from_offsets(alloc: Global, bytes: &ByteBuffer, offsets: &[u32]) -> Result<Made, Fault> {
    let bytes = bytes.try_clone(alloc)?;
    let (buffers, views) = build_views_from_offsets(alloc, 0, MAX_BUFFER_LEN, bytes, offsets)?;
    Ok(Made::Views(buffers, views))
}

impl Checked {
    fn check(&self, alloc: Global) -> Result<Made, Fault> {
        let views = self.views.as_slice();
        let mask = Mask::new_true(views.len());
        let checked = check_views(alloc, views, &mask, &self.buffers, self.is_text, usize::MAX);
        drop(mask);
        checked?;
        Ok(Made::Number(views.len() as u64))
    }
}

// Texts of which one in 128 has 2000 bytes.
fn long_texts(mixed: bool) -> Texts {
    Texts {
        mixed,
        longest: 2000,
    }
}

// Views that are checked.
fn views_to_check(
    alloc: Global,
    rows: usize,
    texts: Texts,
    is_text: bool,
) -> Result<ViewOperation, Fault> {
    let (buffers, views) = text_views(alloc, rows, texts)?;
    Ok(ViewOperation::Check(Checked {
        buffers,
        views,
        is_text,
    }))
}

// An operation on views.
pub(crate) fn ready(alloc: Global, scale: Scale, name: &str) -> Result<ViewOperation, Fault> {
    let rows = scale.rows();
    match name {
        "build_views" => {
            let heap = text_heap(alloc, rows, short_texts(false))?;
            Ok(ViewOperation::Build(heap))
        }
        "build_views_from_offsets" => {
            let Heap { bytes, lengths } = text_heap(alloc, rows, short_texts(false))?;
            let offsets = offsets_of(alloc, &lengths)?;
            Ok(ViewOperation::BuildFromOffsets(bytes, offsets))
        }
        "check_views_ascii" => views_to_check(alloc, rows, short_texts(false), true),
        "check_views_mixed" => views_to_check(alloc, rows, short_texts(true), true),
        "check_views_bytes" => views_to_check(alloc, rows, short_texts(true), false),
        "check_long_ascii" => views_to_check(alloc, rows, long_texts(false), true),
        "check_long_mixed" => views_to_check(alloc, rows, long_texts(true), true),
        _ => Err(Fault::Usage),
    }
}
