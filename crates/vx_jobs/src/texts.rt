// Columns of texts, and the letters that they are cut from.

use crate::fault::Fault;
use crate::random::Random;
use std::alloc::Global;
use std::ops::Range;
use vx_base::{Buffer, ByteBuffer, DType, share_buffers};
use vx_text::VarBinViewArray;
use vx_tree::{ArrayRef, TypedArray, Validity};
use vx_views::BinaryView;

// Which letters a text has.
#[derive(Clone, Copy)]
pub(crate) enum Script {
    // ASCII alone.
    Ascii,
    // Of each two letters one is of Latin-1, Greek or CJK.
    Mixed,
    // ASCII, but for one letter in 512, which has two bytes.
    Rare,
}

// Letters, and where each begins, and the end of the last.
#[derive(Drop)]
pub(crate) struct Letters {
    bytes: Vec<u8>,
    starts: Vec<u32>,
}

// Adds a letter, which the bits of a word choose.
fn push_letter(bytes: &mut Vec<u8>, script: Script, word: u64) -> Result<(), Fault> {
    let is_ascii = match script {
        Script::Ascii => true,
        Script::Mixed => word & 1 == 0,
        Script::Rare => word & 511 != 0,
    };
    let low = ((word >> 16) & 63) as u8;
    if is_ascii {
        bytes.push(b' '.wrapping_add(low | 32))?;
        return Ok(());
    }
    match (word >> 10) & 3 {
        0 => bytes.extend_from_slice(&[0xC3, 0x80 | low])?,
        1 => bytes.extend_from_slice(&[0xCE, 0x80 | low | 32])?,
        _ => bytes.extend_from_slice(&[0xE5, 0x80 | low, 0x80 | (low ^ 21)])?,
    }
    Ok(())
}

impl Letters {
    // So many letters.
    pub(crate) fn new(
        alloc: Global,
        random: &mut Random,
        count: usize,
        script: Script,
    ) -> Result<Letters, Fault> {
        let mut bytes = Vec::new(alloc);
        let mut starts = Vec::new(alloc);
        for _ in 0..count {
            starts.push(u32::try_from(bytes.len()).unwrap_or(0))?;
            push_letter(&mut bytes, script, random.word())?;
        }
        starts.push(u32::try_from(bytes.len()).unwrap_or(0))?;
        Ok(Letters { bytes, starts })
    }

    // Where a text of so many letters stands, which begins at any of them.
    fn place(&self, random: &mut Random, letters: usize) -> Range<usize> {
        let first = random.below(self.starts.len().saturating_sub(letters.saturating_add(1)));
        let start = self.starts.get(first).copied().unwrap_or(0);
        let end = self
            .starts
            .get(first.saturating_add(letters))
            .copied()
            .unwrap_or(start);
        start as usize..end as usize
    }

    // A text of so many letters.
    pub(crate) fn text(&self, random: &mut Random, letters: usize) -> &str {
        let place = self.place(random, letters);
        match std::str::from_utf8(self.bytes.get(place).unwrap_or(&[])) {
            Ok(text) => text,
            Err(_) => "",
        }
    }
}

// How many letters a text has: from `least` on, fewer than `least + more`.
#[derive(Clone, Copy)]
pub(crate) struct Lengths {
    pub(crate) least: usize,
    pub(crate) more: usize,
}

impl Lengths {
    pub(crate) fn any(self, random: &mut Random) -> usize {
        self.least.saturating_add(random.below(self.more))
    }
}

// Names: half of them stand in their views.
pub(crate) const NAMES: Lengths = Lengths { least: 3, more: 20 };

// The parts of a column of texts, which lie anywhere in its buffers.
#[derive(Drop)]
pub(crate) struct Parts {
    views: Buffer<BinaryView>,
    buffers: Vec<ByteBuffer>,
}

// The view of a text that stands there.
fn view_at(letters: &Letters, buffer: u32, place: Range<usize>) -> Result<BinaryView, Fault> {
    let start = u32::try_from(place.start).unwrap_or(0);
    match letters.bytes.get(place) {
        Some(text) if text.len() < 1_000_000 => Ok(BinaryView::make_view(text, buffer, start)),
        _ => Err(Fault::Usage),
    }
}

// The views of so many texts in two buffers, each of so many letters.
fn views_in(
    alloc: Global,
    random: &mut Random,
    both: &[Letters],
    rows: usize,
    lengths: Lengths,
) -> Result<Vec<BinaryView>, Fault> {
    let mut views = Vec::with_capacity(alloc, rows)?;
    for _ in 0..rows {
        let buffer = random.below(2);
        let Some(letters) = both.get(buffer) else {
            return Err(Fault::Usage);
        };
        let length = lengths.any(random);
        let place = letters.place(random, length);
        views.push(view_at(letters, buffer as u32, place)?)?;
    }
    Ok(views)
}

impl Parts {
    // So many texts in two buffers, each of so many letters.
    pub(crate) fn new(
        alloc: Global,
        random: &mut Random,
        rows: usize,
        script: Script,
        lengths: Lengths,
    ) -> Result<Parts, Fault> {
        let count = rows.saturating_mul(lengths.least) / 2;
        let mut both = Vec::new(alloc);
        both.push(Letters::new(alloc, random, count, script)?)?;
        both.push(Letters::new(alloc, random, count, script)?)?;
        let views = Buffer::from_vec(alloc, views_in(alloc, random, &both, rows, lengths)?)?;
        let mut buffers = Vec::new(alloc);
        for letters in both {
            buffers.push(ByteBuffer::from_vec(alloc, letters.bytes)?)?;
        }
        Ok(Parts { views, buffers })
    }

    // The column of these texts in this validity.
    pub(crate) fn column(&self, alloc: Global, validity: Validity) -> Result<ArrayRef, Fault> {
        self.batch(alloc, 0..self.views.len(), validity)
    }

    // The column of the texts of these rows in this validity.
    pub(crate) fn batch(
        &self,
        alloc: Global,
        rows: Range<usize>,
        validity: Validity,
    ) -> Result<ArrayRef, Fault> {
        if rows.start > rows.end || rows.end > self.views.len() {
            return Err(Fault::Usage);
        }
        let views = self.views.slice(alloc, rows)?;
        let buffers = share_buffers(alloc, &self.buffers)?;
        let dtype = DType::Utf8(validity.nullability());
        Ok(VarBinViewArray::try_new(alloc, views, buffers, dtype, validity)?.into_array())
    }
}

// So many names, none of them null.
pub(crate) fn names(alloc: Global, random: &mut Random, rows: usize) -> Result<ArrayRef, Fault> {
    Parts::new(alloc, random, rows, Script::Ascii, NAMES)?.column(alloc, Validity::NonNullable)
}
