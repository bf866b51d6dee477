// Where texts lie in buffers that are none as a whole, so that however many views name the same
// bytes, these are read once.

ghost use Rattle.std.specs.Prelude.{◌≡◌, ◌<◌, ◌≤◌, ◌*◌, ◌↔◌, ◌^◌, nat_lt, [], length, IfOk, IsTrue, IsUtf8, slice_index_or, slice_range};
ghost use Rattle.vx_base.specs.Refusals.{Gives};
ghost use Rattle.vx_views.specs.TextsAround.{AreReached, AreTextsAround, AreTextTables, IsLongestFront, open_bytes, open_size, open_sizes};

use crate::view::BinaryView;
use crate::view_checks::{is_text, is_text_range};
use std::alloc::Global;
use std::marker::Model;
use std::ops::Range;
use vx_base::{ByteBuffer, Mask, VortexError};

// How far apart the bytes are around which texts are kept. A range is 16 bytes, so that a table has
// a quarter of its buffer's; a value that holds none of these bytes is shorter, and read by itself.
const STEP: usize = 64;

// For each 64th byte of a buffer the longest text that holds it, from its start up to its end.
#[derive(Drop)]
pub(crate) struct TextTable {
    ranges: Vec<(usize, usize)>,
}

impl Model for TextTable {
    ghost use Rattle.std.specs.Prelude.{List, ℕ};

    ghost Value = { List (ℕ × ℕ) };

    ghost view = { λ t. t.ranges.items };
}

impl TextTable {
    // The table of no byte.
    fn empty(alloc: Global) -> TextTable
        ensures { length result ≡ 0 }
    {
        TextTable {
            ranges: Vec::new(alloc),
        }
    }

    // The table of all bytes of a buffer, each of which is read once.
    fn of(alloc: Global, bytes: &[u8]) -> Result<TextTable, VortexError>
        ensures around { Gives result (λ table. AreTextsAround bytes.now table) }
        ensures all { IfOk result (λ table. length bytes.now ≤ 64 * length table) }
    {
        let mut ranges = Vec::with_capacity(alloc, bytes.len() / STEP + 1)?;
        let mut start = 0;
        while start < bytes.len() {
            let end = start + longest_front(&bytes[start..]);
            ranges.resize(end / STEP + 1, (start, end))?;
            start = end + 1;
        }
        Ok(TextTable { ranges })
    }

    // Whether a range of the bytes that the table is of is a text.
    #[inline(never)]
    fn is_text_range(&self, bytes: &[u8], range: Range<usize>) -> bool
        requires table { AreTextsAround bytes.now self.now }
        requires some { range.start < range.end }
        requires within { range.end ≤ length bytes.now }
        ensures { IsTrue result ↔ IsUtf8 (slice_range bytes.now range.start range.end) }
    {
        let place = range.start.div_ceil(STEP);
        if self.ranges.len() <= place || range.end <= STEP * place {
            return is_text(&bytes[range]);
        }
        let (start, end) = self.ranges[place];
        if range.start < start || end < range.end {
            return false;
        }
        is_text_range(&bytes[start..end], range.start - start..range.end - start)
    }
}

// How many bytes the longest text has that these begin with.
fn longest_front(bytes: &[u8]) -> usize
    ensures { IsLongestFront bytes.now result }
{
    match str::from_utf8(bytes) {
        Ok(text) => text.len(),
        Err(error) => error.valid_up_to(),
    }
}

// Whether a range of a buffer is a text: by the buffer's table where there is one.
pub(crate) fn is_text_at(
    bytes: &[u8],
    range: Range<usize>,
    tables: &[TextTable],
    block: usize,
) -> bool
    requires tables { AreTextsAround bytes.now (slice_index_or tables.now block []) }
    requires some { range.start < range.end }
    requires within { range.end ≤ length bytes.now }
    ensures { IsTrue result ↔ IsUtf8 (slice_range bytes.now range.start range.end) }
{
    match tables.get(block) {
        Some(table) => table.is_text_range(bytes, range),
        None => is_text(&bytes[range]),
    }
}

// The tables of the buffers that are not known to be texts, where the valid views name more bytes of
// these than they have. Else none: then reading each value by itself costs no more than that.
pub(crate) fn text_tables(
    alloc: Global,
    views: &[BinaryView],
    mask: &Mask,
    buffers: &[ByteBuffer],
    texts: &[bool],
) -> Result<Vec<TextTable>, VortexError>
    requires rows { length mask.now ≡ length views.now }
    requires texts { length texts.now ≡ length buffers.now }
    ensures tables { Gives result (λ tables. AreTextTables buffers.now tables.items) }
    ensures reached { IfOk result (λ tables. 0 < open_bytes texts.now buffers.now
        → open_bytes texts.now buffers.now < open_sizes texts.now mask.now views.now
        → AreReached texts.now buffers.now tables.items) }
{
    let open = open_bytes(buffers, texts);
    if open == 0 || !name_more(views, mask, texts, open) {
        return Ok(Vec::new(alloc));
    }
    let mut tables = Vec::with_capacity(alloc, buffers.len())?;
    for (block, buffer) in buffers.iter().enumerate() {
        let table = if texts[block] {
            TextTable::empty(alloc)
        } else {
            TextTable::of(alloc, buffer.as_slice())?
        };
        tables.push(table)?;
    }
    Ok(tables)
}

// How many bytes the buffers have that are not known to be texts.
fn open_bytes(buffers: &[ByteBuffer], texts: &[bool]) -> u128
    requires { length texts.now ≡ length buffers.now }
    ensures { result ≡ open_bytes texts.now buffers.now }
{
    let mut count = 0;
    for (block, buffer) in buffers.iter().enumerate() {
        if !texts[block] {
            count += buffer.as_slice().len() as u128;
        }
    }
    count
}

// Whether the valid views name more than so many bytes of buffers that are not known to be texts.
fn name_more(views: &[BinaryView], mask: &Mask, texts: &[bool], limit: u128) -> bool
    requires { length mask.now ≡ length views.now }
    ensures { result ≡ nat_lt limit (open_sizes texts.now mask.now views.now) }
{
    let mut valid = mask.rows();
    let mut left = limit;
    for (row, view) in views.iter().enumerate() {
        if valid.value(row) {
            let size = open_size(view, texts);
            if left < size {
                return true;
            }
            left -= size;
        }
    }
    false
}

// How many bytes of its buffer a view names, where that is not known to be a text.
fn open_size(view: &BinaryView, texts: &[bool]) -> u128
    ensures { result ≡ open_size texts.now view.now }
{
    if view.is_inlined() {
        return 0;
    }
    match texts.get(view.as_view().buffer_index as usize) {
        Some(true) => 0,
        _ => view.len() as u128,
    }
}
