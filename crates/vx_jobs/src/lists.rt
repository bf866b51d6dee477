// Lists laid end to end, as Arrow wants them, and texts put into buffers of their own.

use crate::columns::{Lie, lists_in, lists_of_numbers, numbers, points};
use crate::digest::{Digest, with_array, with_texts};
use crate::fault::Fault;
use crate::random::{Random, Share};
use crate::scale::Scale;
use crate::texts::names;
use std::alloc::Global;
use vx_base::{Mask, PType};
use vx_leaves::{PrimitiveArray, PrimitiveArrayExt};
use vx_lists::{ListViewArray, ListViewRebuildMode};
use vx_text::VarBinViewArray;
use vx_tree::{ArrayRef, TypedArray, Validity};
use vx_views::MAX_BUFFER_LEN;

// Columns of lists, and one of texts.
#[derive(Drop)]
struct Columns {
    numbers: ArrayRef,
    texts: ArrayRef,
    records: ArrayRef,
    lists: ArrayRef,
    single: ArrayRef,
    names: ArrayRef,
}

// So many lists of up to so many rows of an array, which lie anywhere in it.
fn anywhere(
    alloc: Global,
    random: &mut Random,
    rows: usize,
    elements: &ArrayRef,
    most: usize,
) -> Result<ArrayRef, Fault> {
    let elements = elements.try_clone(alloc)?;
    Ok(lists_in(alloc, random, rows, elements, most, Lie::Anywhere)?.into_array())
}

impl Columns {
    fn new(alloc: Global, random: &mut Random, scale: Scale) -> Result<Columns, Fault> {
        let rows = scale.column;
        let numbers = lists_of_numbers(alloc, random, rows)?.into_array();
        let names = names(alloc, random, rows)?;
        let points = points(alloc, random, rows)?;
        let some = numbers_of(alloc, random, rows)?;
        let texts = anywhere(alloc, random, rows, &names, 5)?;
        let records = anywhere(alloc, random, rows, &points, 5)?;
        let lists = anywhere(alloc, random, rows, &numbers, 3)?;
        let single = anywhere(alloc, random, rows, &some, 1)?;
        Ok(Columns {
            numbers,
            texts,
            records,
            lists,
            single,
            names,
        })
    }
}

// So many numbers.
fn numbers_of(alloc: Global, random: &mut Random, rows: usize) -> Result<ArrayRef, Fault> {
    numbers(alloc, random, rows, PType::I64, Validity::NonNullable)
}

// The lists of an array.
fn lists_of(array: ArrayRef) -> Result<ListViewArray, Fault> {
    match ListViewArray::try_from_array(array) {
        Ok(lists) => Ok(lists),
        Err(_) => Err(Fault::Usage),
    }
}

// The lists of some rows, half of which a filter keeps, laid end to end.
fn filtered(alloc: Global, random: &mut Random, rows: &ArrayRef) -> Result<ListViewArray, Fault> {
    let bits = random.bits(alloc, rows.len(), Share::Half)?;
    let kept = rows.filter(alloc, &Mask::from_buffer(alloc, bits)?)?;
    let mode = ListViewRebuildMode::MakeZeroCopyToList;
    Ok(lists_of(kept)?.rebuild(alloc, mode)?)
}

// The numbers of an array in the narrowest type.
fn narrowed(alloc: Global, array: &ArrayRef) -> Result<ArrayRef, Fault> {
    match PrimitiveArray::try_from_array(array.try_clone(alloc)?) {
        Ok(numbers) => Ok(numbers.narrow(alloc)?.into_array()),
        Err(_) => Err(Fault::Usage),
    }
}

// The texts of some rows, half of which a filter keeps, in buffers of their own.
fn rebuffered(alloc: Global, random: &mut Random, rows: &ArrayRef) -> Result<ArrayRef, Fault> {
    let bits = random.bits(alloc, rows.len(), Share::Half)?;
    let kept = rows.filter(alloc, &Mask::from_buffer(alloc, bits)?)?;
    match VarBinViewArray::try_from_array(kept) {
        Ok(texts) => Ok(texts.rebuffer(alloc, MAX_BUFFER_LEN)?.into_array()),
        Err(_) => Err(Fault::Usage),
    }
}

// A digest of lists, of the texts in them, and of their offsets in the narrowest type.
fn with_lists(alloc: Global, digest: Digest, lists: &ListViewArray) -> Result<Digest, Fault> {
    let digest = with_array(alloc, digest, lists.as_array())?;
    let digest = with_texts(digest, lists.as_array());
    with_array(alloc, digest, &narrowed(alloc, lists.offsets())?)
}

// A digest of some rows of a column of lists, half of which a filter keeps, laid end to end.
fn with_filtered(
    alloc: Global,
    random: &mut Random,
    digest: Digest,
    column: &ArrayRef,
    start: usize,
    end: usize,
) -> Result<Digest, Fault> {
    let rows = column.slice(alloc, start..end)?;
    let lists = filtered(alloc, random, &rows)?;
    with_lists(alloc, digest, &lists)
}

// A digest of some rows of a column of lists, rebuilt by a mode.
fn with_rebuilt(
    alloc: Global,
    digest: Digest,
    column: &ArrayRef,
    start: usize,
    end: usize,
    mode: ListViewRebuildMode,
) -> Result<Digest, Fault> {
    let rows = lists_of(column.slice(alloc, start..end)?)?;
    let lists = rows.rebuild(alloc, mode)?;
    with_lists(alloc, digest, &lists)
}

// A digest of a batch of each column.
fn with_batch(
    alloc: Global,
    random: &mut Random,
    digest: Digest,
    columns: &Columns,
    start: usize,
    end: usize,
) -> Result<Digest, Fault> {
    let exact = ListViewRebuildMode::MakeExact;
    let trim = ListViewRebuildMode::TrimElements;
    let digest = with_filtered(alloc, random, digest, &columns.numbers, start, end)?;
    let digest = with_filtered(alloc, random, digest, &columns.texts, start, end)?;
    let digest = with_filtered(alloc, random, digest, &columns.single, start, end)?;
    let digest = with_rebuilt(alloc, digest, &columns.records, start, end, exact)?;
    let digest = with_rebuilt(alloc, digest, &columns.lists, start, end, exact)?;
    let digest = with_rebuilt(alloc, digest, &columns.numbers, start, end, trim)?;
    let names = columns.names.slice(alloc, start..end)?;
    let names = rebuffered(alloc, random, &names)?;
    let digest = with_array(alloc, digest, &names)?;
    Ok(with_texts(digest, &names).next_turn())
}

pub(crate) fn run(alloc: Global, random: &mut Random, scale: Scale) -> Result<Digest, Fault> {
    let columns = Columns::new(alloc, random, scale)?;
    let mut digest = Digest::new(scale.rounds);
    for _ in 0..scale.rounds {
        let rows = scale.cut(random);
        digest = with_batch(alloc, random, digest, &columns, rows.start, rows.end)?;
    }
    Ok(digest)
}
