// Lists of texts and of records that lie anywhere or one after another, laid end to end at once and
// run by run: each element is the one that a loop over the offsets and the sizes comes to.

ghost use Rattle.std.specs.Prelude.{◌≤◌};

use super::has_ranges;
use std::alloc::Global;
use std::process::Abort;
use vx_base::{FieldNames, NativePType, Nullability, PType, Scalar, VortexError, call_native};
use vx_leaves::DictArray;
use vx_lists::ListViewArray;
use vx_structs::{StructArray, StructArrayExt};
use vx_test_help::{ints, valid_where};
use vx_text::VarBinViewArray;
use vx_tree::{ArrayRef, Layout, TypedArray, Validity};

// ---- elements

// How many elements there are.
const COUNT: u8 = 250;

// Elements, and the text of each of them.
#[derive(Drop)]
struct Elements {
    words: Vec<String>,
    array: ArrayRef,
}

// Texts of up to twelve bytes, and of more, no two of them alike.
fn words(alloc: Global) -> Result<Vec<String>, VortexError> {
    let mut words = Vec::new(alloc);
    for number in 0..COUNT {
        if number % 3 == 0 {
            words.push(format!(in alloc; "the text of number {number}")?)?;
        } else {
            words.push(format!(in alloc; "{number}")?)?;
        }
    }
    Ok(words)
}

// An array of these texts.
fn array_of(alloc: Global, words: &[String]) -> Result<ArrayRef, VortexError> {
    let items = words.iter().map(|word| word.as_str());
    Ok(VarBinViewArray::from_iter_str(alloc, items)?.into_array())
}

// Elements that are texts.
fn texts(alloc: Global) -> Result<Elements, VortexError> {
    let words = words(alloc)?;
    let array = array_of(alloc, &words)?;
    Ok(Elements { words, array })
}

// The numbers of the elements.
fn numbers(alloc: Global) -> Result<ArrayRef, VortexError> {
    let mut numbers = Vec::new(alloc);
    for number in 0..COUNT {
        numbers.push(number)?;
    }
    ints(alloc, &numbers)
}

// Elements that are records of a number and a text each.
fn records(alloc: Global) -> Result<Elements, VortexError> {
    let Elements { words, array } = texts(alloc)?;
    let names = FieldNames::try_new(alloc, &["number", "text"])?;
    let columns = vec![in alloc; numbers(alloc)?, array]?;
    let count = COUNT as usize;
    let validity = Validity::NonNullable;
    let records = StructArray::try_new(alloc, names, columns.into_iter(), count, validity)?;
    Ok(Elements {
        words,
        array: records.into_array(),
    })
}

// The first `count` of these elements.
fn first(alloc: Global, elements: &Elements, count: u8) -> Result<ArrayRef, VortexError> {
    elements.array.slice(alloc, 0..count as usize)
}

// Whether the array has the numbers of these elements.
fn has_numbers_of(array: &ArrayRef, places: &[usize]) -> bool {
    if !array.dtype().is_int() || array.len() != places.len() {
        return false;
    }
    for (i, place) in places.iter().enumerate() {
        if array.int_at(i) != Some(*place as i128) {
            return false;
        }
    }
    true
}

// Whether the array has the texts of these elements.
fn has_texts_of(
    alloc: Global,
    array: &ArrayRef,
    words: &[String],
    places: &[usize],
) -> Result<bool, VortexError> {
    let Ok(found) = VarBinViewArray::try_from_array(array.try_clone(alloc)?) else {
        return Ok(false);
    };
    if found.len() != places.len() {
        return Ok(false);
    }
    for (i, place) in places.iter().enumerate() {
        let Some(word) = words.get(*place) else {
            return Ok(false);
        };
        if found.as_array().bytes_at(i) != Some(word.as_bytes()) {
            return Ok(false);
        }
    }
    Ok(true)
}

// Whether the array has these elements.
fn has_elements(
    alloc: Global,
    array: &ArrayRef,
    words: &[String],
    places: &[usize],
) -> Result<bool, VortexError> {
    if let Layout::VarBinView { .. } = array.layout() {
        return has_texts_of(alloc, array, words, places);
    }
    let Ok(records) = StructArray::try_from_array(array.try_clone(alloc)?) else {
        return Ok(false);
    };
    let numbers = records.unmasked_field_by_name("number")?;
    let texts = records.unmasked_field_by_name("text")?;
    Ok(has_numbers_of(numbers, places) && has_texts_of(alloc, texts, words, places)?)
}

// ---- lists

// Sizes on both sides of eight and of sixteen, and greater ones.
const SIZES: [u8; 10] = [0, 1, 7, 8, 9, 15, 16, 17, 24, 100];

// Types that have each offset.
const OFFSET_TYPES: [PType; 7] = [
    PType::U8,
    PType::U16,
    PType::U32,
    PType::U64,
    PType::I16,
    PType::I32,
    PType::I64,
];

// Types that have each size.
const SIZE_TYPES: [PType; 8] = [
    PType::U8,
    PType::U16,
    PType::U32,
    PType::U64,
    PType::I8,
    PType::I16,
    PType::I32,
    PType::I64,
];

// Where lists start, how many elements lie in each, whether it is valid, and how many elements it
// has then: none where it is null.
#[derive(Drop)]
struct Lists {
    offsets: Vec<u8>,
    sizes: Vec<u8>,
    valid: Vec<bool>,
    lens: Vec<u8>,
}

impl Lists {
    // No lists.
    fn new(alloc: Global) -> Lists {
        Lists {
            offsets: Vec::new(alloc),
            sizes: Vec::new(alloc),
            valid: Vec::new(alloc),
            lens: Vec::new(alloc),
        }
    }

    // One more, which may be null.
    fn push(&mut self, offset: u8, size: u8, is_valid: bool) -> Result<(), VortexError> {
        self.offsets.push(offset)?;
        self.sizes.push(size)?;
        self.valid.push(is_valid)?;
        self.lens.push(if is_valid { size } else { 0 })?;
        Ok(())
    }

    // The list view of them over these elements, with offsets and sizes of two of the types.
    fn over(
        &self,
        alloc: Global,
        elements: ArrayRef,
        types: usize,
    ) -> Result<ListViewArray, VortexError> {
        let offsets = column(alloc, OFFSET_TYPES[types % 7], &self.offsets)?;
        let sizes = column(alloc, SIZE_TYPES[types % 8], &self.sizes)?;
        ListViewArray::try_new(
            alloc,
            elements,
            offsets,
            sizes,
            valid_where(alloc, &self.valid)?,
        )
    }
}

// These numbers, of a type that has them.
fn column(alloc: Global, ptype: PType, numbers: &[u8]) -> Result<ArrayRef, VortexError> {
    call_native!(ptype, native_column(alloc, numbers))
}

fn native_column<T: NativePType>(alloc: Global, numbers: &[u8]) -> Result<ArrayRef, VortexError> {
    let mut items = Vec::new(alloc);
    for number in numbers {
        let Some(item) = T::from_i128(*number as i128) else {
            return Err(VortexError::Overflow);
        };
        items.push(item)?;
    }
    ints::<T>(alloc, &items)
}

// ---- laid end to end

// Where lists start and how many elements they have once they lie end to end, and which of the
// elements these are.
#[derive(Drop)]
struct LaidOut {
    ranges: Vec<(usize, usize)>,
    places: Vec<usize>,
}

impl LaidOut {
    fn new(alloc: Global, lists: &Lists) -> Result<LaidOut, VortexError> {
        let (mut ranges, mut places) = (Vec::new(alloc), Vec::new(alloc));
        for (offset, len) in lists.offsets.iter().zip(lists.lens.iter()) {
            ranges.push((places.len(), *len as usize))?;
            push_places(&mut places, *offset, *len)?;
        }
        Ok(LaidOut { ranges, places })
    }
}

// Element `k` of a list is element `offset + k`.
fn push_places(places: &mut Vec<usize>, offset: u8, len: u8) -> Result<(), VortexError> {
    for k in 0..len as usize {
        places.push(offset as usize + k)?;
    }
    Ok(())
}

// Whether these rows are valid, and no others.
fn has_validity(alloc: Global, made: &ListViewArray, valid: &[bool]) -> Result<bool, VortexError> {
    for (i, is_valid) in valid.iter().enumerate() {
        if made.as_array().is_valid(alloc, i)? != *is_valid {
            return Ok(false);
        }
    }
    Ok(made.len() == valid.len())
}

// Whether they are lists of one type, with offsets and with sizes of one type.
fn are_of_one_type(taken: &ListViewArray, copied: &ListViewArray) -> bool {
    taken.as_array().dtype() == copied.as_array().dtype()
        && taken.offsets().dtype() == copied.offsets().dtype()
        && taken.sizes().dtype() == copied.sizes().dtype()
}

// Whether these lists lie end to end.
fn is_laid_out(
    alloc: Global,
    made: &ListViewArray,
    words: &[String],
    lists: &Lists,
) -> Result<bool, VortexError> {
    let LaidOut { ranges, places } = LaidOut::new(alloc, lists)?;
    Ok(
        made.is_zero_copy_to_list()
            && has_ranges(made, &ranges)
            && has_validity(alloc, made, &lists.valid)?
            && has_elements(alloc, made.elements(), words, &places)?,
    )
}

// Whether they do, over the first `count` elements, taken at once and copied run by run, with the
// same types.
fn are_laid_out(
    alloc: Global,
    elements: &Elements,
    count: u8,
    lists: &Lists,
    types: usize,
) -> Result<bool, VortexError> {
    let given = lists.over(alloc, first(alloc, elements, count)?, types)?;
    are_rebuilt(alloc, &given, &elements.words, lists)
}

// Whether the given lists do, taken at once and copied run by run, with the same types.
fn are_rebuilt(
    alloc: Global,
    given: &ListViewArray,
    words: &[String],
    lists: &Lists,
) -> Result<bool, VortexError> {
    let taken = given.rebuild_by_take(alloc)?;
    let copied = given.rebuild_by_runs(alloc)?;
    Ok(
        are_of_one_type(&taken, &copied)
            && is_laid_out(alloc, &taken, words, lists)?
            && is_laid_out(alloc, &copied, words, lists)?,
    )
}

// ---- lists that lie anywhere

// A number up to `most`.
fn number_up_to(state: &mut u32, most: u8) -> u8
    ensures { result ≤ most }
{
    *state = state.wrapping_mul(1664525).wrapping_add(1013904223);
    ((*state >> 16) % (most as u32 + 1)) as u8
}

// One more list of this size, or of all elements where these are fewer, from any element on or up
// to the last.
fn push_anywhere(
    lists: &mut Lists,
    state: &mut u32,
    size: u8,
    count: u8,
    is_valid: bool,
) -> Result<(), VortexError> {
    let size = size.min(count);
    let last = count - size;
    let is_last = number_up_to(state, 3) == 0;
    let offset = number_up_to(state, last);
    lists.push(if is_last { last } else { offset }, size, is_valid)
}

// Stops unless lists of these two sizes, and one more of each size, lie end to end.
fn expect_three(
    rt: &impl Abort,
    alloc: Global,
    elements: &Elements,
    sizes: (u8, u8),
) -> Result<(), VortexError> {
    let (first, second) = sizes;
    let mut state = first as u32 * 256 + second as u32;
    for third in SIZES {
        let mut lists = Lists::new(alloc);
        push_anywhere(&mut lists, &mut state, first, COUNT, true)?;
        push_anywhere(&mut lists, &mut state, second, COUNT, true)?;
        push_anywhere(&mut lists, &mut state, third, COUNT, true)?;
        let types = number_up_to(&mut state, 55) as usize;
        assert!(rt;
            are_laid_out(alloc, elements, COUNT, &lists, types)?,
            "lists of {first}, {second} and {third}"
        );
    }
    Ok(())
}

#[test]
fn texts_of_three_lists(rt: HostRuntime) {
    let elements = texts(rt.alloc()).expect(&rt, "made");
    for case in 0..100 {
        let sizes = (SIZES[case / 10], SIZES[case % 10]);
        expect_three(&rt, rt.alloc(), &elements, sizes).expect(&rt, "laid out");
    }
}

// So many lists of any of the sizes, of which `nulls` of three are null.
fn lists_with_nulls(
    alloc: Global,
    state: &mut u32,
    rows: usize,
    count: u8,
    nulls: u8,
) -> Result<Lists, VortexError> {
    let mut lists = Lists::new(alloc);
    for _ in 0..rows {
        let size = SIZES[number_up_to(state, 9) as usize];
        let is_valid = number_up_to(state, 2) >= nulls;
        push_anywhere(&mut lists, state, size, count, is_valid)?;
    }
    Ok(lists)
}

// Stops unless lists over the first `count` elements lie end to end, for each number of rows up to
// 40.
fn expect_rows(
    rt: &impl Abort,
    alloc: Global,
    elements: &Elements,
    count: u8,
    nulls: u8,
) -> Result<(), VortexError> {
    let mut state = count as u32 * 256 + nulls as u32;
    for rows in 0..41 {
        let lists = lists_with_nulls(alloc, &mut state, rows, count, nulls)?;
        assert!(rt;
            are_laid_out(alloc, elements, count, &lists, rows)?,
            "{rows} lists over {count} elements, {nulls} of three null"
        );
    }
    Ok(())
}

// How many elements lists lie over.
const COUNTS: [u8; 8] = [0, 1, 8, 9, 16, 17, 100, COUNT];

#[test]
fn texts_of_lists_and_nulls(rt: HostRuntime) {
    let elements = texts(rt.alloc()).expect(&rt, "made");
    for case in 0..32u8 {
        let count = COUNTS[case as usize / 4];
        expect_rows(&rt, rt.alloc(), &elements, count, case % 4).expect(&rt, "laid out");
    }
}

#[test]
fn records_of_lists_and_nulls(rt: HostRuntime) {
    let elements = records(rt.alloc()).expect(&rt, "made");
    for case in 0..32u8 {
        let count = COUNTS[case as usize / 4];
        expect_rows(&rt, rt.alloc(), &elements, count, case % 4).expect(&rt, "laid out");
    }
}

// ---- lists one after another

// Where a list of this size begins that lies behind the last one, or where it would go past the
// last of `count` elements, with the first.
fn next_offset(lists: &Lists, size: u8, count: u8) -> u8
    requires { size ≤ count }
    ensures { result ≤ count }
{
    let (Some(offset), Some(last)) = (lists.offsets.last(), lists.sizes.last()) else {
        return 0;
    };
    let end = *offset as usize + *last as usize;
    if end + size as usize <= count as usize {
        end as u8
    } else {
        0
    }
}

// One more list of this size, one after another or anywhere.
fn push_placed(
    lists: &mut Lists,
    state: &mut u32,
    size: u8,
    is_next: bool,
) -> Result<(), VortexError> {
    let size = size.min(COUNT);
    if !is_next {
        return push_anywhere(lists, state, size, COUNT, true);
    }
    let offset = next_offset(lists, size, COUNT);
    lists.push(offset, size, true)
}

// ---- few lists that have elements

// So many lists, of which every third has elements until so many have.
fn sparse_lists(
    alloc: Global,
    state: &mut u32,
    rows: usize,
    filled: usize,
    is_next: bool,
) -> Result<Lists, VortexError> {
    let mut lists = Lists::new(alloc);
    for row in 0..rows {
        let has_elements = row % 3 == 0 && row / 3 < filled;
        let size = if has_elements {
            number_up_to(state, 20).max(1)
        } else {
            0
        };
        push_placed(&mut lists, state, size, is_next)?;
    }
    Ok(lists)
}

// Stops unless so many lists lie end to end, where a quarter of them have elements, one fewer and
// one more.
fn expect_sparse(
    rt: &impl Abort,
    alloc: Global,
    elements: &Elements,
    rows: usize,
) -> Result<(), VortexError> {
    let mut state = 7;
    for case in 0..6 {
        let filled = (rows / 4 + case / 2).saturating_sub(1);
        let lists = sparse_lists(alloc, &mut state, rows, filled, case % 2 == 0)?;
        let types = number_up_to(&mut state, 55) as usize;
        assert!(rt;
            are_laid_out(alloc, elements, COUNT, &lists, types)?,
            "{rows} lists, {filled} of them with elements"
        );
    }
    Ok(())
}

// How many lists there are: a few, and some hundreds.
const ROWS: [usize; 12] = [1, 3, 4, 5, 7, 8, 9, 16, 399, 400, 401, 403];

#[test]
fn texts_of_few_lists(rt: HostRuntime) {
    let elements = texts(rt.alloc()).expect(&rt, "made");
    for rows in ROWS {
        expect_sparse(&rt, rt.alloc(), &elements, rows).expect(&rt, "laid out");
    }
}

#[test]
fn records_of_few_lists(rt: HostRuntime) {
    let elements = records(rt.alloc()).expect(&rt, "made");
    for rows in ROWS {
        expect_sparse(&rt, rt.alloc(), &elements, rows).expect(&rt, "laid out");
    }
}

// ---- very many positions

// How many positions are written eight at once at most.
const MANY: usize = 1 << 19;

// Lists of up to twenty elements, `total` in all, where rows enough are asked for.
fn many_lists(
    alloc: Global,
    state: &mut u32,
    total: usize,
    is_next: bool,
) -> Result<Lists, VortexError> {
    let mut lists = Lists::new(alloc);
    let mut left = total;
    for _ in 0..total {
        if left == 0 {
            break;
        }
        let size = left.min(number_up_to(state, 20) as usize);
        push_placed(&mut lists, state, size as u8, is_next)?;
        left -= size;
    }
    Ok(lists)
}

// Whether the array has the numbers of these elements, read where they lie.
fn has_bytes_of(array: &ArrayRef, places: &[usize]) -> bool {
    let Layout::Primitive { bytes, .. } = array.layout() else {
        return false;
    };
    let bytes = bytes.as_slice();
    for (byte, place) in bytes.iter().zip(places.iter()) {
        if *byte as usize != *place {
            return false;
        }
    }
    bytes.len() == places.len()
}

// Whether every 64th row of the array has the text of its element.
fn has_some_texts_of(
    alloc: Global,
    array: &ArrayRef,
    words: &[String],
    places: &[usize],
) -> Result<bool, VortexError> {
    let Ok(found) = VarBinViewArray::try_from_array(array.try_clone(alloc)?) else {
        return Ok(false);
    };
    if found.len() != places.len() {
        return Ok(false);
    }
    for (i, place) in places.iter().enumerate() {
        let Some(word) = words.get(*place) else {
            return Ok(false);
        };
        if i % 64 == 0 && found.as_array().bytes_at(i) != Some(word.as_bytes()) {
            return Ok(false);
        }
    }
    Ok(true)
}

// Whether lists lie so, over texts or over records of a number and a text.
fn has_many(
    alloc: Global,
    made: &ListViewArray,
    words: &[String],
    wanted: &LaidOut,
) -> Result<bool, VortexError> {
    let is_laid = made.is_zero_copy_to_list() && has_ranges(made, &wanted.ranges);
    let places = &wanted.places;
    if let Layout::VarBinView { .. } = made.elements().layout() {
        return Ok(is_laid && has_some_texts_of(alloc, made.elements(), words, places)?);
    }
    let Ok(records) = StructArray::try_from_array(made.elements().try_clone(alloc)?) else {
        return Ok(false);
    };
    let numbers = records.unmasked_field_by_name("number")?;
    let texts = records.unmasked_field_by_name("text")?;
    let has_numbers = has_bytes_of(numbers, places);
    Ok(is_laid && has_numbers && has_some_texts_of(alloc, texts, words, places)?)
}

// Stops unless the given lists lie so, taken at once and copied run by run.
fn expect_many(
    rt: &impl Abort,
    alloc: Global,
    given: &ListViewArray,
    words: &[String],
    wanted: &LaidOut,
) -> Result<(), VortexError> {
    let taken = given.rebuild_by_take(alloc)?;
    let copied = given.rebuild_by_runs(alloc)?;
    assert!(rt; are_of_one_type(&taken, &copied));
    assert!(rt; has_many(alloc, &taken, words, wanted)?, "taken at once");
    assert!(rt;
        has_many(alloc, &copied, words, wanted)?,
        "copied run by run"
    );
    Ok(())
}

// Stops unless lists of so many elements in all lie end to end.
fn expect_total(
    rt: &impl Abort,
    alloc: Global,
    elements: &Elements,
    total: usize,
    is_next: bool,
) -> Result<(), VortexError> {
    let mut state = 3;
    let lists = many_lists(alloc, &mut state, total, is_next)?;
    let wanted = LaidOut::new(alloc, &lists)?;
    let places = wanted.places.len();
    assert!(rt; places == total, "{places} elements, not {total}");
    let given = lists.over(alloc, elements.array.try_clone(alloc)?, total)?;
    expect_many(rt, alloc, &given, &elements.words, &wanted)
}

#[test]
fn many_texts_one_after_another(rt: HostRuntime) {
    let elements = texts(rt.alloc()).expect(&rt, "made");
    expect_total(&rt, rt.alloc(), &elements, MANY + 1, true).expect(&rt, "laid out");
}

#[test]
fn many_texts_anywhere(rt: HostRuntime) {
    let elements = texts(rt.alloc()).expect(&rt, "made");
    expect_total(&rt, rt.alloc(), &elements, MANY, false).expect(&rt, "laid out");
}

#[test]
fn many_records_one_after_another(rt: HostRuntime) {
    let elements = records(rt.alloc()).expect(&rt, "made");
    expect_total(&rt, rt.alloc(), &elements, MANY, true).expect(&rt, "laid out");
}

#[test]
fn many_records_anywhere(rt: HostRuntime) {
    let elements = records(rt.alloc()).expect(&rt, "made");
    expect_total(&rt, rt.alloc(), &elements, MANY + 1, false).expect(&rt, "laid out");
}

// ---- offsets and sizes of other layouts

// These numbers, which are 250 at most, as values of a dictionary.
fn coded(alloc: Global, items: &[u8]) -> Result<ArrayRef, VortexError> {
    let mut values = Vec::new(alloc);
    for value in 0..=COUNT {
        values.push(value)?;
    }
    let codes = ints(alloc, items)?;
    Ok(DictArray::try_new(alloc, codes, ints(alloc, &values)?)?.into_array())
}

// One number many times.
fn repeated(alloc: Global, item: u8, rows: usize) -> Result<ArrayRef, VortexError> {
    let item = Scalar::int(item as i128, PType::U8, Nullability::NonNullable);
    ArrayRef::constant(alloc, item, rows)
}

// Stops unless lists lie end to end whose offsets and sizes are values of dictionaries.
fn expect_coded(
    rt: &impl Abort,
    alloc: Global,
    elements: &Elements,
    lists: &Lists,
) -> Result<(), VortexError> {
    let (offsets, sizes) = (coded(alloc, &lists.offsets)?, coded(alloc, &lists.sizes)?);
    let array = elements.array.try_clone(alloc)?;
    let validity = valid_where(alloc, &lists.valid)?;
    let given = ListViewArray::try_new(alloc, array, offsets, sizes, validity)?;
    let is_right = are_rebuilt(alloc, &given, &elements.words, lists)?;
    assert!(rt; is_right, "{} lists by codes", lists.lens.len());
    Ok(())
}

#[test]
fn lists_by_codes(rt: HostRuntime) {
    let elements = texts(rt.alloc()).expect(&rt, "made");
    let mut state = 5;
    for rows in ROWS {
        let many = lists_with_nulls(rt.alloc(), &mut state, rows, COUNT, 1).expect(&rt, "made");
        expect_coded(&rt, rt.alloc(), &elements, &many).expect(&rt, "laid out");
        let few = sparse_lists(rt.alloc(), &mut state, rows, 1, true).expect(&rt, "made");
        expect_coded(&rt, rt.alloc(), &elements, &few).expect(&rt, "laid out");
    }
}

// Stops unless lists that all have this size lie end to end.
fn expect_repeated(
    rt: &impl Abort,
    alloc: Global,
    elements: &Elements,
    size: u8,
    rows: usize,
) -> Result<(), VortexError> {
    let mut lists = Lists::new(alloc);
    for _ in 0..rows {
        lists.push(7, size, true)?;
    }
    let (offsets, sizes) = (repeated(alloc, 7, rows)?, repeated(alloc, size, rows)?);
    let array = elements.array.try_clone(alloc)?;
    let given = ListViewArray::try_new(alloc, array, offsets, sizes, Validity::NonNullable)?;
    let wanted = LaidOut::new(alloc, &lists)?;
    expect_many(rt, alloc, &given, &elements.words, &wanted)
}

#[test]
fn lists_that_are_alike(rt: HostRuntime) {
    let elements = records(rt.alloc()).expect(&rt, "made");
    for case in 0..120 {
        let (size, rows) = (SIZES[case % 10], ROWS[case / 10]);
        expect_repeated(&rt, rt.alloc(), &elements, size, rows).expect(&rt, "laid out");
    }
}

#[test]
fn many_lists_that_are_alike(rt: HostRuntime) {
    let elements = texts(rt.alloc()).expect(&rt, "made");
    for more in 0..2 {
        expect_repeated(&rt, rt.alloc(), &elements, 128, MANY / 128 + more).expect(&rt, "laid out");
    }
}
