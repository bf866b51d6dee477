// All parts of an array as text.

use std::process::Abort;
use vx_tree::{ArrayRef, Layout, Validity};

mod dtypes;
mod parts;
mod values;

/// All parts of an array as text, down to so many levels, on one line. Arrays have the same text
/// exactly where they have the same parts, byte for byte, if no name has signs of this form.
///
/// An array is a word for its layout, its data type, how many rows it has, its validity, its own
/// parts, and within brackets each array that it is made of. The numbers 5, null, 5, where 0 lies
/// below the null and bits tell which are there, are
/// `numbers u8? 3 told 05 00 05 (bits bool 3 plain 0:05)`.
///
/// - Data types: `bool`, `u8` and the other integer types, `text`, `bytes`, `[u8]` for lists,
///   `[u8;2]` for lists of size 2, `{a:u8,b:text}` for records; after that `?` where null may
///   stand.
/// - Validity: `plain` where no null may stand, `all` and `none` where all rows are valid by the
///   state alone, or none, `told` where an array tells, the last one within brackets. Constants and
///   dictionaries have none.
/// - `bits`: where the first bit stands in the first byte, a colon, and the bytes as they lie.
/// - `numbers`: the bytes of each number as they lie.
/// - `views`: each view, a point after each 4 of its bytes but the last, and within `<` and `>` the
///   bytes of each buffer.
/// - `lists`: the flag; the elements, the offsets, the sizes.
/// - `fixed`: the elements.
/// - `records`: each name after a point; the columns.
/// - `constant`: the value.
/// - `codes`: the flag; the codes, the values.
///
/// Ends where there are more levels.
pub(crate) fn written(rt: &(impl Abort + AllocGlobal), array: &ArrayRef, levels: usize) -> String {
    let mut text = String::new(rt.alloc());
    write_array(rt, &mut text, array, levels);
    text
}

// Adds an array.
fn write_array(
    rt: &(impl Abort + AllocGlobal),
    text: &mut String,
    array: &ArrayRef,
    levels: usize,
) {
    assert!(rt; 0 < levels);
    write_head(rt, text, array, levels);
    parts::write_own(rt, text, array.layout(), levels);
    let inner = inner_arrays(rt, array.layout());
    for part in &inner {
        add(rt, text, " (");
        write_array(rt, text, part, levels - 1);
        add(rt, text, ")");
    }
}

// Adds what each array begins with.
fn write_head(rt: &impl Abort, text: &mut String, array: &ArrayRef, levels: usize) {
    let len = array.len();
    add(rt, text, word_of(array.layout()));
    dtypes::write_dtype(rt, text, array.dtype(), levels);
    write!(text, " {len}").expect(rt, "written");
    add(rt, text, state_of(array.layout()));
}

// Adds these signs.
fn add(rt: &impl Abort, text: &mut String, signs: &str) {
    text.push_str(signs).expect(rt, "written");
}

// The word for a layout.
fn word_of(layout: &Layout) -> &'static str {
    match layout {
        Layout::Bool { .. } => "bits ",
        Layout::Primitive { .. } => "numbers ",
        Layout::Constant { .. } => "constant ",
        Layout::Dict { .. } => "codes ",
        Layout::FixedSizeList { .. } => "fixed ",
        Layout::ListView { .. } => "lists ",
        Layout::VarBinView { .. } => "views ",
        Layout::Struct { .. } => "records ",
    }
}

// The validity that a layout has of its own.
fn validity_of(layout: &Layout) -> Option<&Validity> {
    match layout {
        Layout::Bool { validity, .. } => Some(validity),
        Layout::Primitive { validity, .. } => Some(validity),
        Layout::FixedSizeList { validity, .. } => Some(validity),
        Layout::ListView { validity, .. } => Some(validity),
        Layout::VarBinView { validity, .. } => Some(validity),
        Layout::Struct { validity, .. } => Some(validity),
        Layout::Constant { .. } | Layout::Dict { .. } => None,
    }
}

// The word for the state of that validity.
fn state_of(layout: &Layout) -> &'static str {
    match validity_of(layout) {
        None => "",
        Some(Validity::NonNullable) => " plain",
        Some(Validity::AllValid) => " all",
        Some(Validity::AllInvalid) => " none",
        Some(Validity::Array(_)) => " told",
    }
}

// The arrays that a layout is made of, the one that tells the validity last.
fn inner_arrays<'a>(rt: &(impl Abort + AllocGlobal), layout: &'a Layout) -> Vec<&'a ArrayRef> {
    let mut inner = children(rt, layout);
    if let Some(Validity::Array(array)) = validity_of(layout) {
        inner.push(array).expect(rt, "lent");
    }
    inner
}

// The same without that one.
fn children<'a>(rt: &(impl Abort + AllocGlobal), layout: &'a Layout) -> Vec<&'a ArrayRef> {
    let alloc = rt.alloc();
    match layout {
        Layout::Dict { codes, values, .. } => vec![in alloc; codes, values].expect(rt, "lent"),
        Layout::FixedSizeList { elements, .. } => vec![in alloc; elements].expect(rt, "lent"),
        Layout::ListView {
            elements,
            offsets,
            sizes,
            ..
        } => vec![in alloc; elements, offsets, sizes].expect(rt, "lent"),
        Layout::Struct { columns, .. } => columns.iter().collect(alloc).expect(rt, "lent"),
        Layout::Bool { .. } | Layout::Primitive { .. } => Vec::new(alloc),
        Layout::Constant { .. } | Layout::VarBinView { .. } => Vec::new(alloc),
    }
}
