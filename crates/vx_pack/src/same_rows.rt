// Whether parts of columns have the same rows: one recursion through data types.

ghost use Rattle.std.specs.Prelude.{◌≡◌, ◌↔◌, ◌<◌, ℕ, true, IfSome, IsTrue};
ghost use Rattle.vx_base.specs.DTypes.{dtype_meaning, field_kinds, field_names};
ghost use Rattle.vx_base.specs.Kinds.{is_records};
ghost use Rattle.vx_pack.specs.Lists.{IsItemOf, is_lists};
ghost use Rattle.vx_pack.specs.Parts.{AreSame, IsPart, part_len, part_row};
ghost use Rattle.vx_pack.specs.Records.{AreRecords, AreSameFields, record_count};

use crate::fields::Records;
use crate::joined_lists::joined_both;
use crate::lists_anywhere::same_lists_anywhere;
use crate::parts::Part;
use crate::same_leaves::{same_texts, same_truths};
use crate::same_numbers::same_numbers;
use crate::same_sizes::same_sizes;
use crate::stored_lists::FEW;
use vx_base::{DType, StructFields};

// Whether rows of a data type are the same, one by one. Where the rows of each side are all one,
// only the first ones are compared.
#[cycle(same)]
pub(crate) fn same_rows(dtype: &DType, a: Part, b: Part) -> bool
    requires first { IsPart (dtype_meaning dtype.now) a }
    requires second { IsPart (dtype_meaning dtype.now) b }
    requires same_len { part_len b ≡ part_len a }
    ensures { IsTrue result ↔ AreSame (dtype_meaning dtype.now) a.entry b.entry }
{
    if a.len() > 1 && a.has_one_row() && b.has_one_row() {
        return same_by_kind(dtype, a.first(), b.first());
    }
    same_by_kind(dtype, a, b)
}

// Whether rows of a data type are the same, all of them compared.
#[cycle(same)]
fn same_by_kind(dtype: &DType, a: Part, b: Part) -> bool
    requires first { IsPart (dtype_meaning dtype.now) a }
    requires second { IsPart (dtype_meaning dtype.now) b }
    requires same_len { part_len b ≡ part_len a }
    ensures { IsTrue result ↔ AreSame (dtype_meaning dtype.now) a.entry b.entry }
{
    match dtype {
        DType::Bool(_) => same_truths(a, b),
        DType::Primitive(ptype, _) => same_numbers(*ptype, a, b),
        DType::Utf8(_) => same_texts(a, b),
        DType::Binary(_) => same_texts(a, b),
        DType::List(_, _) => same_lists(dtype, a, b),
        DType::FixedSizeList(_, _, _) => same_lists(dtype, a, b),
        DType::Struct(_, _) => same_records(dtype, a, b),
    }
}

// Whether lists are the same, one by one where they are not compared together.
#[cycle(same)]
fn same_lists(dtype: &DType, a: Part, b: Part) -> bool
    requires lists { is_lists (dtype_meaning dtype.now) ≡ true }
    requires first { IsPart (dtype_meaning dtype.now) a }
    requires second { IsPart (dtype_meaning dtype.now) b }
    requires same_len { part_len b ≡ part_len a }
    ensures { IsTrue result ↔ AreSame (dtype_meaning dtype.now) a.entry b.entry }
{
    if let Some(same) = same_stored_lists(dtype, a, b) {
        return same;
    }
    for i in 0..a.len() {
        if !same_list(dtype, a, b, i) {
            return false;
        }
    }
    true
}

// Whether lists are the same that stand by offsets and sizes on both sides, none of them null: by
// their sizes, and the items of all, where they stand end to end; else a block at a time, where
// elements can be compared so. Not inlined, so that the frame of each level of lists stays small.
#[cycle(same)]
#[inline(never)]
fn same_stored_lists(dtype: &DType, a: Part, b: Part) -> Option<bool>
    requires lists { is_lists (dtype_meaning dtype.now) ≡ true }
    requires first { IsPart (dtype_meaning dtype.now) a }
    requires second { IsPart (dtype_meaning dtype.now) b }
    requires same_len { part_len b ≡ part_len a }
    ensures { IfSome result (λ same. IsTrue same ↔ AreSame (dtype_meaning dtype.now) a.entry b.entry) }
{
    if a.len() < FEW {
        return None;
    }
    let first = a.stored_lists()?;
    let second = b.stored_lists()?;
    let items = items_of(dtype);
    let Some((first_items, second_items)) = joined_both(&first, &second) else {
        return same_lists_anywhere(items, &first, &second);
    };
    if !same_sizes(first.size_type, first.sizes, second.size_type, second.sizes) {
        return Some(false);
    }
    Some(same_rows(items, first_items, second_items))
}

// Whether both rows `i` are lists of the same rows, or null.
#[cycle(same)]
fn same_list(dtype: &DType, a: Part, b: Part, i: usize) -> bool
    requires lists { is_lists (dtype_meaning dtype.now) ≡ true }
    requires first { IsPart (dtype_meaning dtype.now) a }
    requires second { IsPart (dtype_meaning dtype.now) b }
    requires in_first { i < part_len a }
    requires in_second { i < part_len b }
    ensures { IsTrue result ↔ (part_row (dtype_meaning dtype.now) a.entry i
        ≡ part_row (dtype_meaning dtype.now) b.entry i) }
{
    let items = items_of(dtype);
    let Some(first) = a.list(i) else {
        return b.list(i).is_none();
    };
    let Some(second) = b.list(i) else {
        return false;
    };
    first.len() == second.len() && same_rows(items, first, second)
}

// The data type of the items of lists.
fn items_of(dtype: &DType) -> &DType
    requires { is_lists (dtype_meaning dtype.now) ≡ true }
    ensures { IsItemOf (dtype_meaning result.now) (dtype_meaning dtype.now) }
{
    match dtype {
        DType::List(items, _) => items,
        DType::FixedSizeList(items, _, _) => items,
        DType::Bool(_) | DType::Primitive(_, _) | DType::Utf8(_) => unreachable!(),
        DType::Binary(_) | DType::Struct(_, _) => unreachable!(),
    }
}

// Whether records are the same, one by one: column by column, where none is null and columns stand
// beside each other.
#[cycle(same)]
fn same_records(dtype: &DType, a: Part, b: Part) -> bool
    requires records { is_records (dtype_meaning dtype.now) ≡ true }
    requires first { IsPart (dtype_meaning dtype.now) a }
    requires second { IsPart (dtype_meaning dtype.now) b }
    requires same_len { part_len b ≡ part_len a }
    ensures { IsTrue result ↔ AreSame (dtype_meaning dtype.now) a.entry b.entry }
{
    let Some(first) = a.records() else {
        return same_each_record(dtype, a, b);
    };
    let Some(second) = b.records() else {
        return same_each_record(dtype, a, b);
    };
    same_fields(dtype.as_struct_fields(), first, second)
}

// Whether records are the same, each looked at by itself.
#[cycle(same)]
fn same_each_record(dtype: &DType, a: Part, b: Part) -> bool
    requires records { is_records (dtype_meaning dtype.now) ≡ true }
    requires first { IsPart (dtype_meaning dtype.now) a }
    requires second { IsPart (dtype_meaning dtype.now) b }
    requires same_len { part_len b ≡ part_len a }
    ensures { IsTrue result ↔ AreSame (dtype_meaning dtype.now) a.entry b.entry }
{
    for i in 0..a.len() {
        if !same_record(dtype, a, b, i) {
            return false;
        }
    }
    true
}

// Whether both rows `i` are records of the same fields, or null.
#[cycle(same)]
fn same_record(dtype: &DType, a: Part, b: Part, i: usize) -> bool
    requires records { is_records (dtype_meaning dtype.now) ≡ true }
    requires first { IsPart (dtype_meaning dtype.now) a }
    requires second { IsPart (dtype_meaning dtype.now) b }
    requires in_first { i < part_len a }
    requires in_second { i < part_len b }
    ensures { IsTrue result ↔ (part_row (dtype_meaning dtype.now) a.entry i
        ≡ part_row (dtype_meaning dtype.now) b.entry i) }
{
    let fields = dtype.as_struct_fields();
    let Some(first) = a.record(i) else {
        return b.record(i).is_none();
    };
    let Some(second) = b.record(i) else {
        return false;
    };
    same_fields(fields, first, second)
}

// Whether so many records have the same fields, one by one.
#[cycle(same)]
fn same_fields(fields: &StructFields, a: Records, b: Records) -> bool
    requires first { AreRecords (field_names fields.now) (field_kinds fields.now) a }
    requires second { AreRecords (field_names fields.now) (field_kinds fields.now) b }
    requires same_len { record_count b ≡ record_count a }
    ensures { IsTrue result ↔ AreSameFields (field_names fields.now) (field_kinds fields.now) a.entry b.entry }
{
    let dtypes = fields.fields();
    for place in 0..dtypes.len() {
        if !same_rows(&dtypes[place], a.field(place), b.field(place)) {
            return false;
        }
    }
    true
}
