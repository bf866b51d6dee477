// Operations on records.

use crate::data::{
    Scale, column_name, copies, five_columns, multiples, numbers, random_numbers, records_under,
    some_null, truths,
};
use crate::fault::Fault;
use crate::made::Made;
use crate::operation::Operation;
use std::alloc::Global;
use vx_base::{FieldName, FieldNames, VortexError};
use vx_structs::{StructArray, StructArrayExt};
use vx_tree::{ArrayRef, TypedArray, Validity};

// The names of five columns.
const NAMES: [&str; 5] = ["number", "truth", "count", "flag", "weight"];

// Records, and what is done with them.
#[derive(Drop)]
pub(crate) enum RecordOperation {
    // The checks of the parts of records, so many of them.
    TryNew(FieldNames, Vec<ArrayRef>, usize),
    // Records with one column more.
    WithColumn(StructArray, ArrayRef),
    // Records without a column.
    RemoveColumn(StructArray),
    // Records whose nulls are pushed into their columns.
    Push(StructArray),
    // Records with some of the columns.
    Project(StructArray, Vec<FieldName>),
    // Records, one array after another.
    Concat(Vec<StructArray>),
    // The column of each of these names.
    ByName(StructArray, Vec<FieldName>),
}

impl Operation for RecordOperation {
    fn run(&mut self, alloc: Global) -> Result<Made, Fault> {
        match &*self {
            RecordOperation::TryNew(names, columns, rows) => {
                let made = try_new(alloc, names, columns, *rows)?;
                Ok(Made::Array(made.into_array()))
            }
            RecordOperation::WithColumn(records, column) => {
                let made = records.with_column(alloc, "last", column.try_clone(alloc)?)?;
                Ok(Made::Array(made.into_array()))
            }
            RecordOperation::RemoveColumn(records) => removed(alloc, records),
            RecordOperation::Push(records) => {
                let made = records.push_validity_into_children(alloc, true)?;
                Ok(Made::Array(made.into_array()))
            }
            RecordOperation::Project(records, names) => {
                Ok(Made::Array(records.project(alloc, names)?.into_array()))
            }
            RecordOperation::Concat(records) => {
                let made = StructArray::try_concat(alloc, records.iter())?;
                Ok(Made::Array(made.into_array()))
            }
            RecordOperation::ByName(records, names) => {
                Ok(Made::Number(rows_by_name(records, names)))
            }
        }
    }
}

fn try_new(
    alloc: Global,
    names: &FieldNames,
    columns: &[ArrayRef],
    rows: usize,
) -> Result<StructArray, Fault> {
    let columns = shared(alloc, columns)?.into_iter();
    let names = names.try_clone(alloc)?;
    Ok(StructArray::try_new(alloc, names, columns, rows, Validity::NonNullable)?)
}

// The same arrays, shared.
fn shared(alloc: Global, arrays: &[ArrayRef]) -> Result<Vec<ArrayRef>, Fault> {
    let mut shared = Vec::with_capacity(alloc, arrays.len())?;
    for array in arrays {
        shared.push(array.try_clone(alloc)?)?;
    }
    Ok(shared)
}

fn removed(alloc: Global, records: &StructArray) -> Result<Made, Fault> {
    match records.remove_column(alloc, "count")? {
        Some((rest, _column)) => Ok(Made::Array(rest.into_array())),
        None => Err(Fault::Usage),
    }
}

// The rows of the columns of these names, one column after another.
fn rows_by_name(records: &StructArray, names: &[FieldName]) -> u64 {
    let mut rows = 0u64;
    for name in names {
        if let Some(column) = records.unmasked_field_by_name_opt(name.as_str()) {
            rows = rows.wrapping_add(column.len() as u64);
        }
    }
    rows
}

// Records of five columns, none of them null.
fn records_of_five(alloc: Global, rows: usize) -> Result<StructArray, Fault> {
    let columns = five_columns(alloc, rows)?;
    records_under(alloc, &NAMES, columns, rows, Validity::NonNullable)
}

// Records of five columns, in which records and fields are null.
fn records_to_push(alloc: Global, rows: usize) -> Result<StructArray, Fault> {
    let valid = truths(alloc, rows, 10, 12)?;
    let mut columns = Vec::with_capacity(alloc, 5)?;
    for column in five_columns(alloc, rows)? {
        columns.push(column.mask(alloc, &valid)?)?;
    }
    records_under(alloc, &NAMES, columns, rows, some_null(alloc, rows, 3)?)
}

// Three names of five.
fn names_to_project(alloc: Global) -> Result<Vec<FieldName>, Fault> {
    let mut names = Vec::with_capacity(alloc, 3)?;
    for name in ["weight", "truth", "number"] {
        names.push(FieldName::try_new(alloc, name)?)?;
    }
    Ok(names)
}

// Four arrays of the same records.
fn records_to_join(alloc: Global, rows: usize) -> Result<Vec<StructArray>, Fault> {
    let array = records_of_five(alloc, rows)?;
    let mut records = Vec::with_capacity(alloc, 4)?;
    for _ in 0..4 {
        records.push(array.try_clone(alloc)?)?;
    }
    Ok(records)
}

// The names of columns that end in these numbers.
fn column_names(alloc: Global, numbers: &[u32]) -> Result<Vec<FieldName>, Fault> {
    let mut names = Vec::with_capacity(alloc, numbers.len())?;
    for number in numbers {
        names.push(column_name(alloc, *number)?)?;
    }
    Ok(names)
}

// Records of one row and a hundred columns.
fn wide_records(alloc: Global) -> Result<StructArray, Fault> {
    let names = column_names(alloc, &multiples(alloc, 100, 1)?)?;
    let mut texts = Vec::with_capacity(alloc, 100)?;
    for name in &names {
        texts.push(name.as_str())?;
    }
    let columns = copies(alloc, &numbers(alloc, 1)?, 100)?;
    records_under(alloc, &texts, columns, 1, Validity::NonNullable)
}

// The finding of columns by names, one for ten rows.
fn by_name(alloc: Global, rows: usize) -> Result<RecordOperation, Fault> {
    let wanted = column_names(alloc, &random_numbers(alloc, rows / 10, 100, 9)?)?;
    Ok(RecordOperation::ByName(wide_records(alloc)?, wanted))
}

// An operation on records, of five columns but for the one that finds columns by name.
pub(crate) fn ready(alloc: Global, scale: Scale, name: &str) -> Result<RecordOperation, Fault> {
    let rows = scale.rows();
    match name {
        "try_new" => {
            let names = FieldNames::try_new(alloc, &NAMES)?;
            Ok(RecordOperation::TryNew(names, five_columns(alloc, rows)?, rows))
        }
        "with_column" => {
            let column = truths(alloc, rows, 2, 7)?;
            Ok(RecordOperation::WithColumn(records_of_five(alloc, rows)?, column))
        }
        "remove_column" => Ok(RecordOperation::RemoveColumn(records_of_five(alloc, rows)?)),
        "push_validity" => Ok(RecordOperation::Push(records_to_push(alloc, rows)?)),
        "project" => {
            let names = names_to_project(alloc)?;
            Ok(RecordOperation::Project(records_of_five(alloc, rows)?, names))
        }
        "concat" => {
            let rows = scale.quarter().rows();
            Ok(RecordOperation::Concat(records_to_join(alloc, rows)?))
        }
        "by_name" => by_name(alloc, rows),
        _ => Err(Fault::Usage),
    }
}

// Whether an operation takes no time by the row.
pub(crate) fn is_quick(name: &str) -> bool {
    matches!(
        name,
        "try_new" | "project" | "with_column" | "remove_column"
    )
}
