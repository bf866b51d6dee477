// How many nodes the table of an array has. What is left of a limit is counted, so that no count goes
// past it: an array may stand at more places in another one than can be counted.

ghost use Rattle.std.specs.Prelude.{◌≤◌, ◌-◌, SomeIff};
ghost use Rattle.vx_base.specs.DTypes.{dtype_meaning, kinds_of};
ghost use Rattle.vx_tree.specs.Meaning.{trees_from};
ghost use Rattle.vx_tree.specs.Parts.{valid_of};
ghost use Rattle.vx_c.specs.Unflagged.{least_count, least_counts, node_count, trees_count, valid_count};

use vx_base::DType;
use vx_tree::{ArrayRef, Layout, Validity};

// How many of so many nodes are left at most by the table of a plain array of a data type, where it
// needs no more.
#[cycle(least)]
pub(crate) fn left_by_kind(dtype: &DType, nodes: usize) -> Option<usize>
    ensures { SomeIff result (least_count (dtype_meaning dtype.now) ≤ nodes) (nodes - least_count (dtype_meaning dtype.now)) }
{
    match dtype {
        DType::Bool(_) | DType::Primitive(_, _) | DType::Utf8(_) | DType::Binary(_) => {
            nodes.checked_sub(1)
        }
        DType::List(items, _) => left_by_kind(items, nodes.checked_sub(3)?),
        DType::FixedSizeList(items, _, _) => left_by_kind(items, nodes.checked_sub(1)?),
        DType::Struct(fields, _) => left_by_kinds(fields.fields(), nodes.checked_sub(1)?),
    }
}

// How many of so many nodes are left at most by the tables of plain arrays of these data types.
#[cycle(least)]
fn left_by_kinds(dtypes: &[DType], nodes: usize) -> Option<usize>
    ensures { SomeIff result (least_counts (kinds_of dtypes.now) ≤ nodes) (nodes - least_counts (kinds_of dtypes.now)) }
{
    let mut left = nodes;
    for dtype in dtypes {
        left = left_by_kind(dtype, left)?;
    }
    Some(left)
}

// How many of so many nodes are left by the table of an array, where it has no more.
#[cycle(nodes)]
pub(crate) fn left_by_array(array: &ArrayRef, nodes: usize) -> Option<usize>
    ensures { SomeIff result (node_count array.now ≤ nodes) (nodes - node_count array.now) }
{
    let left = nodes.checked_sub(1)?;
    match array.layout() {
        Layout::Bool { validity, .. } => left_by_validity(validity, left),
        Layout::Primitive { validity, .. } => left_by_validity(validity, left),
        Layout::VarBinView { validity, .. } => left_by_validity(validity, left),
        Layout::Constant { .. } => Some(left),
        Layout::Dict { codes, values, .. } => left_by_array(values, left_by_array(codes, left)?),
        Layout::FixedSizeList {
            elements,
            validity,
            ..
        } => left_by_array(elements, left_by_validity(validity, left)?),
        Layout::ListView {
            elements,
            offsets,
            sizes,
            validity,
            ..
        } => {
            let left = left_by_array(elements, left_by_validity(validity, left)?)?;
            left_by_array(sizes, left_by_array(offsets, left)?)
        }
        Layout::Struct {
            columns,
            validity,
            ..
        } => left_by_columns(columns, left_by_validity(validity, left)?),
    }
}

// How many of so many nodes are left by the tables of columns, where they have no more.
#[cycle(nodes)]
fn left_by_columns(columns: &[ArrayRef], nodes: usize) -> Option<usize>
    ensures { SomeIff result (trees_count (trees_from columns.now) ≤ nodes) (nodes - trees_count (trees_from columns.now)) }
{
    let mut left = nodes;
    for column in columns {
        left = left_by_array(column, left)?;
    }
    Some(left)
}

// How many of so many nodes are left by the table of the array of a validity, where it has one.
#[cycle(nodes)]
fn left_by_validity(validity: &Validity, nodes: usize) -> Option<usize>
    ensures { SomeIff result (valid_count (valid_of validity.now) ≤ nodes) (nodes - valid_count (valid_of validity.now)) }
{
    match validity {
        Validity::NonNullable | Validity::AllValid | Validity::AllInvalid => Some(nodes),
        Validity::Array(array) => left_by_array(array, nodes),
    }
}
