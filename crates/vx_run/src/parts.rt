// The parts of an array as text.

ghost use Rattle.vx_tree.specs.Formed.{IsCounts};

use crate::show::{separate, show_array};
use std::alloc::Global;
use vx_base::{FieldNames, VortexError};
use vx_tree::{ArrayRef, Layout};

// Adds the parts of an array to a text, by its layout.
pub(crate) fn show_parts(
    alloc: Global,
    array: &ArrayRef,
    text: &mut String,
) -> Result<(), VortexError> {
    let len = array.len();
    match array.layout() {
        Layout::Bool { .. } => write!(text, "bool {len}")?,
        Layout::Primitive { ptype, .. } => {
            let ptype = *ptype;
            write!(text, "primitive {ptype} {len}")?;
        }
        Layout::Constant { .. } => write!(text, "constant {len}")?,
        Layout::Dict {
            codes,
            values,
            flag,
        } => show_dictionary(alloc, codes, values.len(), *flag, text)?,
        Layout::FixedSizeList { elements, size, .. } => {
            let size = *size;
            let count = elements.len();
            write!(text, "fixed {size} elements {count}")?;
        }
        Layout::ListView {
            elements,
            offsets,
            sizes,
            flag,
            ..
        } => {
            show_lists(alloc, offsets, sizes, text)?;
            show_elements(elements.len(), *flag, text)?;
        }
        Layout::VarBinView { buffers, .. } => {
            let count = buffers.len();
            write!(text, "views {len} buffers {count}")?;
        }
        Layout::Struct { names, .. } => {
            write!(text, "struct {len} ")?;
            show_names(names, text)?;
        }
    }
    Ok(())
}

// Adds the codes of a dictionary, how many values it has, and its flag.
fn show_dictionary(
    alloc: Global,
    codes: &ArrayRef,
    values: usize,
    flag: bool,
    text: &mut String,
) -> Result<(), VortexError> {
    text.push_str("dict codes ")?;
    show_array(alloc, codes, text)?;
    write!(text, " values {values} flag {flag}")?;
    Ok(())
}

// Adds where lists start and how many elements each has.
fn show_lists(
    alloc: Global,
    offsets: &ArrayRef,
    sizes: &ArrayRef,
    text: &mut String,
) -> Result<(), VortexError>
    requires offsets { IsCounts offsets.now }
    requires sizes { IsCounts sizes.now }
{
    text.push_str("listview offsets ")?;
    show_counts(alloc, offsets, text)?;
    text.push_str(" sizes ")?;
    show_counts(alloc, sizes, text)
}

// Adds how many elements lists have, and their flag.
fn show_elements(count: usize, flag: bool, text: &mut String) -> Result<(), VortexError> {
    write!(text, " elements {count} flag {flag}")?;
    Ok(())
}

// Adds names, a comma between them, or a dash where there is none.
fn show_names(names: &FieldNames, text: &mut String) -> Result<(), VortexError> {
    if names.len() == 0 {
        text.push('-')?;
    }
    for field in 0..names.len() {
        separate(field, text)?;
        text.push_str(names.get(field).as_str())?;
    }
    Ok(())
}

// Adds the integer type of an array of counts, and its rows.
fn show_counts(alloc: Global, counts: &ArrayRef, text: &mut String) -> Result<(), VortexError>
    requires { IsCounts counts.now }
{
    let ptype = counts.dtype().as_ptype();
    write!(text, "{ptype} ")?;
    show_array(alloc, counts, text)
}
