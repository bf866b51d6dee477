//! Lists from foreign bytes: tested, laid end to end, and printed.
#![tactic(auto)]

ghost use Rattle.std.specs.Prelude.{◌≡◌, ◌<◌, ◌≤◌, false, IfOk};
ghost use Rattle.vx_base.specs.Refusals.{Refuses, or_else};
ghost use Rattle.vx_lists.specs.declared.list_view.rebuild.ListViewRebuildMode.TheVariants.{MakeZeroCopyToList};
ghost use Rattle.vx_lists.specs.ListViews.Faults.{list_view_fault, rebuild_fault};
ghost use Rattle.vx_lists.specs.ListViews.{elements_of};
ghost use Rattle.vx_tree.specs.Meaning.{rows, tree_len};
ghost use Rattle.vx_tree.specs.Tree.{list_view, non_nullable};

use std::alloc::Global;
use std::io;
use vx_base::{ByteBuffer, PType, VortexError};
use vx_leaves::PrimitiveArray;
use vx_lists::{ListViewArray, ListViewArrayExt, ListViewRebuildMode};
use vx_tree::{ArrayRef, TypedArray, Validity};

// The numbers that these bytes hold, the lowest byte of each first.
fn column(alloc: Global, ptype: PType, bytes: &[u8]) -> Result<ArrayRef, VortexError> {
    let bytes = ByteBuffer::copy_from(alloc, bytes)?;
    let numbers = PrimitiveArray::from_byte_buffer(alloc, bytes, ptype, Validity::NonNullable)?;
    Ok(numbers.into_array())
}

// The lists of these parts, laid end to end.
fn end_to_end(
    alloc: Global,
    elements: ArrayRef,
    offsets: ArrayRef,
    sizes: ArrayRef,
) -> Result<ListViewArray, VortexError>
    ensures rows { IfOk result (λ lists.
        rows lists ≡ rows (list_view elements offsets sizes non_nullable false)) }
    ensures refuses { Refuses result (or_else (list_view_fault elements offsets sizes non_nullable)
        (rebuild_fault MakeZeroCopyToList (list_view elements offsets sizes non_nullable false))) }
{
    let lists = ListViewArray::try_new(alloc, elements, offsets, sizes, Validity::NonNullable)?;
    Ok(lists.rebuild(alloc, ListViewRebuildMode::MakeZeroCopyToList)?)
}

// The lists of foreign bytes: `i32` elements, `i8` offsets and sizes.
fn read_lists(
    alloc: Global,
    elements: &[u8],
    offsets: &[u8],
    sizes: &[u8],
) -> Result<ListViewArray, VortexError> {
    let elements = column(alloc, PType::I32, elements)?;
    let offsets = column(alloc, PType::I8, offsets)?;
    let sizes = column(alloc, PType::I8, sizes)?;
    end_to_end(alloc, elements, offsets, sizes)
}

// Where list `i` ends among the elements.
fn end_of(lists: &ListViewArray, i: usize) -> usize
    requires { i < tree_len lists.now }
    ensures { result ≤ tree_len (elements_of lists.now) }
{
    lists.offset_at(i) + lists.size_at(i)
}

// Prints the numbers from place `start` up to place `end`.
fn print_numbers(rt: &HostRuntime, numbers: &ArrayRef, start: usize, end: usize) -> io::Result<()>
    requires { end ≤ tree_len numbers.now }
{
    if !numbers.dtype().is_int() {
        return println!(rt; " no numbers");
    }
    for place in start..end {
        match numbers.int_at(place) {
            Some(number) => print!(rt; " {number}")?,
            None => print!(rt; " null")?,
        }
    }
    println!(rt; "")
}

// Prints where each list lies, and its numbers.
fn print_lists(rt: &HostRuntime, lists: &ListViewArray) -> io::Result<()> {
    for i in 0..lists.len() {
        let start = lists.offset_at(i);
        let end = end_of(lists, i);
        print!(rt; "elements {start}..{end}:")?;
        print_numbers(rt, lists.elements(), start, end)?;
    }
    Ok(())
}

fn main(rt: HostRuntime) -> io::Result<()> {
    let elements = [1, 0, 0, 0, 2, 0, 0, 0, 3, 0, 0, 0, 4, 0, 0, 0];
    let sizes = [2, 1, 2];
    for offsets in [[2, 0, 1], [2, 0xFF, 1], [2, 0, 3]] {
        match read_lists(rt.alloc(), &elements, &offsets, &sizes) {
            Ok(lists) => print_lists(&rt, &lists)?,
            Err(VortexError::Negative { row }) => println!(rt; "row {row} is negative")?,
            Err(VortexError::OutOfBounds { index, len }) => {
                println!(rt; "a list ends at {index} of {len} elements")?
            }
            Err(refusal) => println!(rt; "{refusal}")?,
        }
    }
    Ok(())
}
