// Whether arrays have together no more elements and buffers than can be counted, at any depth: they
// are counted where they stand, before any of them is made plain.

ghost use Rattle.std.specs.Prelude.{◌≡◌, ◌*◌, IfOk, map};
ghost use Rattle.std.specs.List.{sum_by};
ghost use Rattle.vx_base.specs.Booleans.{count_fault};
ghost use Rattle.vx_base.specs.DTypes.{dtype_meaning, kinds_of};
ghost use Rattle.vx_base.specs.Refusals.{Gives, Refuses, Tests};
ghost use Rattle.vx_tree.specs.CanonicalFaults.{buffers_overflow};
ghost use Rattle.vx_tree.specs.Extents.{buffer_count, element_count, extent_of};
ghost use Rattle.vx_canonical.specs.Concatenated.{extents_fault, fields_extents_fault};
ghost use Rattle.vx_canonical.specs.Counted.{is_leaf, part_extent, piece_extent};

use crate::pieces::{Part, Piece, add_elements, buffer_count, part_of, piece_of};
use std::alloc::Global;
use vx_base::{DType, VortexError};
use vx_tree::ArrayRef;

// How many buffers can be numbered by a `u32`.
pub(crate) const MAX_BUFFERS: usize = 1 << 32;

// Refuses with `Overflow` where arrays of a data type, with so many rows together, have more.
pub(crate) fn arrays_fit(
    alloc: Global,
    dtype: &DType,
    len: usize,
    arrays: &[ArrayRef],
) -> Result<(), VortexError>
    ensures { Refuses result (extents_fault (dtype_meaning dtype.now) len (map extent_of arrays.now)) }
{
    if is_leaf(dtype) {
        return Ok(());
    }
    let pieces = pieces_of(alloc, arrays)?;
    pieces_fit(alloc, dtype, len, &pieces)
}

// The rows of each array.
fn pieces_of(alloc: Global, arrays: &[ArrayRef]) -> Result<Vec<Piece<'_>>, VortexError>
    ensures { Gives result (λ pieces. map piece_extent pieces.items ≡ map extent_of arrays.now) }
{
    let mut pieces = Vec::with_capacity(alloc, arrays.len())?;
    for array in arrays {
        pieces.push(piece_of(alloc, array)?)?;
    }
    Ok(pieces)
}

// Whether rows of a data type have neither elements nor buffers.
fn is_leaf(dtype: &DType) -> bool
    ensures { result ≡ is_leaf (dtype_meaning dtype.now) }
{
    match dtype {
        DType::Bool(_) | DType::Primitive(_, _) => true,
        DType::Utf8(_) | DType::Binary(_) => false,
        DType::List(_, _) => false,
        DType::FixedSizeList(_, _, _) => false,
        DType::Struct(_, _) => false,
    }
}

// Refuses with `Overflow` where pieces of a data type, with so many rows together, have more.
#[cycle(pieces_fit)]
fn pieces_fit(
    alloc: Global,
    dtype: &DType,
    len: usize,
    pieces: &[Piece<'_>],
) -> Result<(), VortexError>
    ensures { Refuses result (extents_fault (dtype_meaning dtype.now) len (map piece_extent pieces.now)) }
{
    match dtype {
        DType::Bool(_) | DType::Primitive(_, _) => Ok(()),
        DType::Utf8(_) | DType::Binary(_) => buffers_fit(pieces),
        DType::List(items, _) => {
            let count = element_count(pieces)?;
            parts_fit(alloc, items, count, pieces, Part::Elements)
        }
        DType::FixedSizeList(items, size, _) => match len.checked_mul(*size as usize) {
            Some(count) => parts_fit(alloc, items, count, pieces, Part::Elements),
            None => Err(VortexError::Overflow),
        },
        DType::Struct(fields, _) => columns_fit(alloc, fields.fields(), len, pieces),
    }
}

// Refuses so of a part of each piece, of this data type.
#[cycle(pieces_fit)]
fn parts_fit(
    alloc: Global,
    dtype: &DType,
    len: usize,
    pieces: &[Piece<'_>],
    part: Part,
) -> Result<(), VortexError>
    ensures { Refuses result (extents_fault (dtype_meaning dtype.now) len (map (part_extent part) (map piece_extent pieces.now))) }
{
    if is_leaf(dtype) {
        return Ok(());
    }
    let parts = parts_of(alloc, pieces, part)?;
    pieces_fit(alloc, dtype, len, &parts)
}

// Refuses so of the columns of records, each of its data type.
#[cycle(pieces_fit)]
fn columns_fit(
    alloc: Global,
    dtypes: &[DType],
    len: usize,
    pieces: &[Piece<'_>],
) -> Result<(), VortexError>
    ensures { Refuses result (fields_extents_fault (kinds_of dtypes.now) 0 len (map piece_extent pieces.now)) }
{
    for (place, dtype) in dtypes.iter().enumerate() {
        parts_fit(alloc, dtype, len, pieces, Part::Column(place))?;
    }
    Ok(())
}

// A part of each piece.
fn parts_of<'a>(
    alloc: Global,
    pieces: &[Piece<'a>],
    part: Part,
) -> Result<Vec<Piece<'a>>, VortexError>
    ensures { Gives result (λ parts. map piece_extent parts.items ≡ map (part_extent part) (map piece_extent pieces.now)) }
{
    let mut parts = Vec::with_capacity(alloc, pieces.len())?;
    for piece in pieces {
        parts.push(part_of(alloc, piece, part)?)?;
    }
    Ok(parts)
}

// How many elements the lists of all pieces have.
fn element_count(pieces: &[Piece<'_>]) -> Result<usize, VortexError>
    ensures count { IfOk result (λ n. n ≡ sum_by element_count (map piece_extent pieces.now)) }
    ensures tests { Tests result (count_fault (sum_by element_count (map piece_extent pieces.now))) }
{
    let mut count = 0;
    for piece in pieces {
        count = add_elements(piece, count)?;
    }
    Ok(count)
}

// Refuses with `Overflow` where all pieces have more buffers than can be numbered.
fn buffers_fit(pieces: &[Piece<'_>]) -> Result<(), VortexError>
    ensures { Tests result (buffers_overflow (sum_by buffer_count (map piece_extent pieces.now))) }
{
    let mut count = 0;
    for piece in pieces {
        let more = buffer_count(piece);
        if more > MAX_BUFFERS - count {
            return Err(VortexError::Overflow);
        }
        count += more;
    }
    Ok(())
}
