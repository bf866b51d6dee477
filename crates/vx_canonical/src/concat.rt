// Arrays, one after another.

ghost use Rattle.std.specs.Prelude.{◌≡◌, false, map, IfOk};
ghost use Rattle.std.specs.List.{All, AllZip, flat_map};
ghost use Rattle.vx_base.specs.DTypes.{dtype_meaning};
ghost use Rattle.vx_base.specs.Booleans.{count_fault};
ghost use Rattle.vx_base.specs.Refusals.{Refuses, Tests};
ghost use Rattle.vx_tree.specs.Meaning.{kind_of, rows, trees_from};
ghost use Rattle.vx_tree.specs.Shapes.{tree_state};
ghost use Rattle.vx_tree.specs.Plain.{IsPlain};
ghost use Rattle.vx_tree.specs.Extents.{extent_of, joined_extent};
ghost use Rattle.vx_canonical.specs.Joined.{joined_len, joined_state};
ghost use Rattle.vx_tree.specs.Flags.{is_flagged};
ghost use Rattle.vx_canonical.specs.Canonical.{IsCanonical, IsCanonicalWithin};
ghost use Rattle.vx_tree.specs.CanonicalFaults.{columns_fault};
ghost use Rattle.vx_canonical.specs.Concatenated.{are_alike, concat_fault, HasNumbersOf};

mod numbers;

use crate::canonical::canonical;
use crate::concat::numbers::concat_numbers;
use crate::countable_rows::have_countable_rows;
use crate::extents::arrays_fit;
use crate::join::{all_formed, join_like};
use crate::pieces::checked_sum;
use std::alloc::Global;
use vx_base::{DType, VortexError};
use vx_tree::{ArrayRef, Layout};

/// What can be joined, one after another.
pub trait Concatenate: Sized {
    /// The rows of the arrays, one array after another, in the plain layout of their data type.
    /// Parts change: offsets and sizes of lists come out as `u64`, also those that were `u8` or
    /// `u16`, and each offset is further by the elements of the arrays before; views are numbered
    /// further by the buffers of the arrays before. Of the numbers 1, 2 and 3, null it makes the
    /// numbers 1, 2, 3, null. Each column of records is the columns at its place, one array after
    /// another, also where a record is null. At every depth there are as many elements and buffers
    /// as in all arrays together, the buffers in order. Refuses in this order: with `EmptyInput`
    /// where no array is given; with `DifferingDtypes` where one is not of the data type of the
    /// first; with `Overflow` where there are more rows than can be counted; by the first fault of
    /// making each array plain, as `to_canonical` has it; then with `Overflow` where the lists of
    /// all arrays, at any depth, have together more elements than can be counted, or their texts or
    /// byte lists more buffers than a view can number, 4294967296. A list view has all of its
    /// elements and texts all of their buffers; a constant those of its row once, whatever its
    /// length, with a buffer for each text or byte list above 12 bytes; a dictionary those of its
    /// values, also where it has no values; lists of one size have the rows times the size. All of
    /// these are counted before any array is made plain.
    fn concat(alloc: Global, arrays: &[Self]) -> Result<Self, VortexError>;
}

impl Concatenate for ArrayRef {
    fn concat(alloc: Global, arrays: &[ArrayRef]) -> Result<ArrayRef, VortexError>
        ensures rows { IfOk result (λ a. rows a ≡ flat_map rows arrays.now) }
        ensures kind { IfOk result (λ a. All (λ t. kind_of t ≡ kind_of a) arrays.now) }
        ensures plain { IfOk result IsPlain }
        ensures state { IfOk result (λ a. tree_state a ≡ joined_state arrays.now) }
        ensures extent { IfOk result (λ a. extent_of a ≡ joined_extent (kind_of a) (map extent_of arrays.now)) }
        ensures flag { IfOk result (λ a. is_flagged a ≡ false) }
        ensures numbers { IfOk result (HasNumbersOf arrays.now) }
        ensures refuses { Refuses result (concat_fault arrays.now) }
    {
        let Some(first) = arrays.first() else {
            return Err(VortexError::EmptyInput);
        };
        if !are_alike(first.dtype(), arrays) {
            return Err(VortexError::DifferingDtypes);
        }
        let len = row_count(arrays)?;
        if let DType::Primitive(ptype, nullability) = first.dtype() {
            if !have_listed_codes(arrays) {
                return Ok(concat_numbers(alloc, *ptype, *nullability, arrays, len)?);
            }
        }
        if !have_countable_rows(arrays) {
            return Err(VortexError::Overflow);
        }
        arrays_fit(alloc, first.dtype(), len, arrays)?;
        let plain = plain_arrays(alloc, arrays)?;
        all_formed(&plain);
        join_like(alloc, &plain[0], &plain)
    }
}

// Whether all arrays are of this data type.
fn are_alike(dtype: &DType, arrays: &[ArrayRef]) -> bool
    ensures { result ≡ are_alike (dtype_meaning dtype.now) arrays.now }
{
    for array in arrays {
        if array.dtype() != dtype {
            return false;
        }
    }
    true
}

// Whether an array is a dictionary whose codes are one too. Their positions are listed, so that array
// is made plain first: else they would be listed for its validity and once more for its numbers.
fn have_listed_codes(arrays: &[ArrayRef]) -> bool {
    for array in arrays {
        if let Layout::Dict { codes, .. } = array.layout() {
            if let Layout::Dict { .. } = codes.layout() {
                return true;
            }
        }
    }
    false
}

// How many rows the arrays have.
fn row_count(arrays: &[ArrayRef]) -> Result<usize, VortexError>
    ensures len { IfOk result (λ n. n ≡ joined_len arrays.now) }
    ensures tests { Tests result (count_fault (joined_len arrays.now)) }
{
    let mut count = 0;
    for array in arrays {
        count = checked_sum(count, array.len())?;
    }
    Ok(count)
}

// Each array in plain layout.
fn plain_arrays(alloc: Global, arrays: &[ArrayRef]) -> Result<Vec<ArrayRef>, VortexError>
    ensures ok { IfOk result (λ ps. AllZip IsCanonical arrays.now ps.items) }
    ensures within { IfOk result (λ ps. AllZip IsCanonicalWithin arrays.now ps.items) }
    ensures refuses { Refuses result (columns_fault (trees_from arrays.now)) }
{
    let mut plain = Vec::with_capacity(alloc, arrays.len())?;
    for array in arrays {
        plain.push(canonical(alloc, array)?)?;
    }
    Ok(plain)
}
