// Arrays of records, one after another.

ghost use Rattle.std.specs.Prelude.{◌≡◌, true, IfOk, IfErr};
ghost use Rattle.std.specs.Iterator.{IsFinite};
ghost use Rattle.std.specs.List.{All};
ghost use Rattle.vx_base.specs.Refusals.{Gives, Refuses};
ghost use Rattle.vx_canonical.specs.Concatenated.{concat_fault};
ghost use Rattle.vx_structs.specs.Structs.Faults.{IsMadeOf, AreFaulty};
ghost use Rattle.vx_structs.specs.Structs.{arrays_of, is_struct, AreConcatenated};

use crate::array::StructArray;
use std::alloc::Global;
use vx_base::VortexError;
use vx_canonical::Concatenate;
use vx_tree::{ArrayRef, TypedArray, collect_items};

impl StructArray {
    /// The records of these arrays, one array after another, in the plain layout of their data
    /// type. Columns go by their places: each column is the columns at its place, one array after
    /// another, also where names repeat. Of `{a:1}` and `{a:2}` the column a is `[1, 2]`. The size
    /// hint is not looked at. Asks that the iterator ends.
    ///
    /// Refuses as `ArrayRef::concat` does: with `EmptyInput` where no array is given; with
    /// `DifferingDtypes` where one is not of the data type of the first; with `Overflow` where
    /// there are more records than can be counted; by the first fault of making each array plain,
    /// as `to_canonical` has it; then with `Overflow` where, at any depth, the lists of all arrays
    /// have together more elements than can be counted, or their texts more buffers than can be
    /// numbered. All of these are counted before any array is made plain.
    pub fn try_concat<'a, I: Iterator<Item = &'a StructArray> + Drop>(
        alloc: Global,
        arrays: I,
    ) -> Result<StructArray, VortexError>
        requires can { I.can_next arrays }
        requires ends { IsFinite (I.remaining arrays) }
        ensures ok { IfOk result (IsMadeOf I.next_gives arrays
            (λ all. concat_fault (arrays_of all)) (λ all. AreConcatenated (arrays_of all))) }
        ensures err { IfErr result (AreFaulty I.next_gives arrays (λ all. concat_fault (arrays_of all))) }
    {
        let arrays = collect_items(alloc, arrays)?;
        concat_all(alloc, &arrays)
    }
}

// The records of arrays, one array after another.
fn concat_all(alloc: Global, arrays: &[&StructArray]) -> Result<StructArray, VortexError>
    ensures ok { IfOk result (AreConcatenated (arrays_of arrays.now)) }
    ensures refuses { Refuses result (concat_fault (arrays_of arrays.now)) }
{
    let shared = shared_arrays(alloc, arrays)?;
    let joined = ArrayRef::concat(alloc, &shared)?;
    Ok(StructArray::from_array(joined))
}

// The arrays, shared.
fn shared_arrays(alloc: Global, arrays: &[&StructArray]) -> Result<Vec<ArrayRef>, VortexError>
    ensures shared { Gives result (λ shared. shared.items ≡ arrays_of arrays.now) }
    ensures records { IfOk result (λ shared. All (λ t. is_struct t ≡ true) shared.items) }
{
    let mut shared = Vec::with_capacity(alloc, arrays.len())?;
    for array in arrays {
        shared.push(array.as_array().try_clone(alloc)?)?;
    }
    Ok(shared)
}
