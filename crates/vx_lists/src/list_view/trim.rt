// List views over just the elements that their lists lie in.

ghost use Rattle.std.specs.Prelude.{◌≡◌, ◌<◌, ◌≤◌, ◌-◌, ℕ, true, map};
ghost use Rattle.std.specs.List.{All};
ghost use Rattle.vx_base.specs.Kinds.{integer_type};
ghost use Rattle.vx_base.specs.Refusals.{Gives};
ghost use Rattle.vx_base.specs.Rows.{count_in};
ghost use Rattle.vx_tree.specs.Formed.{IsCounts};
ghost use Rattle.vx_tree.specs.Layouts.{is_constant};
ghost use Rattle.vx_tree.specs.Meaning.{tree_len, kind_of, row_at};
ghost use Rattle.vx_lists.specs.ListViews.References.{start_of, end_of, IsTrimmed};
ghost use Rattle.vx_lists.specs.ListViews.{elements_of, counts_in, IsCountArray};

use crate::list_view::array::ListViewArray;
use crate::list_view::counts::{count_at, counts_of};
use std::alloc::Global;
use vx_base::{Scalar, ScalarValue, VortexError, write_counts};
use vx_tree::{ArrayRef, Layout, TypedArray, Validity, rows_fit_their_dtype};

impl ListViewArray {
    /// The same rows over the elements from `start` up to `end` alone: each offset is less by
    /// `start`; the sizes, the types of both, the validity and the flag stay. Asks that no list
    /// starts before `start` or ends past `end`, null rows counted, that `start` is at most `end`,
    /// and `end` at most the number of elements. Of lists at 2 and 5, of two elements each, over
    /// nine elements, the part `2..7` has lists at 0 and 3 over five.
    pub fn trim_elements(
        &self,
        alloc: Global,
        start: usize,
        end: usize,
    ) -> Result<ListViewArray, VortexError>
        requires below { (i : ℕ) → i < tree_len self.now → start ≤ start_of self.now i }
        requires above { (i : ℕ) → i < tree_len self.now → end_of self.now i ≤ end }
        requires ordered { start ≤ end }
        requires within { end ≤ tree_len (elements_of self.now) }
        ensures { Gives result (IsTrimmed self.now start end) }
    {
        let parts = self.parts();
        let elements = parts.elements.slice(alloc, start..end)?;
        let offsets = lowered_counts(alloc, parts.offsets, start)?;
        let sizes = parts.sizes.try_clone(alloc)?;
        let validity = parts.validity.try_clone(alloc)?;
        let array = ArrayRef::list_view(alloc, elements, offsets, sizes, validity, parts.flag)?;
        Ok(ListViewArray::from_array(array))
    }
}

// The counts of an array, each less by `by`, of the same type. Asks that each is at least `by`.
// A constant stays one.
fn lowered_counts(alloc: Global, array: &ArrayRef, by: usize) -> Result<ArrayRef, VortexError>
    requires counts { IsCounts array.now }
    requires low { (i : ℕ) → i < tree_len array.now → by ≤ count_in (row_at array.now i) }
    ensures { Gives result (IsCountArray (integer_type (kind_of array.now))
        (map (λ n. n - by) (counts_in array.now))) }
{
    if !array.is_empty() && matches!(array.layout(), Layout::Constant { .. }) {
        return lowered_constant(alloc, array, by);
    }
    rows_fit_their_dtype(array);
    let counts = counts_of(alloc, array)?;
    let lowered = lowered(alloc, &counts, by)?;
    let ptype = array.dtype().as_ptype();
    let bytes = write_counts(alloc, ptype, &lowered)?;
    Ok(ArrayRef::primitive(alloc, ptype, bytes, Validity::NonNullable)?)
}

// A constant of counts, less by `by`: its one count is made less.
#[tactic(auto, using(crate::proofs::ListViews::TrimmedViews::constant_counts))]
fn lowered_constant(alloc: Global, array: &ArrayRef, by: usize) -> Result<ArrayRef, VortexError>
    requires layout { is_constant array.now ≡ true }
    requires counts { IsCounts array.now }
    requires some { 0 < tree_len array.now }
    requires low { by ≤ count_in (row_at array.now 0) }
    ensures { Gives result (IsCountArray (integer_type (kind_of array.now))
        (map (λ n. n - by) (counts_in array.now))) }
{
    let first = count_at(array, 0);
    let lowered = ScalarValue::Int((first - by) as i128);
    let dtype = array.dtype().try_clone(alloc)?;
    Ok(ArrayRef::constant(alloc, Scalar::new(dtype, Some(lowered)), array.len())?)
}

// Numbers, each less by `by`.
fn lowered(alloc: Global, numbers: &[usize], by: usize) -> Result<Vec<usize>, VortexError>
    requires { All (λ n. by ≤ n) numbers.now }
    ensures { Gives result (λ lowered. lowered.items ≡ map (λ n. n - by) numbers.now) }
{
    Ok(numbers.iter().map(|number| *number - by).collect(alloc)?)
}
