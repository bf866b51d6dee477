// Rebuilding: the rows of a list view in another layout of the same lists.

ghost use Rattle.std.specs.Prelude.{◌≡◌, ◌≢◌, ◌/◌, ◌==◌, ◌||◌, true, false, None, IfOk, nat_lt};
ghost use Rattle.vx_base.specs.Refusals.{Gives, Refuses, Tests};
ghost use Rattle.vx_tree.specs.Meaning.{tree_len, rows};
ghost use Rattle.vx_tree.specs.Operations.{IsSelected};
ghost use Rattle.vx_lists.specs.declared.list_view.rebuild.ListViewRebuildMode.TheVariants.{MakeZeroCopyToList, TrimElements, MakeExact};
ghost use Rattle.vx_lists.specs.ListViews.Faults.{rebuild_overflow, rebuild_fault};
ghost use Rattle.vx_lists.specs.ListViews.References.{IsTrimmedToBounds};
ghost use Rattle.vx_lists.specs.ListViews.{elements_of, flag_of, with_flag, mask_of, total_of, valid_positions_of, IsRebuildPlan};
ghost use Rattle.vx_lists.specs.ListViews.{IsRebuilt};
ghost use Rattle.vx_lists.specs.ListViews.PlannedRuns.{ArePlannedRuns, ArePlannedPositions};

use crate::list_view::array::ListViewArray;
use crate::list_view::checks::check_total;
use crate::list_view::counts::count_bytes;
use crate::list_view::plan::{RebuildPlan, element_runs, list_starts, rebuilt_ptype, valid_sizes};
use crate::list_view::positions::list_positions;
use crate::list_view::totals::{is_countable, total_size};
use std::alloc::Global;
use vx_base::{Mask, Selection, VortexError};
use vx_tree::{ArrayRef, Layout, TypedArray, Validity};

/// How a list view is to be rebuilt.
#[derive(Clone, Copy, Debug, PartialEq, Eq)]
pub enum ListViewRebuildMode {
    /// The lists lie end to end in their order, so that the offsets are those of a list array.
    MakeZeroCopyToList,
    /// The elements before the first list and after the last one are left out.
    TrimElements,
    /// The lists lie end to end, with no element before the first and none after the last. A null
    /// list of a flagged array, as `mask` leaves it, keeps its size and its elements.
    MakeExact,
    /// Lists share the elements that they have in common: not implemented.
    OverlapCompression,
}

impl ListViewArray {
    // What is needed of the numbers. Refuses what `rebuilt_total` refuses, before any is listed.
    fn plan(&self, alloc: Global) -> Result<RebuildPlan, VortexError>
        ensures ok { IfOk result (λ plan. IsRebuildPlan self.now plan.offset_type plan.offsets
            plan.size_type plan.sizes plan.count) }
        ensures refuses { Refuses result (rebuild_overflow self.now) }
    {
        let parts = self.parts();
        let mask = parts.validity.execute_mask(alloc, parts.offsets.len())?;
        let count = self.rebuilt_total(&mask)?;
        let size_type = parts.sizes.dtype().as_ptype();
        let rebuilt_type = rebuilt_ptype(size_type);
        let sizes = count_bytes(alloc, parts.sizes)?;
        let sizes = valid_sizes(alloc, size_type, &sizes, &mask, rebuilt_type)?;
        let offsets = count_bytes(alloc, parts.offsets)?;
        Ok(RebuildPlan {
            offset_type: parts.offsets.dtype().as_ptype(),
            offsets,
            size_type: rebuilt_type,
            sizes,
            count,
        })
    }

    // How many elements the valid rows have in all, those of the mask. Refuses `Overflow` where a
    // rebuilt type does not hold the total, or so many elements cannot be taken.
    fn rebuilt_total(&self, mask: &Mask) -> Result<usize, VortexError>
        requires { mask.now ≡ mask_of self.now }
        ensures total { IfOk result (λ count. count ≡ total_of self.now) }
        ensures tests { Tests result (rebuild_overflow self.now) }
    {
        let parts = self.parts();
        let offset_type = rebuilt_ptype(parts.offsets.dtype().as_ptype());
        let size_type = rebuilt_ptype(parts.sizes.dtype().as_ptype());
        let total = total_size(parts.sizes, mask);
        let count = check_total(offset_type, size_type, total)?;
        if !is_countable(parts.elements, count) {
            return Err(VortexError::Overflow);
        }
        Ok(count)
    }

    // The elements, and the runs of those of the plan.
    fn planned_runs(
        &self,
        alloc: Global,
        plan: &RebuildPlan,
    ) -> Result<(&ArrayRef, Vec<(usize, usize)>), VortexError>
        requires { IsRebuildPlan self.now plan.now.offset_type plan.now.offsets
            plan.now.size_type plan.now.sizes plan.now.count }
        ensures { Gives result (λ found.
            ArePlannedRuns self.now found.0.now found.1.items) }
    {
        let elements = self.parts().elements;
        let runs = element_runs(
            alloc,
            plan.offset_type,
            plan.offsets.as_slice(),
            plan.size_type,
            plan.sizes.as_slice(),
        )?;
        Ok((elements, runs))
    }

    // The elements, and the positions of those of the plan.
    fn planned_positions(
        &self,
        alloc: Global,
        plan: &RebuildPlan,
    ) -> Result<(&ArrayRef, Vec<usize>), VortexError>
        requires { IsRebuildPlan self.now plan.now.offset_type plan.now.offsets
            plan.now.size_type plan.now.sizes plan.now.count }
        ensures { Gives result (λ found.
            ArePlannedPositions self.now found.0.now found.1.items) }
    {
        let elements = self.parts().elements;
        let positions = list_positions(
            alloc,
            plan.offset_type,
            plan.offsets.as_slice(),
            plan.size_type,
            plan.sizes.as_slice(),
            plan.count,
        )?;
        Ok((elements, positions))
    }

    // The elements of the plan: run by run, or by their positions.
    fn planned_elements(
        &self,
        alloc: Global,
        plan: &RebuildPlan,
        by_runs: bool,
    ) -> Result<ArrayRef, VortexError>
        requires plan { IsRebuildPlan self.now plan.now.offset_type plan.now.offsets
            plan.now.size_type plan.now.sizes plan.now.count }
        requires countable { rebuild_overflow self.now ≡ None }
        ensures { Gives result (IsSelected (elements_of self.now) (valid_positions_of self.now)) }
    {
        if by_runs {
            let (elements, runs) = self.planned_runs(alloc, plan)?;
            return elements.select_within(alloc, &Selection::of_runs(&runs, plan.count));
        }
        let (elements, positions) = self.planned_positions(alloc, plan)?;
        elements.select_within(alloc, &Selection::at_positions(&positions))
    }

    // Whether ranges of the elements are copied in any case: of numbers and of bits.
    fn has_ranges(&self) -> bool {
        matches!(
            self.parts().elements.layout(),
            Layout::Bool { .. } | Layout::Primitive { .. }
        )
    }

    // The rebuilt list view of a plan over these elements.
    fn rebuilt(
        &self,
        alloc: Global,
        plan: RebuildPlan,
        elements: ArrayRef,
    ) -> Result<ListViewArray, VortexError>
        requires plan { IsRebuildPlan self.now plan.offset_type plan.offsets plan.size_type
            plan.sizes plan.count }
        requires countable { rebuild_overflow self.now ≡ None }
        requires elements { IsSelected (elements_of self.now) (valid_positions_of self.now)
            elements }
        ensures { Gives result (IsRebuilt self.now) }
    {
        let validity = self.parts().validity.try_clone(alloc)?;
        let offset_type = rebuilt_ptype(plan.offset_type);
        let starts = list_starts(alloc, offset_type, plan.size_type, plan.sizes.as_slice())?;
        let offsets = ArrayRef::primitive(alloc, offset_type, starts, Validity::NonNullable)?;
        let sizes = ArrayRef::primitive(
            alloc,
            plan.size_type,
            plan.sizes.try_clone(alloc)?,
            Validity::NonNullable,
        )?;
        let array = ArrayRef::list_view(alloc, elements, offsets, sizes, validity, true)?;
        Ok(ListViewArray::from_array(array))
    }

    /// The same rows in the one layout that they fix: the valid lists lie end to end in their order
    /// and no element is left over, a null row has the running offset and size 0, and the flag is
    /// set. Offsets become `u32` where they are `u8`, `u16` or `u32`, `i32` where they are `i8`,
    /// `i16` or `i32`, and stay `u64` or `i64`; sizes do the same, by their own type. The elements
    /// are taken at once. Refuses `Overflow`, before anything is listed, where the total of the
    /// valid sizes passes the greatest number of the new offset type or of the new size type, or
    /// where taking that many elements is refused. Over the elements 1, 2, 3 the `i32` offsets 0, 1
    /// and `i16` sizes 3, 2 become the `i32` offsets 0, 3 and `i32` sizes 3, 2 over 1, 2, 3, 2, 3.
    pub fn rebuild_by_take(&self, alloc: Global) -> Result<ListViewArray, VortexError>
        ensures rebuilt { IfOk result (IsRebuilt self.now) }
        ensures refuses { Refuses result (rebuild_overflow self.now) }
    {
        let plan = self.plan(alloc)?;
        let taken = self.planned_elements(alloc, &plan, self.has_ranges())?;
        Ok(self.rebuilt(alloc, plan, taken)?)
    }

    /// What `rebuild_by_take` gives, of the same types and refused alike, copied run by run: no list
    /// of a position for each element is made.
    pub fn rebuild_by_runs(&self, alloc: Global) -> Result<ListViewArray, VortexError>
        ensures rebuilt { IfOk result (IsRebuilt self.now) }
        ensures refuses { Refuses result (rebuild_overflow self.now) }
    {
        let plan = self.plan(alloc)?;
        let copied = self.planned_elements(alloc, &plan, true)?;
        Ok(self.rebuilt(alloc, plan, copied)?)
    }

    /// Whether that many elements of so many rows are better taken at once than run by run: where
    /// there are no rows, or fewer than 128 elements a row, rounded down.
    pub fn should_use_take(total: u64, rows: usize) -> bool
        ensures { result ≡ (rows == 0 || nat_lt (total / rows) 128) }
    {
        rows == 0 || total / (rows as u64) < 128
    }

    // The lists laid end to end, by `rebuild_by_take` or `rebuild_by_runs`, as `should_use_take`
    // says.
    fn lay_end_to_end(&self, alloc: Global) -> Result<ListViewArray, VortexError>
        ensures rebuilt { IfOk result (IsRebuilt self.now) }
        ensures refuses { Refuses result (rebuild_overflow self.now) }
    {
        let plan = self.plan(alloc)?;
        let at_once = Self::should_use_take(plan.count as u64, self.len());
        let by_runs = !at_once || self.has_ranges();
        let elements = self.planned_elements(alloc, &plan, by_runs)?;
        Ok(self.rebuilt(alloc, plan, elements)?)
    }

    // The same lists over just the elements that they lie in.
    fn trim_to_bounds(&self, alloc: Global) -> Result<ListViewArray, VortexError>
        requires { tree_len self.now ≢ 0 }
        ensures { Gives result (IsTrimmedToBounds self.now) }
    {
        let (start, end) = self.element_bounds()?;
        self.trim_elements(alloc, start, end)
    }

    /// The same rows, rebuilt as `mode` says. An array without rows comes back with the flag set
    /// and all its elements, in every mode. Of any other, `MakeZeroCopyToList` gives a flagged one
    /// as it is, and one without the flag laid end to end; `TrimElements` gives it trimmed to
    /// `referenced_element_bounds`; `MakeExact` gives a flagged one trimmed, and one without the
    /// flag laid end to end; `OverlapCompression` refuses `NotImplemented`. Lists are laid end to
    /// end as `rebuild_by_take` does where `should_use_take` says so of the total of the valid
    /// sizes and the rows, else as `rebuild_by_runs` does: both give offsets and sizes their new
    /// types, and both refuse `Overflow`. What comes back as it is, flagged or trimmed keeps the
    /// types of both, and each null list its size and elements, as `mask` leaves them.
    pub fn rebuild(
        &self,
        alloc: Global,
        mode: ListViewRebuildMode,
    ) -> Result<ListViewArray, VortexError>
        ensures empty { tree_len self.now ≡ 0 → IfOk result (λ a. a ≡ with_flag true self.now) }
        ensures flagged { mode ≡ MakeZeroCopyToList → flag_of self.now ≡ true →
            IfOk result (λ a. a ≡ self.now) }
        ensures rebuilt { mode ≡ MakeZeroCopyToList → tree_len self.now ≢ 0 →
            flag_of self.now ≡ false → IfOk result (IsRebuilt self.now) }
        ensures trimmed { mode ≡ TrimElements → tree_len self.now ≢ 0 →
            IfOk result (IsTrimmedToBounds self.now) }
        ensures exact_flagged { mode ≡ MakeExact → tree_len self.now ≢ 0 →
            flag_of self.now ≡ true → IfOk result (IsTrimmedToBounds self.now) }
        ensures exact { mode ≡ MakeExact → tree_len self.now ≢ 0 →
            flag_of self.now ≡ false → IfOk result (IsRebuilt self.now) }
        ensures rows { IfOk result (λ a. rows a ≡ rows self.now) }
        ensures refuses { Refuses result (rebuild_fault mode self.now) }
    {
        if self.is_empty() {
            return Ok(self.with_flag(alloc, true)?);
        }
        if self.is_zero_copy_to_list() {
            return match mode {
                ListViewRebuildMode::MakeZeroCopyToList => Ok(self.try_clone(alloc)?),
                ListViewRebuildMode::TrimElements | ListViewRebuildMode::MakeExact => {
                    Ok(self.trim_to_bounds(alloc)?)
                }
                ListViewRebuildMode::OverlapCompression => Err(VortexError::NotImplemented),
            };
        }
        match mode {
            ListViewRebuildMode::MakeZeroCopyToList | ListViewRebuildMode::MakeExact => {
                self.lay_end_to_end(alloc)
            }
            ListViewRebuildMode::TrimElements => Ok(self.trim_to_bounds(alloc)?),
            ListViewRebuildMode::OverlapCompression => Err(VortexError::NotImplemented),
        }
    }
}
