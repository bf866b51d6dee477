// The same parts under another validity.

ghost use Rattle.std.specs.Prelude.{◌≡◌, true};
ghost use Rattle.vx_base.specs.Refusals.{Gives};
ghost use Rattle.vx_tree.specs.Meaning.{tree_len};
ghost use Rattle.vx_tree.specs.Formed.{ValidFits, WellFormed};
ghost use Rattle.vx_tree.specs.Parts.{valid_of};
ghost use Rattle.vx_tree.specs.Slots.{keeps_parts, under_validity, validity_of};
ghost use Rattle.vx_tree.specs.Operations.{IsNulled};

use crate::array::{ArrayRef, Layout, Validity};
use crate::layouts::bool::bools_under;
use crate::layouts::fixed_size_list::fixed_lists_under;
use crate::layouts::list_view::lists_under;
use crate::layouts::primitive::numbers_under;
use crate::layouts::structure::records_under;
use crate::layouts::var_bin_view::same_views_under;
use std::alloc::Global;
use vx_base::VortexError;

impl ArrayRef {
    /// The same parts under another validity; a constant and a dictionary have none and stay as
    /// they are. Asks that the parts are well formed under it. For the crates above.
    pub fn with_validity(&self, alloc: Global, validity: Validity) -> Result<ArrayRef, VortexError>
        requires { WellFormed (under_validity self.now (valid_of validity)) }
        ensures { Gives result (λ a. a ≡ under_validity self.now (valid_of validity)) }
    {
        match self.layout() {
            Layout::Bool { bits, .. } => bools_under(alloc, bits, validity),
            Layout::Primitive { ptype, bytes, .. } => numbers_under(alloc, *ptype, bytes, validity),
            Layout::FixedSizeList {
                elements,
                size,
                len,
                ..
            } => fixed_lists_under(alloc, elements, *size, validity, *len),
            Layout::ListView {
                elements,
                offsets,
                sizes,
                flag,
                ..
            } => lists_under(alloc, elements, offsets, sizes, validity, *flag),
            Layout::Struct {
                names,
                columns,
                len,
                ..
            } => records_under(alloc, names, columns, validity, *len),
            Layout::VarBinView {
                views,
                buffers,
                dtype,
                ..
            } => same_views_under(alloc, views, buffers, dtype, validity),
            Layout::Constant { .. } | Layout::Dict { .. } => {
                drop(validity);
                self.try_clone(alloc)
            }
        }
    }

    // The same parts, null also where these nulls are. `own` is the validity that they have.
    #[tactic(auto, using(crate::proofs::UnderValidity::under_nulls))]
    pub(crate) fn nulled_parts(
        &self,
        alloc: Global,
        own: &Validity,
        nulls: &Validity,
    ) -> Result<ArrayRef, VortexError>
        requires kept { keeps_parts self.now ≡ true }
        requires own { valid_of own.now ≡ validity_of self.now }
        requires fits { ValidFits (valid_of nulls.now) (tree_len self.now) }
        ensures { Gives result (IsNulled self.now (valid_of nulls.now)) }
    {
        self.known();
        let validity = own.nulled(alloc, nulls, self.len())?;
        self.with_validity(alloc, validity)
    }
}
