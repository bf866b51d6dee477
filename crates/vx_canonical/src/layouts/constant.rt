// One row in plain layout, however often.

ghost use Rattle.std.specs.Prelude.{◌≡◌, ◌∷◌, [], true, length, None, IfOk};
ghost use Rattle.vx_base.specs.Kinds.{is_nullable_kind};
ghost use Rattle.vx_base.specs.DTypes.{dtype_meaning};
ghost use Rattle.vx_base.specs.Rows.{null};
ghost use Rattle.vx_base.specs.Refusals.{Refuses};
ghost use Rattle.vx_tree.specs.Tree.{constant};
ghost use Rattle.vx_tree.specs.Layouts.{is_constant};
ghost use Rattle.vx_tree.specs.Meaning.{kind_of};
ghost use Rattle.vx_tree.specs.CanonicalFaults.{kept_fault};
ghost use Rattle.vx_canonical.specs.Canonical.{IsCanonical, IsCanonicalAt, IsCanonicalWithin, IsPickedWithin};
ghost use Rattle.vx_tree.specs.CanonicalFaults.{canonical_fault, constant_fault, plain_overflow};

use crate::canonical_nested::plain_values;
use crate::canonical_zeroes::{blank, blank_like, is_countable};
use crate::kept_faults::check_kept;
use crate::kept_parts::kept_parts;
use std::alloc::Global;
use vx_base::{DType, Scalar, Selection, VortexError};
use vx_tree::{ArrayRef, Layout, Validity, scalar_validity};

// The one row in plain layout, taken as often as it stands. Rows of null are made at once, and
// where no row stands there is but what the one keeps.
#[tactic(auto, using(crate::proofs::Blanks::null_rows, crate::proofs::CanonicalWithin::no_parts))]
pub(crate) fn canonical_constant(alloc: Global, array: &ArrayRef) -> Result<ArrayRef, VortexError>
    requires { is_constant array.now ≡ true }
    ensures ok { IfOk result (IsCanonical array.now) }
    ensures within { IfOk result (IsCanonicalWithin array.now) }
    ensures refuses { Refuses result (canonical_fault array.now) }
{
    let Layout::Constant { scalar, len } = array.layout() else {
        unreachable!();
    };
    let dtype = scalar.dtype();
    if scalar.is_null() {
        return null_rows(alloc, dtype, *len);
    }
    if !is_countable(dtype, *len) {
        return Err(VortexError::Overflow);
    }
    check_kept(alloc, dtype, std::slice::from_ref(scalar.value()))?;
    if *len == 0 {
        return no_row(alloc, scalar);
    }
    let row = one_row(alloc, scalar)?;
    row.known();
    Ok(row.select_within(alloc, &Selection::repeated(0, *len))?)
}

// The one row in plain layout, taken as often as rows are picked.
#[tactic(auto, using(crate::proofs::CanonicalWithin::no_parts))]
pub(crate) fn canonical_constant_at(
    alloc: Global,
    array: &ArrayRef,
    selection: &Selection,
) -> Result<ArrayRef, VortexError>
    requires layout { is_constant array.now ≡ true }
    requires countable { plain_overflow (kind_of array.now) (length selection.now) ≡ None }
    ensures ok { IfOk result (IsCanonicalAt array.now selection.now) }
    ensures within { IfOk result (IsPickedWithin array.now) }
    ensures refuses { Refuses result (canonical_fault array.now) }
{
    let Layout::Constant { scalar, len } = array.layout() else {
        unreachable!();
    };
    if !is_countable(scalar.dtype(), *len) {
        return Err(VortexError::Overflow);
    }
    let picked = ArrayRef::constant(alloc, scalar.try_clone(alloc)?, selection.len())?;
    let rows = canonical_constant(alloc, &picked)?;
    Ok(rows)
}

// The one row in plain layout.
fn one_row(alloc: Global, scalar: &Scalar) -> Result<ArrayRef, VortexError>
    ensures ok { IfOk result (IsCanonical (constant scalar.now.kind scalar.now.row 1)) }
    ensures refuses { Refuses result (constant_fault scalar.now.kind scalar.now.row 1) }
{
    let dtype = scalar.dtype();
    plain_values(alloc, dtype, std::slice::from_ref(scalar.value()))
}

// No row in plain layout, with the elements and the buffers that the one row keeps.
fn no_row(alloc: Global, scalar: &Scalar) -> Result<ArrayRef, VortexError>
    ensures ok { IfOk result (IsCanonical (constant scalar.now.kind scalar.now.row 0)) }
    ensures refuses { Refuses result (kept_fault scalar.now.kind (scalar.now.row ∷ [])) }
{
    let dtype = scalar.dtype();
    let kept = kept_parts(alloc, dtype, std::slice::from_ref(scalar.value()))?;
    Ok(blank_like(alloc, &kept, 0, scalar_validity(scalar))?)
}

// Rows of null of a data type in plain layout.
#[tactic(auto, using(crate::proofs::Blanks::null_rows))]
fn null_rows(alloc: Global, dtype: &DType, len: usize) -> Result<ArrayRef, VortexError>
    requires { is_nullable_kind (dtype_meaning dtype.now) ≡ true }
    ensures ok { IfOk result (IsCanonical (constant (dtype_meaning dtype.now) null len)) }
    ensures refuses { Refuses result (plain_overflow (dtype_meaning dtype.now) len) }
{
    if !is_countable(dtype, len) {
        return Err(VortexError::Overflow);
    }
    Ok(blank(alloc, dtype, len, Validity::AllInvalid)?)
}
