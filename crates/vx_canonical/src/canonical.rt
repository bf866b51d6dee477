// The plain layout of an array: one recursion through all layouts, and the same of rows that are
// picked.

ghost use Rattle.std.specs.Prelude.{◌≡◌, true, false, length, None, IfOk};
ghost use Rattle.std.specs.List.{All};
ghost use Rattle.vx_base.specs.DTypes.{dtype_meaning};
ghost use Rattle.vx_base.specs.Refusals.{Gives, Refuses};
ghost use Rattle.vx_tree.specs.Tree.{dictionary};
ghost use Rattle.vx_tree.specs.Layouts.{is_dictionary, is_fixed_list, is_list_view, is_struct};
ghost use Rattle.vx_tree.specs.Meaning.{tree_len, kind_of, trees_from};
ghost use Rattle.vx_tree.specs.Formed.{ValidFits, IsDictionary, AllLen};
ghost use Rattle.vx_tree.specs.Parts.{valid_of};
ghost use Rattle.vx_tree.specs.Plain.{IsPlain};
ghost use Rattle.vx_tree.specs.Columns.{AllHave};
ghost use Rattle.vx_tree.specs.Operations.{AreBelow, IsNulled};
ghost use Rattle.vx_canonical.specs.Canonical.{IsCanonical, IsCanonicalAt, IsCanonicalValid, AreCanonical, AreCanonicalAt};
ghost use Rattle.vx_canonical.specs.Canonical.{IsCanonicalWithin, AreCanonicalWithin, IsPickedWithin, ArePickedWithin, HasPartsOf};
ghost use Rattle.vx_canonical.specs.LeafKinds.{is_leaf_kind};
ghost use Rattle.vx_tree.specs.CanonicalFaults.{canonical_fault, columns_fault, plain_overflow};

use crate::canonical_zeroes::{is_countable, plain_nulls};
use crate::layouts::constant::{canonical_constant, canonical_constant_at};
use crate::layouts::leaf::{canonical_leaf, canonical_leaf_at};
use std::alloc::Global;
use vx_base::{DType, Selection, VortexError};
use vx_tree::{ArrayRef, Layout, Validity, told_by};

// The same rows in the plain layout of the data type, in the parts too.
#[cycle(canonical)]
pub(crate) fn canonical(alloc: Global, array: &ArrayRef) -> Result<ArrayRef, VortexError>
    ensures ok { IfOk result (IsCanonical array.now) }
    ensures within { IfOk result (IsCanonicalWithin array.now) }
    ensures refuses { Refuses result (canonical_fault array.now) }
{
    match array.layout() {
        Layout::Bool { .. } | Layout::Primitive { .. } | Layout::VarBinView { .. } => {
            Ok(canonical_leaf(alloc, array)?)
        }
        Layout::Constant { .. } => canonical_constant(alloc, array),
        Layout::Dict { .. } => canonical_dictionary(alloc, array),
        Layout::FixedSizeList { .. } => canonical_fixed_lists(alloc, array),
        Layout::ListView { .. } => canonical_list_view(alloc, array),
        Layout::Struct { .. } => canonical_struct(alloc, array),
    }
}

// The rows that are picked, in plain layout: no others are made. Asks that they can be counted.
#[cycle(canonical)]
pub(crate) fn canonical_at(
    alloc: Global,
    array: &ArrayRef,
    selection: &Selection,
) -> Result<ArrayRef, VortexError>
    requires within { AreBelow (tree_len array.now) selection.now }
    requires countable { plain_overflow (kind_of array.now) (length selection.now) ≡ None }
    ensures ok { IfOk result (IsCanonicalAt array.now selection.now) }
    ensures within { IfOk result (IsPickedWithin array.now) }
    ensures refuses { Refuses result (canonical_fault array.now) }
{
    match array.layout() {
        Layout::Bool { .. } | Layout::Primitive { .. } | Layout::VarBinView { .. } => {
            Ok(canonical_leaf_at(alloc, array, selection)?)
        }
        Layout::Constant { .. } => canonical_constant_at(alloc, array, selection),
        Layout::Dict { .. } => canonical_dictionary_at(alloc, array, selection),
        Layout::FixedSizeList { .. } => canonical_fixed_lists_at(alloc, array, selection),
        Layout::ListView { .. } => canonical_list_view_at(alloc, array, selection),
        Layout::Struct { .. } => canonical_struct_at(alloc, array, selection),
    }
}

// The canonical values, taken by the codes.
#[cycle(canonical)]
fn canonical_dictionary(alloc: Global, array: &ArrayRef) -> Result<ArrayRef, VortexError>
    requires { is_dictionary array.now ≡ true }
    ensures ok { IfOk result (IsCanonical array.now) }
    ensures within { IfOk result (IsCanonicalWithin array.now) }
    ensures refuses { Refuses result (canonical_fault array.now) }
{
    let Layout::Dict { codes, values, .. } = array.layout() else {
        unreachable!();
    };
    let named = canonical_named(alloc, values, codes)?;
    Ok(named)
}

// The canonical values, taken by the codes that are picked.
#[cycle(canonical)]
#[tactic(auto, using(vx_tree::proofs::Dictionaries::selected))]
fn canonical_dictionary_at(
    alloc: Global,
    array: &ArrayRef,
    selection: &Selection,
) -> Result<ArrayRef, VortexError>
    requires layout { is_dictionary array.now ≡ true }
    requires within { AreBelow (tree_len array.now) selection.now }
    requires countable { plain_overflow (kind_of array.now) (length selection.now) ≡ None }
    ensures ok { IfOk result (IsCanonicalAt array.now selection.now) }
    ensures within { IfOk result (IsPickedWithin array.now) }
    ensures refuses { Refuses result (canonical_fault array.now) }
{
    let Layout::Dict { codes, values, .. } = array.layout() else {
        unreachable!();
    };
    if !is_countable(values.dtype(), codes.len()) {
        return Err(VortexError::Overflow);
    }
    let picked = codes.select_within(alloc, selection)?;
    let named = canonical_named(alloc, values, &picked)?;
    Ok(named)
}

// The values that codes name, in plain layout. Values with no rows in them that are no more than the
// codes are all made plain first, so that of dictionaries within dictionaries each is read by its own
// codes alone. Of others, those that no code names are not made.
#[cycle(canonical)]
fn canonical_named(
    alloc: Global,
    values: &ArrayRef,
    codes: &ArrayRef,
) -> Result<ArrayRef, VortexError>
    requires { IsDictionary codes.now values.now false }
    ensures ok { IfOk result (IsCanonical (dictionary codes.now values.now false)) }
    ensures within { IfOk result (IsCanonicalWithin (dictionary codes.now values.now false)) }
    ensures refuses { Refuses result (canonical_fault (dictionary codes.now values.now false)) }
{
    if !is_countable(values.dtype(), codes.len()) {
        return Err(VortexError::Overflow);
    }
    if values.is_empty() {
        let values = canonical(alloc, values)?;
        return Ok(named_none(alloc, &values, codes)?);
    }
    let nulls = canonical_validity(alloc, &codes.validity(alloc)?, codes.len())?;
    let positions = codes.code_positions(alloc, values.len())?;
    if values.len() <= codes.len() && is_leaf_type(values.dtype()) {
        let plain = canonical(alloc, values)?;
        let few = canonical_leaf_at(alloc, &plain, &positions.selection())?;
        return Ok(nulled_parts(alloc, &few, &nulls)?);
    }
    let picked = canonical_at(alloc, values, &positions.selection())?;
    Ok(nulled_parts(alloc, &picked, &nulls)?)
}

// Whether rows of a data type have no rows in them.
fn is_leaf_type(dtype: &DType) -> bool
    ensures { result ≡ is_leaf_kind (dtype_meaning dtype.now) }
{
    match dtype {
        DType::Bool(_) | DType::Primitive(_, _) | DType::Utf8(_) | DType::Binary(_) => true,
        DType::List(_, _) | DType::FixedSizeList(_, _, _) | DType::Struct(_, _) => false,
    }
}

// A row of null for each code, in plain layout like these values, of which there are none. Asks
// that the values are in plain layout, and that so many of them can be counted.
#[tactic(auto, using(crate::proofs::PlainKinds::plain_kinds))]
fn named_none(alloc: Global, values: &ArrayRef, codes: &ArrayRef) -> Result<ArrayRef, VortexError>
    requires plain { IsPlain values.now }
    requires none { tree_len values.now ≡ 0 }
    requires codes { IsDictionary codes.now values.now false }
    requires countable { plain_overflow (kind_of values.now) (tree_len codes.now) ≡ None }
    ensures { Gives result (IsCanonical (dictionary codes.now values.now false)) }
{
    let nulls = canonical_validity(alloc, &codes.validity(alloc)?, codes.len())?;
    Ok(plain_nulls(alloc, values, codes.len(), &nulls)?)
}

// The same rows over the same elements, columns and buffers, null where this validity is not true.
fn nulled_parts(alloc: Global, array: &ArrayRef, nulls: &Validity) -> Result<ArrayRef, VortexError>
    requires { ValidFits (valid_of nulls.now) (tree_len array.now) }
    ensures rows { Gives result (IsNulled array.now (valid_of nulls.now)) }
    ensures parts { IfOk result (HasPartsOf array.now) }
{
    array.known();
    let nulled = array.nulled(alloc, nulls)?;
    match nulled.layout() {
        Layout::FixedSizeList { validity, .. } => {
            array.with_validity(alloc, validity.try_clone(alloc)?)
        }
        Layout::Struct { validity, .. } => {
            array.with_validity(alloc, validity.try_clone(alloc)?)
        }
        _ => Ok(nulled),
    }
}

#[cycle(canonical)]
fn canonical_fixed_lists(alloc: Global, array: &ArrayRef) -> Result<ArrayRef, VortexError>
    requires { is_fixed_list array.now ≡ true }
    ensures ok { IfOk result (IsCanonical array.now) }
    ensures within { IfOk result (IsCanonicalWithin array.now) }
    ensures refuses { Refuses result (canonical_fault array.now) }
{
    let Layout::FixedSizeList {
        elements,
        size,
        validity,
        len,
    } = array.layout()
    else {
        unreachable!();
    };
    let elements = canonical(alloc, elements)?;
    let validity = canonical_validity(alloc, validity, *len)?;
    let lists = ArrayRef::fixed_size_list(alloc, elements, *size, validity, *len)?;
    Ok(lists)
}

// The lists of one size that are picked, in plain layout: no other elements are made.
#[cycle(canonical)]
fn canonical_fixed_lists_at(
    alloc: Global,
    array: &ArrayRef,
    selection: &Selection,
) -> Result<ArrayRef, VortexError>
    requires layout { is_fixed_list array.now ≡ true }
    requires within { AreBelow (tree_len array.now) selection.now }
    requires countable { plain_overflow (kind_of array.now) (length selection.now) ≡ None }
    ensures ok { IfOk result (IsCanonicalAt array.now selection.now) }
    ensures within { IfOk result (IsPickedWithin array.now) }
    ensures refuses { Refuses result (canonical_fault array.now) }
{
    let Layout::FixedSizeList {
        elements,
        size,
        validity,
        ..
    } = array.layout()
    else {
        unreachable!();
    };
    elements.known_len();
    let len = selection.len();
    let picked = selection.lists(alloc, *size as usize)?;
    let elements = canonical_at(alloc, elements, &picked)?;
    let validity = validity.select_within(alloc, selection)?;
    let plain = canonical_validity(alloc, &validity, len)?;
    let lists = ArrayRef::fixed_size_list(alloc, elements, *size, plain, len)?;
    Ok(lists)
}

#[cycle(canonical)]
fn canonical_list_view(alloc: Global, array: &ArrayRef) -> Result<ArrayRef, VortexError>
    requires { is_list_view array.now ≡ true }
    ensures ok { IfOk result (IsCanonical array.now) }
    ensures within { IfOk result (IsCanonicalWithin array.now) }
    ensures refuses { Refuses result (canonical_fault array.now) }
{
    let Layout::ListView {
        elements,
        offsets,
        sizes,
        validity,
        flag,
    } = array.layout()
    else {
        unreachable!();
    };
    let elements = canonical(alloc, elements)?;
    let validity = canonical_validity(alloc, validity, offsets.len())?;
    let offsets = canonical(alloc, offsets)?;
    let sizes = canonical(alloc, sizes)?;
    let flag = *flag;
    let lists = ArrayRef::list_view(alloc, elements, offsets, sizes, validity, flag)?;
    Ok(lists)
}

// The lists that are picked, in plain layout: all elements are kept.
#[cycle(canonical)]
#[tactic(auto, using(crate::proofs::CanonicalFaults::integers_countable))]
fn canonical_list_view_at(
    alloc: Global,
    array: &ArrayRef,
    selection: &Selection,
) -> Result<ArrayRef, VortexError>
    requires layout { is_list_view array.now ≡ true }
    requires within { AreBelow (tree_len array.now) selection.now }
    ensures ok { IfOk result (IsCanonicalAt array.now selection.now) }
    ensures within { IfOk result (IsPickedWithin array.now) }
    ensures refuses { Refuses result (canonical_fault array.now) }
{
    let Layout::ListView {
        elements,
        offsets,
        sizes,
        validity,
        ..
    } = array.layout()
    else {
        unreachable!();
    };
    let elements = canonical(alloc, elements)?;
    let offsets = canonical_at(alloc, offsets, selection)?;
    let sizes = canonical_at(alloc, sizes, selection)?;
    let validity = validity.select_within(alloc, selection)?;
    let plain = canonical_validity(alloc, &validity, selection.len())?;
    let lists = ArrayRef::list_view(alloc, elements, offsets, sizes, plain, false)?;
    Ok(lists)
}

#[cycle(canonical)]
fn canonical_struct(alloc: Global, array: &ArrayRef) -> Result<ArrayRef, VortexError>
    requires { is_struct array.now ≡ true }
    ensures ok { IfOk result (IsCanonical array.now) }
    ensures within { IfOk result (IsCanonicalWithin array.now) }
    ensures refuses { Refuses result (canonical_fault array.now) }
{
    let Layout::Struct {
        names,
        columns,
        validity,
        len,
    } = array.layout()
    else {
        unreachable!();
    };
    let columns = canonical_columns(alloc, columns, *len)?;
    let names = names.try_clone(alloc)?;
    let validity = canonical_validity(alloc, validity, *len)?;
    let records = ArrayRef::structure(alloc, names, columns, validity, *len)?;
    Ok(records)
}

// The plain layout of each column, all of which have `len` rows.
#[cycle(canonical)]
fn canonical_columns(
    alloc: Global,
    columns: &[ArrayRef],
    len: usize,
) -> Result<Vec<ArrayRef>, VortexError>
    requires { AllLen len (trees_from columns.now) }
    ensures ok { IfOk result (λ cs. AreCanonical (trees_from columns.now) len (trees_from cs.items)) }
    ensures within { IfOk result (λ cs. AreCanonicalWithin (trees_from columns.now) (trees_from cs.items)) }
    ensures refuses { Refuses result (columns_fault (trees_from columns.now)) }
{
    let mut made = Vec::with_capacity(alloc, columns.len())?;
    for column in columns {
        made.push(canonical(alloc, column)?)?;
    }
    Ok(made)
}

// The records that are picked, in plain layout.
#[cycle(canonical)]
fn canonical_struct_at(
    alloc: Global,
    array: &ArrayRef,
    selection: &Selection,
) -> Result<ArrayRef, VortexError>
    requires layout { is_struct array.now ≡ true }
    requires within { AreBelow (tree_len array.now) selection.now }
    requires countable { plain_overflow (kind_of array.now) (length selection.now) ≡ None }
    ensures ok { IfOk result (IsCanonicalAt array.now selection.now) }
    ensures within { IfOk result (IsPickedWithin array.now) }
    ensures refuses { Refuses result (canonical_fault array.now) }
{
    let Layout::Struct {
        names,
        columns,
        validity,
        ..
    } = array.layout()
    else {
        unreachable!();
    };
    let len = selection.len();
    let columns = canonical_columns_at(alloc, columns, selection)?;
    let names = names.try_clone(alloc)?;
    let validity = validity.select_within(alloc, selection)?;
    let plain = canonical_validity(alloc, &validity, len)?;
    let records = ArrayRef::structure(alloc, names, columns, plain, len)?;
    Ok(records)
}

// The rows that are picked of each column, in plain layout.
#[cycle(canonical)]
fn canonical_columns_at(
    alloc: Global,
    columns: &[ArrayRef],
    selection: &Selection,
) -> Result<Vec<ArrayRef>, VortexError>
    requires within { AllHave selection.now (trees_from columns.now) }
    requires countable { All (λ t. plain_overflow (kind_of t) (length selection.now) ≡ None) columns.now }
    ensures ok { IfOk result (λ cs. AreCanonicalAt (trees_from columns.now) selection.now (trees_from cs.items)) }
    ensures within { IfOk result (λ cs. ArePickedWithin (trees_from columns.now) (trees_from cs.items)) }
    ensures refuses { Refuses result (columns_fault (trees_from columns.now)) }
{
    let mut made = Vec::with_capacity(alloc, columns.len())?;
    for column in columns {
        made.push(canonical_at(alloc, column, selection)?)?;
    }
    Ok(made)
}

// The same state, its array a plain one.
pub(crate) fn canonical_validity(
    alloc: Global,
    validity: &Validity,
    len: usize,
) -> Result<Validity, VortexError>
    requires { ValidFits (valid_of validity.now) len }
    ensures { Gives result (λ w. IsCanonicalValid (valid_of validity.now) len (valid_of w)) }
{
    match validity {
        Validity::NonNullable => Ok(Validity::NonNullable),
        Validity::AllValid => Ok(Validity::AllValid),
        Validity::AllInvalid => Ok(Validity::AllInvalid),
        Validity::Array(array) => told_by(alloc, array.plain_bits(alloc)?),
    }
}
