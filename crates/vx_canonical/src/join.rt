// Arrays of one data type in plain layouts that are joined, one after another.

ghost use Rattle.std.specs.Prelude.{◌≡◌, ◌<◌, ◌≤◌, ◌^◌, true, length, IfOk};
ghost use Rattle.std.specs.List.{All};
ghost use Rattle.vx_base.specs.DTypes.{is_nullable};
ghost use Rattle.vx_base.specs.Kinds.{is_nullable_kind};
ghost use Rattle.vx_base.specs.Refusals.{Gives};
ghost use Rattle.vx_tree.specs.Meaning.{kind_of};
ghost use Rattle.vx_tree.specs.Parts.{valid_of};
ghost use Rattle.vx_tree.specs.Fitting.{AllFormed};
ghost use Rattle.vx_tree.specs.Meaning.{kinds_of, trees_from};
ghost use Rattle.vx_tree.specs.Formed.{column_count};
ghost use Rattle.vx_tree.specs.Layouts.{is_fixed_list, is_list_view, is_struct};
ghost use Rattle.vx_tree.specs.Plain.{IsPlain, ArePlain};
ghost use Rattle.vx_canonical.specs.Joinable.{AreColumnsJoinable, AreJoinable};
ghost use Rattle.vx_canonical.specs.Joined.{joined_len, IsValidJoined, ArePartsOf, IsJoined};
ghost use Rattle.vx_canonical.specs.Joined.{AreColumnsJoined, columns_in, HasJoinedNumbers, HaveJoinedNumbers};

use crate::layouts::bool::join_bools;
use crate::layouts::fixed_size_list::{elements_of, join_fixed_lists};
use crate::layouts::list_view::join_list_views;
use crate::layouts::primitive::join_primitives;
use crate::layouts::structure::{columns_of, join_structs};
use crate::layouts::var_bin_view::join_views;
use std::alloc::Global;
use vx_base::{Nullability, VortexError};
use vx_tree::{ArrayRef, Layout, Validity};

// How many rows the arrays have. Asks that they can be counted.
fn joined_len(arrays: &[ArrayRef]) -> usize
    requires { joined_len arrays.now < 2 ^ 64 }
    ensures { result ≡ joined_len arrays.now }
{
    let mut total = 0;
    for array in arrays {
        total += array.len();
    }
    total
}

// What is always true of the arrays, at every depth. It does nothing.
pub(crate) fn all_formed(arrays: &[ArrayRef])
    ensures { All AllFormed arrays.now }
{
    for array in arrays {
        array.known();
    }
}

// The validities of the arrays, each with its number of rows.
fn validity_parts(alloc: Global, arrays: &[ArrayRef]) -> Result<Vec<(Validity, usize)>, VortexError>
    ensures { Gives result (λ parts. ArePartsOf arrays.now parts.items) }
{
    let mut parts = Vec::with_capacity(alloc, arrays.len())?;
    for array in arrays {
        parts.push((array.validity(alloc)?, array.len()))?;
    }
    Ok(parts)
}

// Which of their rows are valid. Asks that the rows can be counted, and that null may stand in all
// of the arrays or in none.
pub(crate) fn joined_validity(
    alloc: Global,
    arrays: &[ArrayRef],
    nullability: Nullability,
) -> Result<Validity, VortexError>
    requires short { joined_len arrays.now < 2 ^ 64 }
    requires alike { All (λ t. is_nullable_kind (kind_of t) ≡ is_nullable nullability) arrays.now }
    ensures { Gives result (λ v. IsValidJoined (is_nullable nullability) arrays.now (valid_of v)) }
{
    let parts = validity_parts(alloc, arrays)?;
    match Validity::concat(alloc, parts)? {
        Some(validity) => Ok(validity),
        None => Ok(Validity::full(nullability)),
    }
}

// The rows of plain arrays, one array after another, in plain layout. Asks that all of them are
// of the kind of this one, which is plain too, and that rows, elements and buffers can be counted.
#[cycle(join)]
pub(crate) fn join_like(
    alloc: Global,
    like: &ArrayRef,
    arrays: &[ArrayRef],
) -> Result<ArrayRef, VortexError>
    requires plain { IsPlain like.now }
    requires arrays { AreJoinable (kind_of like.now) arrays.now }
    ensures joined { Gives result (IsJoined (kind_of like.now) arrays.now) }
    ensures numbers { IfOk result (HasJoinedNumbers arrays.now) }
{
    let len = joined_len(arrays);
    let validity = joined_validity(alloc, arrays, like.dtype().nullability())?;
    match like.layout() {
        Layout::Bool { .. } => Ok(join_bools(alloc, arrays, len, validity)?),
        Layout::Primitive { ptype, .. } => {
            Ok(join_primitives(alloc, *ptype, arrays, len, validity)?)
        }
        Layout::FixedSizeList { .. } => join_fixed_like(alloc, like, arrays, len, validity),
        Layout::ListView { .. } => join_lists_like(alloc, like, arrays, len, validity),
        Layout::Struct { .. } => join_structs_like(alloc, like, arrays, len, validity),
        Layout::VarBinView { dtype, .. } => Ok(join_views(alloc, dtype, arrays, len, validity)?),
        Layout::Constant { .. } | Layout::Dict { .. } => unreachable!(),
    }
}

// Plain lists of one size, those of one array after another.
#[cycle(join)]
fn join_fixed_like(
    alloc: Global,
    like: &ArrayRef,
    arrays: &[ArrayRef],
    len: usize,
    validity: Validity,
) -> Result<ArrayRef, VortexError>
    requires layout { is_fixed_list like.now ≡ true }
    requires plain { IsPlain like.now }
    requires arrays { AreJoinable (kind_of like.now) arrays.now }
    requires len { len ≡ joined_len arrays.now }
    requires valid { IsValidJoined (is_nullable_kind (kind_of like.now)) arrays.now (valid_of validity) }
    ensures joined { Gives result (IsJoined (kind_of like.now) arrays.now) }
    ensures numbers { IfOk result (HasJoinedNumbers arrays.now) }
{
    let Layout::FixedSizeList { elements, size, .. } = like.layout() else {
        unreachable!();
    };
    let list = elements_of(alloc, arrays)?;
    let joined = join_like(alloc, elements, &list)?;
    Ok(join_fixed_lists(alloc, joined, *size, arrays, len, validity)?)
}

// Plain list views, the lists of one array after another.
#[cycle(join)]
fn join_lists_like(
    alloc: Global,
    like: &ArrayRef,
    arrays: &[ArrayRef],
    len: usize,
    validity: Validity,
) -> Result<ArrayRef, VortexError>
    requires layout { is_list_view like.now ≡ true }
    requires plain { IsPlain like.now }
    requires arrays { AreJoinable (kind_of like.now) arrays.now }
    requires valid { IsValidJoined (is_nullable_kind (kind_of like.now)) arrays.now (valid_of validity) }
    ensures joined { Gives result (IsJoined (kind_of like.now) arrays.now) }
    ensures numbers { IfOk result (HasJoinedNumbers arrays.now) }
{
    let Layout::ListView { elements, .. } = like.layout() else {
        unreachable!();
    };
    let list = elements_of(alloc, arrays)?;
    let joined = join_like(alloc, elements, &list)?;
    Ok(join_list_views(alloc, joined, arrays, len, validity)?)
}

// Plain records, those of one array after another.
#[cycle(join)]
fn join_structs_like(
    alloc: Global,
    like: &ArrayRef,
    arrays: &[ArrayRef],
    len: usize,
    validity: Validity,
) -> Result<ArrayRef, VortexError>
    requires layout { is_struct like.now ≡ true }
    requires plain { IsPlain like.now }
    requires arrays { AreJoinable (kind_of like.now) arrays.now }
    requires len { len ≡ joined_len arrays.now }
    requires valid { IsValidJoined (is_nullable_kind (kind_of like.now)) arrays.now (valid_of validity) }
    ensures joined { Gives result (IsJoined (kind_of like.now) arrays.now) }
    ensures numbers { IfOk result (HasJoinedNumbers arrays.now) }
{
    let Layout::Struct { names, columns, .. } = like.layout() else {
        unreachable!();
    };
    let joined = join_columns(alloc, columns, arrays)?;
    let names = names.try_clone(alloc)?;
    Ok(join_structs(alloc, names, joined, arrays, len, validity)?)
}

// Each column of arrays of records, joined like the column at its place of these.
#[cycle(join)]
fn join_columns(
    alloc: Global,
    columns: &[ArrayRef],
    arrays: &[ArrayRef],
) -> Result<Vec<ArrayRef>, VortexError>
    requires plain { ArePlain (trees_from columns.now) }
    requires records { All (λ t. is_struct t ≡ true) arrays.now }
    requires places { All (λ t. length columns.now ≤ column_count (columns_in t)) arrays.now }
    requires each { AreColumnsJoinable columns.now arrays.now }
    ensures joined { Gives result (λ cs. AreColumnsJoined arrays.now (length columns.now) (trees_from cs.items)) }
    ensures kinds { IfOk result (λ cs. kinds_of (trees_from cs.items) ≡ kinds_of (trees_from columns.now)) }
    ensures numbers { IfOk result (λ cs. HaveJoinedNumbers arrays.now 0 (trees_from cs.items)) }
{
    let mut made = Vec::with_capacity(alloc, columns.len())?;
    for column in columns {
        let list = columns_of(alloc, arrays, made.len())?;
        made.push(join_like(alloc, column, &list)?)?;
    }
    Ok(made)
}
