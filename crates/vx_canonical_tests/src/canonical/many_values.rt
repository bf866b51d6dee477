// Dictionaries of a few codes, over more values than any memory could hold.

ghost use Rattle.std.specs.Prelude.{◌≡◌, ◌^◌, false, true, pos, IfOk};
ghost use Rattle.vx_base.specs.Kinds.{booleans, integers};
ghost use Rattle.vx_base.specs.Rows.{boolean, whole};
ghost use Rattle.vx_base.specs.declared.ptypes.PType.TheVariants.{U8};
ghost use Rattle.vx_tree.specs.Tree.{constant};

use std::alloc::Global;
use std::process::Abort;
use vx_base::{Nullability, PType, Scalar, VortexError};
use vx_canonical::{Concatenate, ToCanonical};
use vx_tree::{ArrayRef, Layout};

// Twice the code of the first value.
fn codes(alloc: Global) -> Result<ArrayRef, VortexError>
    ensures { IfOk result (λ a. a ≡ constant (integers U8 false) (whole (pos 0)) 2) }
{
    ArrayRef::constant(
        alloc,
        Scalar::int(0, PType::U8, Nullability::NonNullable),
        2,
    )
}

// The truth value true, again and again.
fn truths(alloc: Global) -> Result<ArrayRef, VortexError>
    ensures { IfOk result (λ a. a ≡ constant (booleans false) (boolean true) (2 ^ 60)) }
{
    ArrayRef::constant(alloc, Scalar::bool(true, Nullability::NonNullable), 1 << 60)
}

// True, twice.
fn named(alloc: Global) -> Result<ArrayRef, VortexError> {
    ArrayRef::dictionary(alloc, codes(alloc)?, truths(alloc)?, false)
}

#[test]
fn only_what_codes_name_is_made_plain(rt: HostRuntime) {
    let plain = named(rt.alloc())
        .expect(&rt, "made")
        .to_canonical(rt.alloc())
        .expect(&rt, "made");
    let Layout::Bool { bits, .. } = plain.layout() else {
        panic!(rt; "no truth values");
    };
    assert!(rt; bits.len() == 2 && bits.true_count() == 2);
}

#[test]
fn only_what_codes_name_is_joined(rt: HostRuntime) {
    let alloc = rt.alloc();
    let array = named(alloc).expect(&rt, "made");
    let joined = ArrayRef::concat(
        alloc,
        &[array.try_clone(alloc).expect(&rt, "made"), array],
    ).expect(&rt, "made");
    let Layout::Bool { bits, .. } = joined.layout() else {
        panic!(rt; "no truth values");
    };
    assert!(rt; bits.len() == 4 && bits.true_count() == 4);
}

// The number 7, again and again.
fn sevens(alloc: Global) -> Result<ArrayRef, VortexError>
    ensures { IfOk result (λ a. a ≡ constant (integers U8 false) (whole (pos 7)) (2 ^ 60)) }
{
    let seven = Scalar::int(7, PType::U8, Nullability::NonNullable);
    ArrayRef::constant(alloc, seven, 1 << 60)
}

// The number 7, twice.
fn named_sevens(alloc: Global) -> Result<ArrayRef, VortexError> {
    ArrayRef::dictionary(alloc, codes(alloc)?, sevens(alloc)?, false)
}

#[test]
fn only_the_numbers_that_codes_name_are_joined(rt: HostRuntime) {
    let alloc = rt.alloc();
    let array = named_sevens(alloc).expect(&rt, "made");
    let joined = ArrayRef::concat(alloc, &[array]).expect(&rt, "made");
    let Layout::Primitive { ptype, bytes, .. } = joined.layout() else {
        panic!(rt; "no numbers");
    };
    assert!(rt; *ptype == PType::U8 && bytes.as_slice() == b"\x07\x07".as_slice());
}
