// Each call of masks and of lent bits once, on values from outside.

ghost use Rattle.std.specs.Prelude.{◌≡◌, length, IfOk};

use std::alloc::Global;
use vx_base::{BitBuffer, BitBufferMeta, BitBufferView, Mask, VortexError};

// A mask of these booleans.
pub(crate) fn mask_of(alloc: Global, bools: &[bool]) -> Result<Mask, VortexError>
    ensures { IfOk result (λ mask. length mask ≡ length bools.now) }
{
    Mask::from_buffer(alloc, BitBuffer::from_bools(alloc, bools)?)
}

// Whether the mask has these booleans.
fn is_mask(alloc: Global, mask: &Mask, want: &[bool]) -> Result<bool, VortexError> {
    Ok(*mask == mask_of(alloc, want)?)
}

// The rows of two masks.
fn both(alloc: Global, first: Mask, second: Mask) -> Result<Mask, VortexError> {
    Mask::concat(alloc, &vec![in alloc; first, second]?)
}

// The rows of four masks, of which the outer ones are lists of booleans.
fn four(alloc: Global, first: Mask, last: Mask) -> Result<Mask, VortexError> {
    Mask::concat(
        alloc,
        &vec![in alloc; first, Mask::new_true(1), Mask::new_false(2), last]?,
    )
}

#[test]
fn joined_masks(rt: HostRuntime) {
    let alloc = rt.alloc();
    let joined = four(
        alloc,
        mask_of(alloc, &[true, false]).expect(&rt, "made"),
        mask_of(alloc, &[false, true]).expect(&rt, "made"),
    )
    .expect(&rt, "made");
    assert!(rt;
        is_mask(
            alloc,
            &joined,
            &[true, false, true, false, false, false, true]
        )
        .expect(&rt, "made")
    );
}

#[test]
fn joined_masks_that_are_alike(rt: HostRuntime) {
    let alloc = rt.alloc();
    let joined = both(alloc, Mask::new_true(2), Mask::new_true(1)).expect(&rt, "made");
    assert!(rt; is_mask(alloc, &joined, &[true, true, true]).expect(&rt, "made"));
    let joined = both(alloc, Mask::new_false(2), Mask::new_false(1)).expect(&rt, "made");
    assert!(rt; is_mask(alloc, &joined, &[false, false, false]).expect(&rt, "made"));
}

#[test]
fn no_masks_joined(rt: HostRuntime) {
    assert!(rt; Mask::concat(rt.alloc(), &[]).expect(&rt, "made") == Mask::new_true(0));
}

#[test]
fn more_rows_than_can_be_counted(rt: HostRuntime) {
    let joined = both(rt.alloc(), Mask::new_true(usize::MAX), Mask::new_false(1));
    assert!(rt; matches!(joined, Err(VortexError::Overflow)));
}

#[test]
fn equal_masks(rt: HostRuntime) {
    assert!(rt; is_mask(rt.alloc(), &Mask::new_true(2), &[true, true]).expect(&rt, "made"));
    let mask = mask_of(rt.alloc(), &[true, false]).expect(&rt, "made");
    assert!(rt; !is_mask(rt.alloc(), &mask, &[false, true]).expect(&rt, "made"));
}

#[test]
fn equal_even_masks(rt: HostRuntime) {
    assert!(rt; Mask::new_true(0) == Mask::new_false(0));
    assert!(rt; Mask::new_true(2) != Mask::new_true(3));
}

#[test]
fn values_of_even_masks(rt: HostRuntime) {
    assert!(rt; Mask::new_true(3).values().is_none() && Mask::new_false(3).values().is_none());
}

#[test]
fn values_of_masks(rt: HostRuntime) -> Result<(), VortexError> {
    let mask = mask_of(rt.alloc(), &[true, false, true])?;
    let Some(values) = mask.values() else {
        return Err(VortexError::EmptyInput);
    };
    assert!(rt; values.len() == 3 && values.true_count() == 2);
    assert!(rt; values.value(0) && !values.value(1));
    Ok(())
}

#[test]
fn bits_of_mask_values(rt: HostRuntime) -> Result<(), VortexError> {
    let mask = mask_of(rt.alloc(), &[true, false, true])?;
    let Some(values) = mask.values() else {
        return Err(VortexError::EmptyInput);
    };
    let bits = values.bit_buffer(rt.alloc())?;
    assert!(rt; bits.len() == 3 && bits.view().len() == 3);
    assert!(rt; bits.value(0) && !bits.view().value(1) && bits.value(2));
    Ok(())
}

#[test]
fn lent_bits(rt: HostRuntime) {
    let meta = BitBufferMeta::new(9, 6);
    assert!(rt; meta.offset() == 9 && meta.len() == 6);
    let bits = BitBufferView::from_meta(&[0xac, 0x69, 0x00], meta);
    assert_eq!(rt; bits.len(), 6);
    assert!(rt; !bits.value(0) && !bits.value(1) && bits.value(2));
    assert!(rt; !bits.value(3) && bits.value(4) && bits.value(5));
}

// Whether these are the runs of a mask in which both values stand.
fn has_runs(mask: &Mask, want: &[(usize, usize)]) -> bool {
    match mask.values() {
        Some(values) => values.runs() == want && mask.runs() == want,
        None => false,
    }
}

#[test]
fn runs_of_masks(rt: HostRuntime) {
    let mask = mask_of(rt.alloc(), &[true, false, true, true]).expect(&rt, "made");
    assert!(rt; has_runs(&mask, &[(0, 1), (2, 4)]));
    assert_eq!(rt; mask.len(), 4);
    assert!(rt; mask.true_count() == 3 && mask.value(3) && !mask.value(1));
    assert!(rt;
        mask_of(rt.alloc(), &[true, true, true])
            .expect(&rt, "made")
            .values()
            .is_none()
    );
}

#[test]
fn runs_of_even_masks(rt: HostRuntime) {
    assert!(rt; Mask::new_true(3).runs() == [(0, 3)].as_slice());
    assert!(rt; Mask::new_false(3).runs().is_empty() && Mask::new_true(0).runs().is_empty());
}

#[test]
fn runs_of_an_alternating_mask(rt: HostRuntime) {
    let mut bools = vec![in rt.alloc(); false; 1000].expect(&rt, "made");
    for (row, value) in bools.iter_mut().enumerate() {
        *value = row % 2 == 0;
    }
    let mask = mask_of(rt.alloc(), &bools).expect(&rt, "made");
    assert_eq!(rt; mask.runs().len(), 500);
    assert_eq!(rt; mask.len(), 1000);
    let mut rows = mask.rows();
    assert!(rt; rows.value(0) && !rows.value(1) && rows.value(2) && !rows.value(999));
    assert!(rt; mask.value(998) && !mask.value(501));
}

#[test]
fn runs_that_touch_are_joined(rt: HostRuntime) {
    let alloc = rt.alloc();
    let apart = both(
        alloc,
        mask_of(alloc, &[true, false]).expect(&rt, "made"),
        mask_of(alloc, &[false, true]).expect(&rt, "made"),
    )
    .expect(&rt, "made");
    assert!(rt; has_runs(&apart, &[(0, 1), (3, 4)]));
    let joined = both(
        alloc,
        mask_of(alloc, &[false, true]).expect(&rt, "made"),
        mask_of(alloc, &[true, false]).expect(&rt, "made"),
    )
    .expect(&rt, "made");
    assert!(rt; has_runs(&joined, &[(1, 3)]));
}

#[test]
fn masks_of_runs(rt: HostRuntime) {
    let alloc = rt.alloc();
    let mask = Mask::from_runs(4, vec![in alloc; (0, 1), (2, 4)].expect(&rt, "made"));
    assert!(rt; is_mask(alloc, &mask, &[true, false, true, true]).expect(&rt, "made"));
    assert!(rt;
        Mask::from_runs(3, vec![in alloc; (0, 3)].expect(&rt, "made")) == Mask::new_true(3)
    );
    assert!(rt; Mask::from_runs(3, Vec::new(alloc)) == Mask::new_false(3));
}

#[test]
fn rows_true_in_both(rt: HostRuntime) {
    let alloc = rt.alloc();
    let first = mask_of(alloc, &[true, true, false, true, true, true]).expect(&rt, "made");
    let second = mask_of(alloc, &[false, true, true, true, false, true]).expect(&rt, "made");
    assert_eq!(rt; first.len(), 6);
    assert_eq!(rt; second.len(), 6);
    let shared = first.and(alloc, &second).expect(&rt, "made");
    assert!(rt; has_runs(&shared, &[(1, 2), (3, 4), (5, 6)]));
    assert!(rt; first.and(alloc, &Mask::new_true(6)).expect(&rt, "made") == first);
    assert!(rt; first.and(alloc, &Mask::new_false(6)).expect(&rt, "made") == Mask::new_false(6));
}

#[test]
fn masks_over_several_words(rt: HostRuntime) -> Result<(), VortexError> {
    let alloc = rt.alloc();
    let runs = vec![in alloc; (3, 57), (60, 64), (65, 200), (207, 208), (216, 300)]?;
    let mask = Mask::from_runs(301, runs.to_vec(alloc)?);
    let Some(values) = mask.values() else {
        return Err(VortexError::EmptyInput);
    };
    let again = Mask::from_buffer(alloc, values.bit_buffer(alloc)?)?;
    assert!(rt; again == mask && has_runs(&again, &runs));
    Ok(())
}

#[test]
fn masks_of_bits_at_an_offset(rt: HostRuntime) -> Result<(), VortexError> {
    let alloc = rt.alloc();
    let runs = vec![in alloc; (3, 57), (60, 64), (65, 200), (207, 208), (216, 300)]?;
    let mask = Mask::from_runs(301, runs);
    let Some(values) = mask.values() else {
        return Err(VortexError::EmptyInput);
    };
    let bits = values.bit_buffer(alloc)?;
    assert_eq!(rt; bits.len(), 301);
    let shared = Mask::from_buffer(alloc, bits.slice(alloc, 61..300)?)?;
    assert!(rt; has_runs(&shared, &[(0, 3), (4, 139), (146, 147), (155, 239)]));
    Ok(())
}

#[test]
fn bits_of_valid_rows(rt: HostRuntime) {
    let alloc = rt.alloc();
    let bits = BitBuffer::from_bools(alloc, &[true, true, false, true, true, true]).expect(
        &rt, "made",
    );
    let valid = mask_of(alloc, &[false, true, true, true, false, true]).expect(&rt, "made");
    assert_eq!(rt; bits.len(), 6);
    assert_eq!(rt; valid.len(), 6);
    let told = Mask::from_buffer_within(alloc, &bits, &valid).expect(&rt, "made");
    assert!(rt; has_runs(&told, &[(1, 2), (3, 4), (5, 6)]));
    let told = Mask::from_buffer_within(alloc, &bits, &Mask::new_true(6)).expect(&rt, "made");
    assert!(rt; has_runs(&told, &[(0, 2), (3, 6)]));
    let told = Mask::from_buffer_within(alloc, &bits, &Mask::new_false(6)).expect(&rt, "made");
    assert!(rt; told == Mask::new_false(6));
}
