// Columns of what iterators give, read back row by row.

use std::test::Fail;
use vx_base::{DType, Nullability, PType};
use vx_test_help::has_numbers_or_nulls;
use vx_test_help::rows::{is_null, is_text, is_truth};
use vx_uses::collected::{numbers_or_nulls, texts_or_nulls, truths_or_nulls};

#[test]
fn numbers_are_collected(rt: HostRuntime) -> Result<(), Fail> {
    let alloc = rt.alloc();
    let column = numbers_or_nulls::<i16>(alloc, &[Some(7), None, Some(-9)])?;
    assert!(rt; has_numbers_or_nulls(&column, &[Some(7), None, Some(-9)]));
    assert!(rt;
        matches!(
            column.dtype(),
            DType::Primitive(PType::I16, Nullability::Nullable)
        )
    );
    let nulls = numbers_or_nulls::<u64>(alloc, &[None, None])?;
    assert!(rt; has_numbers_or_nulls(&nulls, &[None, None]));
    let all = numbers_or_nulls::<u64>(alloc, &[Some(18446744073709551615)])?;
    assert!(rt; has_numbers_or_nulls(&all, &[Some(18446744073709551615)]));
    Ok(())
}

#[test]
fn truth_values_are_collected(rt: HostRuntime) -> Result<(), Fail> {
    let alloc = rt.alloc();
    let items = [Some(true), None, Some(false)];
    let column = truths_or_nulls(alloc, &items)?;
    for (i, item) in items.iter().enumerate() {
        assert!(rt; is_truth(alloc, &column, i, *item)?);
    }
    assert!(rt; column.len() == 3);
    Ok(())
}

#[test]
fn texts_are_collected(rt: HostRuntime) -> Result<(), Fail> {
    let alloc = rt.alloc();
    let column = texts_or_nulls(alloc, &[Some("abc"), None, Some("a longer text"), Some("")])?;
    assert!(rt; column.len() == 4);
    assert!(rt; is_text(alloc, &column, 0, b"abc")? && is_null(alloc, &column, 1)?);
    assert!(rt; is_text(alloc, &column, 2, b"a longer text")? && is_text(alloc, &column, 3, b"")?);
    Ok(())
}
