// Rows that are picked at numbers in bytes, and one that is picked again and again.

use vx_base::{
    BitBuffer, PType, Selection, extend_with_numbers, gather_bits, gather_items, gather_numbers,
    zero_numbers,
};

#[test]
#[tactic(auto, unfolding(vx_base::specs::Integers::numbers))]
fn picked_numbers_at_numbers(rt: HostRuntime) {
    let places = Selection::at_numbers(PType::I16, &[1, 0, 0, 0]);
    let picked = gather_numbers(rt.alloc(), PType::U16, &[1, 0, 0, 2], &places).expect(&rt, "made");
    assert!(rt; picked.as_slice() == [0, 2, 1, 0].as_slice());
}

#[test]
fn one_number_picked_again(rt: HostRuntime) {
    let places = Selection::repeated(1, 3);
    let picked = gather_numbers(rt.alloc(), PType::U16, &[1, 0, 0, 2], &places).expect(&rt, "made");
    assert!(rt; picked.as_slice() == [0, 2, 0, 2, 0, 2].as_slice());
}

#[test]
fn one_zero_picked_again(rt: HostRuntime) {
    let places = Selection::repeated(1, 3);
    let picked = gather_numbers(rt.alloc(), PType::U16, &[1, 0, 0, 0], &places).expect(&rt, "made");
    assert!(rt; picked.as_slice() == [0, 0, 0, 0, 0, 0].as_slice());
}

#[test]
fn numbers_of_zeroes(rt: HostRuntime) {
    let zeroes = zero_numbers(rt.alloc(), PType::I32, 2).expect(&rt, "made");
    assert!(rt; zeroes.as_slice() == [0, 0, 0, 0, 0, 0, 0, 0].as_slice());
}

#[test]
fn numbers_picked_after_others(rt: HostRuntime) {
    let before = vec![in rt.alloc(); 7u8, 7].expect(&rt, "made");
    let places = Selection::at_positions(&[1, 0, 1]);
    let picked = extend_with_numbers(before, PType::U16, &[1, 0, 0, 2], &places).expect(
        &rt, "made",
    );
    assert!(rt; picked.as_slice() == [7, 7, 0, 2, 1, 0, 0, 2].as_slice());
}

#[test]
#[tactic(auto, unfolding(vx_base::specs::Integers::numbers))]
fn picked_items_at_numbers(rt: HostRuntime) {
    let places = Selection::at_numbers(PType::U8, &[2, 0]);
    let picked = gather_items(rt.alloc(), &[5u128, 6, 7], &places).expect(&rt, "made");
    assert!(rt; picked.as_slice() == [7, 5].as_slice());
}

#[test]
fn one_item_picked_again(rt: HostRuntime) {
    let places = Selection::repeated(2, 2);
    let picked = gather_items(rt.alloc(), &[5u128, 6, 7], &places).expect(&rt, "made");
    assert!(rt; picked.as_slice() == [7, 7].as_slice());
}

#[test]
#[tactic(auto, unfolding(vx_base::specs::Integers::numbers))]
fn picked_bits_at_numbers(rt: HostRuntime) {
    let bits = BitBuffer::from_bools(rt.alloc(), &[false, true]).expect(&rt, "made");
    let places = Selection::at_numbers(PType::U8, &[1, 0, 1]);
    let picked = gather_bits(rt.alloc(), &bits, &places).expect(&rt, "made");
    assert!(rt;
        picked == BitBuffer::from_bools(rt.alloc(), &[true, false, true]).expect(&rt, "made")
    );
}

#[test]
fn one_bit_picked_again(rt: HostRuntime) {
    let bits = BitBuffer::from_bools(rt.alloc(), &[false, true]).expect(&rt, "made");
    let picked = gather_bits(rt.alloc(), &bits, &Selection::repeated(1, 3)).expect(&rt, "made");
    assert!(rt; picked == BitBuffer::new_set(rt.alloc(), 3).expect(&rt, "made"));
}

#[test]
fn elements_of_lists_at_positions(rt: HostRuntime) {
    let lists = Selection::at_positions(&[1, 0]);
    let elements = lists.lists(rt.alloc(), 4).expect(&rt, "made");
    assert!(rt; elements.len() == 8);
    let bytes = [10, 11, 12, 13, 14, 15, 16, 17];
    let picked = gather_numbers(rt.alloc(), PType::U8, &bytes, &elements).expect(&rt, "made");
    assert!(rt; picked.as_slice() == [14, 15, 16, 17, 10, 11, 12, 13].as_slice());
}

#[test]
fn elements_of_lists_of_three(rt: HostRuntime) {
    let lists = Selection::at_positions(&[1, 1]);
    let bytes = [1, 0, 2, 0, 3, 0, 4, 0, 5, 0, 6, 9];
    let picked = gather_numbers(
        rt.alloc(),
        PType::U16,
        &bytes,
        &lists.lists(rt.alloc(), 3).expect(&rt, "made"),
    )
    .expect(&rt, "made");
    assert!(rt; picked.as_slice() == [4, 0, 5, 0, 6, 9, 4, 0, 5, 0, 6, 9].as_slice());
}

#[test]
#[tactic(auto, unfolding(vx_base::specs::Integers::numbers))]
fn elements_of_lists_at_numbers(rt: HostRuntime) {
    let lists = Selection::at_numbers(PType::U16, &[2, 0, 0, 0]);
    let elements = lists.lists(rt.alloc(), 2).expect(&rt, "made");
    let picked = gather_numbers(rt.alloc(), PType::U8, &[1, 2, 3, 4, 5, 6], &elements).expect(
        &rt, "made",
    );
    assert!(rt; picked.as_slice() == [5, 6, 1, 2].as_slice());
}

#[test]
#[tactic(auto, unfolding(vx_base::specs::Integers::numbers))]
fn items_of_lists_at_numbers(rt: HostRuntime) {
    let lists = Selection::at_numbers(PType::U8, &[1, 0]);
    let picked = gather_items(
        rt.alloc(),
        &[5u128, 6, 7, 8],
        &lists.lists(rt.alloc(), 2).expect(&rt, "made"),
    )
    .expect(&rt, "made");
    assert!(rt; picked.as_slice() == [7, 8, 5, 6].as_slice());
}

#[test]
fn bits_of_lists_at_positions(rt: HostRuntime) {
    let bits = BitBuffer::from_bools(rt.alloc(), &[false, false, true, false]).expect(&rt, "made");
    let lists = Selection::at_positions(&[1, 0]);
    let picked = gather_bits(
        rt.alloc(),
        &bits,
        &lists.lists(rt.alloc(), 2).expect(&rt, "made"),
    )
    .expect(&rt, "made");
    assert!(rt;
        picked
            == BitBuffer::from_bools(rt.alloc(), &[true, false, false, false]).expect(&rt, "made")
    );
}

#[test]
fn lists_of_no_elements_and_of_one(rt: HostRuntime) {
    let lists = Selection::at_positions(&[2, 0]);
    assert!(rt; lists.lists(rt.alloc(), 0).expect(&rt, "made").is_empty());
    let one = lists.lists(rt.alloc(), 1).expect(&rt, "made");
    let picked = gather_numbers(rt.alloc(), PType::U8, &[7, 8, 9], &one).expect(&rt, "made");
    assert!(rt; picked.as_slice() == [9, 7].as_slice());
}

#[test]
fn elements_of_lists_of_lists(rt: HostRuntime) {
    let lists = Selection::at_positions(&[1]);
    let inner = lists.lists(rt.alloc(), 2).expect(&rt, "made");
    let elements = inner.lists(rt.alloc(), 3).expect(&rt, "made");
    assert!(rt; elements.len() == 6);
    let bytes = [0, 1, 2, 3, 4, 5, 6, 7, 8, 9, 10, 11];
    let picked = gather_numbers(rt.alloc(), PType::U8, &bytes, &elements).expect(&rt, "made");
    assert!(rt; picked.as_slice() == [6, 7, 8, 9, 10, 11].as_slice());
}

#[test]
fn elements_of_one_list_again(rt: HostRuntime) {
    let lists = Selection::repeated(1, 2);
    assert!(rt; lists.len() == 2 && !lists.is_empty());
    let picked = gather_items(
        rt.alloc(),
        &[5u128, 6, 7, 8],
        &lists.lists(rt.alloc(), 2).expect(&rt, "made"),
    )
    .expect(&rt, "made");
    assert!(rt; picked.as_slice() == [7, 8, 7, 8].as_slice());
}

#[test]
fn elements_of_lists_of_one_list_again(rt: HostRuntime) {
    let lists = Selection::repeated(1, 2);
    let inner = lists.lists(rt.alloc(), 2).expect(&rt, "made");
    let elements = inner.lists(rt.alloc(), 1).expect(&rt, "made");
    let picked = gather_numbers(rt.alloc(), PType::U8, &[1, 2, 3, 4, 5, 6], &elements).expect(
        &rt, "made",
    );
    assert!(rt; picked.as_slice() == [3, 4, 3, 4].as_slice());
    let bits = BitBuffer::from_bools(rt.alloc(), &[false, false, true, false]).expect(&rt, "made");
    let picked = gather_bits(rt.alloc(), &bits, &elements).expect(&rt, "made");
    assert!(rt;
        picked == BitBuffer::from_bools(rt.alloc(), &[true, false, true, false]).expect(&rt, "made")
    );
}

#[test]
fn elements_of_runs_of_lists(rt: HostRuntime) {
    let lists = Selection::of_runs(&[(1, 3)], 2);
    let inner = lists.lists(rt.alloc(), 2).expect(&rt, "made");
    let elements = inner.lists(rt.alloc(), 1).expect(&rt, "made");
    let picked = gather_numbers(rt.alloc(), PType::U8, &[1, 2, 3, 4, 5, 6], &elements).expect(
        &rt, "made",
    );
    assert!(rt; picked.as_slice() == [3, 4, 5, 6].as_slice());
}
