// Each public call once, on values from outside.

ghost use Rattle.std.specs.Prelude.{◌≡◌, length, IfOk};
ghost use Rattle.vx_base.specs.DTypes.{field_names, field_kinds};
ghost use Rattle.vx_base.specs.Fields.{kind_count};

mod gathered;
mod joined;
pub(crate) mod masks;
mod plain;
mod scalars;
mod selections;
mod shared;

use std::alloc::Global;
use std::rc::Rc;
use vx_base::{
    BitBuffer, BitBufferMut, Buffer, BufferMut, ByteBuffer, DType, FieldNames, Mask, NativePType,
    Nullability, PType, Selection, StructFields, VortexError, first_fault_is_least, gather_bits,
    gather_items, gather_numbers, get_then_put, int_at, int_of, number_count, put_int,
    put_then_get, read_counts, share_buffers, slice_numbers, write_counts,
};

// ---- integer types

#[test]
fn widths_of_types(rt: HostRuntime) {
    assert!(rt; PType::U8.byte_width() == 1 && PType::I16.byte_width() == 2);
    assert!(rt; PType::U32.byte_width() == 4 && PType::I64.byte_width() == 8);
    assert!(rt; PType::U64.is_unsigned_int() && !PType::I8.is_unsigned_int());
    assert!(rt; PType::I32.to_unsigned() == PType::U32);
}

#[test]
fn ranges_of_types(rt: HostRuntime) {
    assert_eq!(rt; PType::I8.least(), -128);
    assert_eq!(rt; PType::U64.greatest(), 18446744073709551615);
    assert!(rt; PType::I8.holds(-128) && !PType::I8.holds(128) && !PType::U16.holds(-1));
}

#[test]
fn types_print(rt: HostRuntime) {
    assert_eq!(rt;
        format!(in rt.alloc(); "{} {}", PType::U8, PType::I64)
            .expect(&rt, "made")
            .as_str(),
        "u8 i64"
    );
}

#[test]
fn number_of_bytes(rt: HostRuntime) {
    assert_eq!(rt; int_of(&[0xfe, 0xff], PType::I16), -2);
    assert_eq!(rt; int_of(&[0xfe, 0xff], PType::U16), 65534);
}

#[test]
fn number_at_place(rt: HostRuntime) {
    let bytes = [0x01, 0xff, 0xfe, 0xff, 0x00, 0x80];
    assert_eq!(rt; number_count(&bytes, PType::I16), 3);
    assert_eq!(rt; int_at(&bytes, PType::I16, 2), -32768);
}

#[test]
fn count_of_numbers(rt: HostRuntime) {
    assert_eq!(rt; number_count(&[1, 2, 3, 4, 5], PType::I16), 2);
}

#[test]
fn bytes_of_number(rt: HostRuntime) {
    let mut out = [0u8; 4];
    put_int(-2, PType::I32, &mut out);
    assert!(rt; out == [0xfe, 0xff, 0xff, 0xff]);
}

#[test]
fn native_numbers(rt: HostRuntime) {
    assert_eq!(rt; <i16 as NativePType>::from_i128(-32769), None);
    assert_eq!(rt; <i16 as NativePType>::from_i128(-32768), Some(-32768));
    assert_eq!(rt; (-7i8).as_i128(), -7);
    assert!(rt; <u32 as NativePType>::PTYPE == PType::U32 && <u32 as NativePType>::WIDTH == 4);
}

#[test]
fn native_bytes(rt: HostRuntime) {
    let mut out = [0u8; 8];
    (-2i64).put_le(&mut out);
    assert!(rt; out == [0xfe, 0xff, 0xff, 0xff, 0xff, 0xff, 0xff, 0xff]);
    assert_eq!(rt; u16::get_le(&[0x01, 0xff]), 0xff01);
}

#[test]
fn round_trips(rt: HostRuntime) {
    assert_eq!(rt; put_then_get(-40000i32, &mut [0u8; 4]), -40000);
    let mut out = [0u8; 2];
    get_then_put::<i16>(&[0x01, 0xff], &mut out);
    assert!(rt; out == [0x01, 0xff]);
    first_fault_is_least();
}

// ---- refusals and data types

#[test]
fn refusals_below_twelve(rt: HostRuntime) {
    for (refusal, number, name) in [
        (VortexError::Memory, 1, "Memory"),
        (VortexError::MismatchedTypes, 2, "MismatchedTypes"),
        (
            VortexError::LengthMismatch {
                expected: 1,
                found: 2,
            },
            3,
            "LengthMismatch",
        ),
        (VortexError::NullabilityMismatch, 4, "NullabilityMismatch"),
        (
            VortexError::OutOfBounds { index: 1, len: 1 },
            5,
            "OutOfBounds",
        ),
        (VortexError::Negative { row: 0 }, 6, "Negative"),
        (VortexError::Overflow, 7, "Overflow"),
        (VortexError::NotImplemented, 8, "NotImplemented"),
        (VortexError::HasNulls, 9, "HasNulls"),
        (VortexError::UnknownField, 10, "UnknownField"),
        (VortexError::EmptyInput, 11, "EmptyInput"),
    ] {
        assert!(rt;
            refusal.number() == number && refusal.name() == name,
            "at {number}"
        );
    }
}

#[test]
fn refusals_from_twelve(rt: HostRuntime) {
    for (refusal, number, name) in [
        (VortexError::DifferingDtypes, 12, "DifferingDtypes"),
        (VortexError::NotUtf8 { row: 0 }, 13, "NotUtf8"),
        (VortexError::BadBuffer { row: 0 }, 14, "BadBuffer"),
        (VortexError::BadStart { row: 0 }, 15, "BadStart"),
        (VortexError::BadEnd { row: 0 }, 16, "BadEnd"),
        (VortexError::BadPrefix { row: 0 }, 17, "BadPrefix"),
        (VortexError::LimitTooLarge, 18, "LimitTooLarge"),
        (VortexError::ValueTooLong { row: 0 }, 19, "ValueTooLong"),
        (VortexError::LengthsNotExact, 20, "LengthsNotExact"),
        (VortexError::FallingOffsets { row: 0 }, 21, "FallingOffsets"),
        (
            VortexError::PatchOutOfRange { row: 0 },
            22,
            "PatchOutOfRange",
        ),
        (VortexError::DegenerateElements, 23, "DegenerateElements"),
    ] {
        assert!(rt;
            refusal.number() == number && refusal.name() == name,
            "at {number}"
        );
    }
}

#[test]
fn refusals_print(rt: HostRuntime) {
    let refusal = VortexError::LengthMismatch {
        expected: 3,
        found: 2,
    };
    assert_eq!(rt;
        format!(in rt.alloc(); "{refusal}")
            .expect(&rt, "made")
            .as_str(),
        "a length is 2, expected 3"
    );
}

#[test]
fn nullability_of_two(rt: HostRuntime) {
    let (plain, nullable) = (Nullability::NonNullable, Nullability::Nullable);
    assert!(rt; plain.union(plain) == plain && plain.union(nullable) == nullable);
    assert!(rt; nullable.union(plain) == nullable);
}

#[test]
fn kinds_of_data_types(rt: HostRuntime) {
    let plain = Nullability::NonNullable;
    assert!(rt; DType::Bool(plain).is_plain_bool() && !DType::Utf8(plain).is_plain_bool());
    assert!(rt; DType::Primitive(PType::I8, plain).is_int() && !DType::Bool(plain).is_int());
    assert!(rt; DType::Primitive(PType::U16, plain).as_ptype() == PType::U16);
}

#[test]
fn nullability_of_data_types(rt: HostRuntime) {
    let binary = DType::Binary(Nullability::NonNullable);
    assert!(rt; !binary.is_nullable() && binary.nullability() == Nullability::NonNullable);
    let nullable = binary.union_nullability(Nullability::Nullable);
    assert!(rt; nullable.is_nullable());
    assert!(rt;
        !nullable
            .with_nullability(Nullability::NonNullable)
            .is_nullable()
    );
}

#[test]
fn data_types_are_shared(rt: HostRuntime) {
    let dtype = DType::Primitive(PType::I64, Nullability::Nullable);
    let same = dtype.try_clone(rt.alloc()).expect(&rt, "made");
    assert!(rt; same.is_int() && same.is_nullable());
}

#[test]
fn equal_data_types(rt: HostRuntime) {
    let plain = Nullability::NonNullable;
    assert!(rt; DType::Primitive(PType::U8, plain) == DType::Primitive(PType::U8, plain));
    assert!(rt; DType::Primitive(PType::U8, plain) != DType::Primitive(PType::I8, plain));
    assert!(rt; DType::Utf8(plain) != DType::Utf8(Nullability::Nullable));
}

// The fields `a` of truths, `b` of texts and `a` of bytes.
fn three_fields(alloc: Global) -> Result<StructFields, VortexError>
    ensures names { IfOk result (λ f. length (field_names f) ≡ 3) }
    ensures kinds { IfOk result (λ f. kind_count (field_kinds f) ≡ 3) }
{
    let plain = Nullability::NonNullable;
    let names = FieldNames::try_new(alloc, &["a", "b", "a"])?;
    let dtypes = vec![in alloc;
        DType::Bool(plain),
        DType::Utf8(plain),
        DType::Binary(plain),
    ]?;
    Ok(StructFields::new(names, Rc::new(alloc, dtypes)?))
}

#[test]
fn fields_by_name(rt: HostRuntime) {
    let fields = three_fields(rt.alloc()).expect(&rt, "made");
    assert!(rt; fields.find("b") == Some(1) && fields.find("a") == Some(0));
    assert!(rt; fields.find("c").is_none() && fields.names().len() == 3);
}

#[test]
fn fields_without_the_first(rt: HostRuntime) {
    let rest = three_fields(rt.alloc())
        .expect(&rt, "made")
        .without_field(rt.alloc(), 0)
        .expect(&rt, "made");
    assert!(rt; rest.names().get(0).as_str() == "b" && rest.find("a") == Some(1));
    let dtypes = rest.fields();
    assert!(rt; dtypes.len() == 2);
    assert!(rt; dtypes[1] == DType::Binary(Nullability::NonNullable));
}

// ---- bytes and numbers

#[test]
fn empty_bytes(rt: HostRuntime) {
    let none = ByteBuffer::empty(rt.alloc()).expect(&rt, "made");
    assert!(rt; none.is_empty() && none.len() == 0);
}

#[test]
fn bytes_of_a_vec(rt: HostRuntime) {
    let bytes = ByteBuffer::from_vec(
        rt.alloc(),
        vec![in rt.alloc(); 7u8, 8].expect(&rt, "made"),
    ).expect(&rt, "made");
    assert!(rt; bytes.try_clone(rt.alloc()).expect(&rt, "made").as_slice() == [7, 8].as_slice());
}

#[test]
fn slice_of_bytes(rt: HostRuntime) {
    let bytes = ByteBuffer::copy_from(rt.alloc(), b"vortex").expect(&rt, "made");
    assert!(rt; bytes.slice(rt.alloc(), 1..4).expect(&rt, "made").as_slice() == b"ort".as_slice());
}

#[test]
fn slice_of_numbers(rt: HostRuntime) {
    let bytes = ByteBuffer::copy_from(rt.alloc(), &[1, 0, 2, 0, 3, 0]).expect(&rt, "made");
    assert_eq!(rt; number_count(bytes.as_slice(), PType::U16), 3);
    let part = slice_numbers(rt.alloc(), &bytes, PType::U16, 1..2).expect(&rt, "made");
    assert!(rt; part.as_slice() == [2, 0].as_slice());
}

#[test]
fn empty_buffer(rt: HostRuntime) {
    let none: Buffer<i32> = Buffer::empty(rt.alloc()).expect(&rt, "made");
    assert!(rt; none.is_empty() && none.len() == 0);
}

#[test]
fn buffer_of_a_vec(rt: HostRuntime) {
    let buffer = Buffer::from_vec(
        rt.alloc(),
        vec![in rt.alloc(); 7i64, -8].expect(&rt, "made"),
    )
    .expect(&rt, "made");
    assert!(rt; buffer.try_clone(rt.alloc()).expect(&rt, "made").as_slice() == [7, -8].as_slice());
}

#[test]
fn slice_of_a_buffer(rt: HostRuntime) {
    let buffer = Buffer::copy_from(rt.alloc(), &[5u16, 6, 7, 8]).expect(&rt, "made");
    let part = buffer.slice(rt.alloc(), 1..3).expect(&rt, "made");
    assert!(rt; part.len() == 2 && part.value(1) == 7);
}

#[test]
fn buffer_from_bytes(rt: HostRuntime) {
    let bytes = ByteBuffer::copy_from(rt.alloc(), &[0xfe, 0xff, 1, 0, 9]).expect(&rt, "made");
    let buffer: Buffer<i16> = Buffer::from_byte_buffer(rt.alloc(), &bytes).expect(&rt, "made");
    assert!(rt; buffer.as_slice() == [-2, 1].as_slice());
}

#[test]
fn bytes_from_a_buffer(rt: HostRuntime) {
    let buffer = Buffer::copy_from(rt.alloc(), &[-1i32, 258]).expect(&rt, "made");
    let bytes = buffer.into_byte_buffer(rt.alloc()).expect(&rt, "made");
    assert!(rt; bytes.as_slice() == [255, 255, 255, 255, 2, 1, 0, 0].as_slice());
}

#[test]
fn bytes_from_pushed_items(rt: HostRuntime) {
    let mut items = BufferMut::with_capacity(rt.alloc(), 1).expect(&rt, "made");
    items.push(-2i16).expect(&rt, "made");
    items.push(258).expect(&rt, "made");
    let bytes = items.into_byte_buffer(rt.alloc()).expect(&rt, "made");
    assert!(rt; bytes.as_slice() == [254, 255, 2, 1].as_slice());
}

#[test]
fn pushed_items(rt: HostRuntime) {
    let mut items = BufferMut::with_capacity(rt.alloc(), 1).expect(&rt, "made");
    items.push(4u8).expect(&rt, "made");
    items.push(5).expect(&rt, "made");
    assert!(rt; items.len() == 2 && items.as_slice() == [4, 5].as_slice());
}

#[test]
fn written_items(rt: HostRuntime) {
    let mut items = BufferMut::with_capacity(rt.alloc(), 1).expect(&rt, "made");
    items.push(4u8).expect(&rt, "made");
    items.as_mut_slice()[0] = 9;
    assert!(rt; items.freeze().expect(&rt, "made").as_slice() == [9].as_slice());
}

#[test]
fn positions_from_numbers(rt: HostRuntime) {
    let counts = read_counts(rt.alloc(), PType::U16, &[1, 0, 0, 2]).expect(&rt, "made");
    assert!(rt; counts.as_slice() == [1, 512].as_slice());
}

#[test]
fn numbers_from_positions(rt: HostRuntime) {
    let bytes = write_counts(rt.alloc(), PType::I16, &[1, 512]).expect(&rt, "made");
    assert!(rt; bytes.as_slice() == [1, 0, 0, 2].as_slice());
}

#[test]
fn picked_numbers(rt: HostRuntime) {
    let picked = gather_numbers(
        rt.alloc(),
        PType::U16,
        &[1, 0, 0, 2],
        &Selection::at_positions(&[1, 0]),
    )
    .expect(&rt, "made");
    assert!(rt; picked.as_slice() == [0, 2, 1, 0].as_slice());
}

#[test]
fn picked_items(rt: HostRuntime) {
    let items = [(1u8, true), (2, false), (3, true)];
    let picked = gather_items(rt.alloc(), &items, &Selection::at_positions(&[2, 0, 2])).expect(
        &rt, "made",
    );
    assert!(rt; picked.len() == 3 && picked.value(0).0 == 3 && picked.value(1).0 == 1);
    assert!(rt; picked.value(2).0 == 3 && picked.value(2).1);
}

#[test]
fn picked_runs_of_items(rt: HostRuntime) {
    let picked = gather_items(
        rt.alloc(),
        &[5u128, 6, 7],
        &Selection::of_runs(&[(1, 3), (2, 2), (0, 1)], 3),
    )
    .expect(&rt, "made");
    assert!(rt; picked.as_slice() == [6, 7, 5].as_slice());
}

#[test]
fn shared_buffers(rt: HostRuntime) {
    let buffers = [
        ByteBuffer::copy_from(rt.alloc(), b"ab").expect(&rt, "made"),
        ByteBuffer::empty(rt.alloc()).expect(&rt, "made"),
    ];
    let shared = share_buffers(rt.alloc(), &buffers).expect(&rt, "made");
    assert!(rt; shared.len() == 2 && shared[1].is_empty());
    assert!(rt; shared[0].as_slice() == [97, 98].as_slice());
}

// ---- bits and masks

// Whether the bits are these.
fn are_bits(alloc: Global, bits: &BitBuffer, want: &[bool]) -> Result<bool, VortexError> {
    Ok(*bits == BitBuffer::from_bools(alloc, want)?)
}

// The bits AC 69 00.
fn sixteen_bits(alloc: Global) -> Result<BitBuffer, VortexError> {
    let bytes = ByteBuffer::copy_from(alloc, &[0xac, 0x69, 0x00])?;
    BitBuffer::new_with_offset(alloc, bytes, 16, 0)
}

#[test]
fn slice_of_bits(rt: HostRuntime) {
    let bits = sixteen_bits(rt.alloc()).expect(&rt, "made");
    assert_eq!(rt; bits.len(), 16);
    let part = bits.slice(rt.alloc(), 9..15).expect(&rt, "made");
    assert!(rt; part.offset() == 1 && part.len() == 6 && part.true_count() == 3);
    assert!(rt;
        are_bits(rt.alloc(), &part, &[false, false, true, false, true, true]).expect(&rt, "made")
    );
}

#[test]
fn bits_at_an_offset(rt: HostRuntime) {
    let bytes = ByteBuffer::copy_from(rt.alloc(), &[0xac, 0x69, 0x00]).expect(&rt, "made");
    let bits = BitBuffer::new_with_offset(rt.alloc(), bytes, 3, 10).expect(&rt, "made");
    let (offset, len, bytes) = bits.into_inner();
    assert!(rt; offset == 2 && len == 3 && bytes.as_slice() == [0x69, 0x00].as_slice());
}

#[test]
fn bits_of_booleans(rt: HostRuntime) {
    let bits = BitBuffer::from_bools(rt.alloc(), &[false, true, true]).expect(&rt, "made");
    assert!(rt; !bits.is_empty());
    let (_, _, bytes) = bits.try_clone(rt.alloc()).expect(&rt, "made").into_inner();
    assert!(rt; bytes.as_slice() == [0x06].as_slice());
}

// The bits that are set in both.
fn both(alloc: Global, left: &[bool; 3], right: &[bool; 3]) -> Result<BitBuffer, VortexError> {
    let left = BitBuffer::from_bools(alloc, left)?;
    left.and(alloc, &BitBuffer::from_bools(alloc, right)?)
}

#[test]
fn bits_of_both(rt: HostRuntime) {
    let both = both(rt.alloc(), &[true, false, true], &[true, true, false]).expect(&rt, "made");
    assert!(rt; are_bits(rt.alloc(), &both, &[true, false, false]).expect(&rt, "made"));
}

#[test]
fn unequal_bits(rt: HostRuntime) {
    let left = BitBuffer::from_bools(rt.alloc(), &[true, false]).expect(&rt, "made");
    assert!(rt; !are_bits(rt.alloc(), &left, &[true, true]).expect(&rt, "made"));
}

#[test]
fn appended_bits(rt: HostRuntime) {
    let mut bits = BitBufferMut::with_capacity(rt.alloc(), 2).expect(&rt, "made");
    bits.append(false).expect(&rt, "made");
    bits.append(false).expect(&rt, "made");
    bits.set(1);
    assert_eq!(rt; bits.len(), 2);
    let bits = bits.freeze().expect(&rt, "made");
    assert!(rt; bits.true_count() == 1);
}

#[test]
fn filled_bits(rt: HostRuntime) {
    let mut bits = BitBufferMut::with_capacity(rt.alloc(), 9).expect(&rt, "made");
    for _ in 0..9 {
        bits.append(true).expect(&rt, "made");
    }
    assert_eq!(rt; bits.len(), 9);
    bits.fill_range(2, 9, false);
    assert_eq!(rt; bits.freeze().expect(&rt, "made").true_count(), 2);
}

#[test]
fn repeated_bits(rt: HostRuntime) {
    assert_eq!(rt;
        BitBuffer::full(rt.alloc(), true, 11)
            .expect(&rt, "made")
            .true_count(),
        11
    );
    let (_, _, bytes) = BitBuffer::new_set(rt.alloc(), 11)
        .expect(&rt, "made")
        .into_inner();
    assert!(rt; bytes.as_slice() == [0xff, 0x07].as_slice());
}

#[test]
fn unset_bits(rt: HostRuntime) {
    let unset = BitBuffer::new_unset(rt.alloc(), 9).expect(&rt, "made");
    assert!(rt; unset.len() == 9 && unset.true_count() == 0);
}

// Three bits that are not set, ten that are, and the middle three of five.
fn sixteen_by_runs(alloc: Global) -> Result<BitBuffer, VortexError> {
    let more = BitBuffer::from_bools(alloc, &[true, false, true, true, false])?;
    let mut bits = BitBufferMut::new_unset(alloc, 3)?;
    bits.append_n(true, 10)?;
    bits.append_slice(&more, 1, 4)?;
    bits.freeze()
}

#[test]
fn appended_runs_of_bits(rt: HostRuntime) {
    let (offset, len, bytes) = sixteen_by_runs(rt.alloc()).expect(&rt, "made").into_inner();
    assert!(rt; offset == 0 && len == 16 && bytes.as_slice() == [0xf8, 0xdf].as_slice());
}

// The bits AC 69 35 without the first two.
fn most_bits(alloc: Global) -> Result<BitBuffer, VortexError> {
    let bytes = ByteBuffer::copy_from(alloc, &[0xac, 0x69, 0x35])?;
    BitBuffer::new_with_offset(alloc, bytes, 22, 2)
}

// Twenty of these after five bits that are not set.
fn five_and_twenty(alloc: Global) -> Result<BitBuffer, VortexError> {
    let source = most_bits(alloc)?;
    if source.len() != 22 {
        return Err(VortexError::MismatchedTypes);
    }
    let mut bits = BitBufferMut::new_unset(alloc, 5)?;
    bits.append_slice(&source, 1, 21)?;
    bits.freeze()
}

#[test]
fn appended_bytes_of_bits(rt: HostRuntime) {
    let (_, len, bytes) = five_and_twenty(rt.alloc()).expect(&rt, "made").into_inner();
    assert!(rt; len == 25 && bytes.as_slice() == [0xa0, 0xa6, 0xd5, 0x00].as_slice());
}

// These bits at the places of some runs.
fn picked(alloc: Global) -> Result<BitBuffer, VortexError> {
    let bits = BitBuffer::from_bools(alloc, &[false, true])?;
    gather_bits(
        alloc,
        &bits,
        &Selection::of_runs(&[(1, 2), (7, 7), (0, 2)], 3),
    )
}

#[test]
fn picked_bits(rt: HostRuntime) {
    assert!(rt;
        are_bits(
            rt.alloc(),
            &picked(rt.alloc()).expect(&rt, "made"),
            &[true, false, true]
        )
        .expect(&rt, "made")
    );
}

#[test]
fn even_masks(rt: HostRuntime) {
    let (present, missing) = (Mask::new_true(3), Mask::new_false(2));
    assert!(rt; present.all_true() && !present.all_false() && present.true_count() == 3);
    assert!(rt; missing.all_false() && !missing.all_true() && missing.len() == 2);
    assert!(rt; Mask::new_true(0).all_false());
}

#[test]
fn mixed_mask(rt: HostRuntime) {
    let bits = BitBuffer::from_bools(rt.alloc(), &[false, true, true]).expect(&rt, "made");
    let mask = Mask::from_buffer(rt.alloc(), bits).expect(&rt, "made");
    assert_eq!(rt; mask.len(), 3);
    assert!(rt; !mask.value(0) && mask.value(1) && mask.true_count() == 2);
}
