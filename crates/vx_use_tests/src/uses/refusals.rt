// The text of each refusal, as a person reads it.

use vx_base::VortexError;

// Each refusal with its number, its name and its text.
fn all_refusals() -> [(VortexError, u8, &'static str, &'static str); 23] {
    [
        (VortexError::Memory, 1, "Memory", "memory was refused"),
        (
            VortexError::MismatchedTypes,
            2,
            "MismatchedTypes",
            "a data type or layout is not one that the call takes",
        ),
        (
            VortexError::LengthMismatch {
                expected: 2,
                found: 3,
            },
            3,
            "LengthMismatch",
            "a length is 3, expected 2",
        ),
        (
            VortexError::NullabilityMismatch,
            4,
            "NullabilityMismatch",
            "the nullability does not fit",
        ),
        (
            VortexError::OutOfBounds { index: 9, len: 4 },
            5,
            "OutOfBounds",
            "position 9 lies past the length 4",
        ),
        (
            VortexError::Negative { row: 7 },
            6,
            "Negative",
            "row 7 is negative",
        ),
        (
            VortexError::Overflow,
            7,
            "Overflow",
            "a number passes its integer type",
        ),
        (
            VortexError::NotImplemented,
            8,
            "NotImplemented",
            "this is not implemented",
        ),
        (
            VortexError::HasNulls,
            9,
            "HasNulls",
            "a null stands where none may be",
        ),
        (
            VortexError::UnknownField,
            10,
            "UnknownField",
            "no column has that name",
        ),
        (
            VortexError::EmptyInput,
            11,
            "EmptyInput",
            "nothing was given",
        ),
        (
            VortexError::DifferingDtypes,
            12,
            "DifferingDtypes",
            "the data types differ",
        ),
        (
            VortexError::NotUtf8 { row: 1 },
            13,
            "NotUtf8",
            "row 1 is not UTF-8",
        ),
        (
            VortexError::BadBuffer { row: 2 },
            14,
            "BadBuffer",
            "the view of row 2 names no buffer",
        ),
        (
            VortexError::BadStart { row: 3 },
            15,
            "BadStart",
            "the view of row 3 starts past its buffer",
        ),
        (
            VortexError::BadEnd { row: 4 },
            16,
            "BadEnd",
            "the view of row 4 ends past its buffer",
        ),
        (
            VortexError::BadPrefix { row: 5 },
            17,
            "BadPrefix",
            "the prefix in the view of row 5 is not that of its value",
        ),
        (
            VortexError::LimitTooLarge,
            18,
            "LimitTooLarge",
            "the limit passes the greatest length of a buffer",
        ),
        (
            VortexError::ValueTooLong { row: 6 },
            19,
            "ValueTooLong",
            "the value of row 6 is longer than the limit",
        ),
        (
            VortexError::LengthsNotExact,
            20,
            "LengthsNotExact",
            "the lengths do not sum to the length of the heap",
        ),
        (
            VortexError::FallingOffsets { row: 8 },
            21,
            "FallingOffsets",
            "offset 8 is less than the one before it",
        ),
        (
            VortexError::PatchOutOfRange { row: 0 },
            22,
            "PatchOutOfRange",
            "the position of patch 0 is out of range",
        ),
        (
            VortexError::DegenerateElements,
            23,
            "DegenerateElements",
            "lists of size 0 have elements",
        ),
    ]
}

#[test]
fn every_refusal_has_its_number_name_and_text(rt: HostRuntime) {
    for (refusal, number, name, text) in all_refusals() {
        assert_eq!(rt; refusal.number(), number, "{name}");
        assert_eq!(rt; refusal.name(), name);
        let shown = format!(in rt.alloc(); "{refusal}").expect(&rt, "made");
        assert_eq!(rt; shown.as_str(), text);
    }
}

#[test]
fn refusals_show_their_parts(rt: HostRuntime) {
    let refusal = VortexError::OutOfBounds { index: 9, len: 4 };
    let shown = format!(in rt.alloc(); "{refusal:?}").expect(&rt, "made");
    assert_eq!(rt; shown.as_str(), "OutOfBounds { index: 9, len: 4 }");
}
