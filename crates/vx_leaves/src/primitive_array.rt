// Arrays of whole numbers.

ghost use Rattle.std.specs.Prelude.{◌≡◌, ◌<◌, ◌*◌, ◌^◌, [], List, Option, true, false, length, map, IfOk, OnOk};
ghost use Rattle.std.specs.Option.{is_some};
ghost use Rattle.std.specs.Iterator.{IsFinite, Drains};
ghost use Rattle.vx_base.specs.Refusals.{Gives, Refuses, Tests, or_else};
ghost use Rattle.vx_base.specs.Integers.{byte_width, numbers};
ghost use Rattle.vx_tree.specs.Formed.{ValidFits, WellFormed};
ghost use Rattle.vx_tree.specs.Meaning.{valid_mask};
ghost use Rattle.vx_tree.specs.Tree.{primitive, non_nullable, all_valid};
ghost use Rattle.vx_tree.specs.Validities.{valid_from};
ghost use Rattle.vx_tree.specs.Parts.{valid_of};
ghost use Rattle.vx_leaves.specs.Leaves.{is_primitive, validity_fault, IsPrimitive, plain_state, number_or_zero};
ghost use Rattle.vx_leaves.specs.Spread.{spread, never_null, whole_fault, count_fault, values_fault};

use crate::number_bytes::{collect_numbers, collect_optional_numbers};
use crate::spread::spread_numbers;
use std::alloc::Global;
use std::marker::Model;
use vx_base::{
    BitBuffer, Buffer, ByteBuffer, NativePType, Nullability, PType, VortexError, number_count,
};
use vx_tree::{ArrayRef, Layout, TypedArray, Validity};

/// An array of whole numbers of one type, in their bytes.
#[derive(Drop)]
pub struct PrimitiveArray {
    array: ArrayRef,
}

impl Model for PrimitiveArray {
    ghost use Rattle.std.specs.Prelude.{◌≡◌, true};
    ghost use Rattle.vx_tree.specs.Tree.{Tree, tree_code};
    ghost use Rattle.vx_leaves.specs.Leaves.{is_primitive};

    ghost Value = { Tree };

    ghost coded = { tree_code };

    ghost view = { λ a. a.array };

    ghost invariant = { λ a. is_primitive a.array ≡ true };
}

// The parts of an array of numbers, lent.
#[derive(Drop)]
pub(crate) struct PrimitiveParts<'a> {
    pub ptype: PType,
    pub bytes: &'a ByteBuffer,
    pub validity: &'a Validity,
}

impl PrimitiveArray {
    /// The array of no numbers, of a nullable data type or not. Fails only for want of memory.
    pub fn empty<T: NativePType + Drop>(
        alloc: Global,
        nullability: Nullability,
    ) -> Result<PrimitiveArray, VortexError>
        ensures { Gives result (IsPrimitive T.PTYPE [] (plain_state nullability)) }
    {
        let none = ByteBuffer::empty(alloc)?;
        primitive_array(alloc, T::PTYPE, none, 0, plain_validity(nullability))
    }

    /// The array of these numbers, null where the validity is false. Asks that a validity array is
    /// one of plain booleans and has one row a number. Fails only for want of memory.
    pub fn new<T: NativePType + Drop>(
        alloc: Global,
        buffer: Buffer<T>,
        validity: Validity,
    ) -> Result<PrimitiveArray, VortexError>
        requires { ValidFits (valid_of validity) (length buffer) }
        ensures { Gives result (IsPrimitive T.PTYPE (map T.value buffer) (valid_of validity)) }
    {
        let bytes = buffer.into_byte_buffer(alloc)?;
        primitive_array(alloc, T::PTYPE, bytes, buffer.len(), validity)
    }

    /// The array of these numbers, null where the validity is false. Refuses `MismatchedTypes`
    /// where the validity has an array that is not one of plain booleans, then `LengthMismatch`
    /// where it has not one row a number.
    pub fn try_new<T: NativePType + Drop>(
        alloc: Global,
        buffer: Buffer<T>,
        validity: Validity,
    ) -> Result<PrimitiveArray, VortexError>
        ensures parts { IfOk result (IsPrimitive T.PTYPE (map T.value buffer) (valid_of validity)) }
        ensures refuses { Refuses result (validity_fault (valid_of validity) (length buffer)) }
    {
        PrimitiveArray::validate(&buffer, &validity)?;
        PrimitiveArray::new(alloc, buffer, validity)
    }

    /// Whether `try_new` takes these parts, and so `new`: it refuses as `try_new` does.
    pub fn validate<T: NativePType + Drop>(
        buffer: &Buffer<T>,
        validity: &Validity,
    ) -> Result<(), VortexError>
        ensures fits { OnOk result (ValidFits (valid_of validity.now) (length buffer.now)) }
        ensures tests { Tests result (validity_fault (valid_of validity.now) (length buffer.now)) }
    {
        validity.check(buffer.len())
    }

    /// The array of the numbers that these bytes hold, the lowest byte of each first, null where
    /// the validity is false. The bytes are shared. Refuses `LengthMismatch` where the bytes are
    /// not those of whole numbers, then `MismatchedTypes` where the validity has an array that is
    /// not one of plain booleans, then `LengthMismatch` where it has not one row a number.
    pub fn from_byte_buffer(
        alloc: Global,
        bytes: ByteBuffer,
        ptype: PType,
        validity: Validity,
    ) -> Result<PrimitiveArray, VortexError>
        ensures parts { IfOk result (λ a. a ≡ primitive ptype bytes (valid_of validity)) }
        ensures refuses { Refuses result (or_else (whole_fault ptype bytes)
            (validity_fault (valid_of validity) (length (numbers ptype bytes)))) }
    {
        let found = bytes.len();
        let rest = found % ptype.byte_width();
        if rest != 0 {
            return Err(VortexError::LengthMismatch {
                expected: found - rest,
                found,
            });
        }
        let len = number_count(bytes.as_slice(), ptype);
        validity.check(len)?;
        primitive_array(alloc, ptype, bytes, len, validity)
    }

    /// The array of `n_rows` rows whose values stand in these bytes, those of the valid rows alone:
    /// they are laid over the valid rows in order, and the others hold 0. Refuses `MismatchedTypes`
    /// where the validity has an array that is not one of plain booleans; `LengthMismatch` where it
    /// has not `n_rows` rows; `Overflow` where so many numbers need more bytes than can be counted;
    /// then `LengthMismatch` of the bytes: where no row is null by the state alone they are just
    /// those of `n_rows` numbers, under a validity array those of a value for each valid row at
    /// least, and where every row is null by the state alone they are not looked at.
    pub fn from_values_byte_buffer(
        alloc: Global,
        bytes: ByteBuffer,
        ptype: PType,
        validity: Validity,
        n_rows: usize,
    ) -> Result<PrimitiveArray, VortexError>
        ensures parts { IfOk result (IsPrimitive ptype
            (spread (valid_mask (valid_of validity) n_rows) (numbers ptype bytes))
            (valid_of validity)) }
        ensures refuses { Refuses result (values_fault ptype bytes (valid_of validity) n_rows) }
    {
        validity.check(n_rows)?;
        let Some(size) = n_rows.checked_mul(ptype.byte_width()) else {
            return Err(VortexError::Overflow);
        };
        if matches!(validity, Validity::NonNullable | Validity::AllValid) {
            whole_values(alloc, bytes, ptype, validity, n_rows, size)
        } else {
            spread_values(alloc, bytes, ptype, validity, n_rows)
        }
    }

    /// The array of the items, none of them null. The size hint is not looked at. Asks that the
    /// iterator ends. Fails only for want of memory.
    pub fn from_iter<T: NativePType + Drop, I: Iterator<Item = T> + Drop>(
        alloc: Global,
        items: I,
    ) -> Result<PrimitiveArray, VortexError>
        requires can { I.can_next items }
        requires ends { IsFinite (I.remaining items) }
        ensures { Gives result (λ a. (xs : List T) × Drains I.next_gives items xs
            × IsPrimitive T.PTYPE (map T.value xs) non_nullable a) }
    {
        let bytes = ByteBuffer::from_vec(alloc, collect_numbers(alloc, items)?)?;
        let len = number_count(bytes.as_slice(), T::PTYPE);
        primitive_array(alloc, T::PTYPE, bytes, len, Validity::NonNullable)
    }

    /// The array of the items, null and 0 where there is none. No row is null by the state alone
    /// where all are there, every row where none is, and else an array tells. The size hint is not
    /// looked at. Asks that the iterator ends. Fails only for want of memory.
    pub fn from_option_iter<T: NativePType + Drop, I: Iterator<Item = Option<T>> + Drop>(
        alloc: Global,
        items: I,
    ) -> Result<PrimitiveArray, VortexError>
        requires can { I.can_next items }
        requires ends { IsFinite (I.remaining items) }
        ensures { Gives result (λ a. (xs : List (Option T)) × Drains I.next_gives items xs
            × IsPrimitive T.PTYPE (map (number_or_zero T.value) xs) (valid_from 0 (map is_some xs) all_valid) a) }
    {
        let all = collect_optional_numbers(alloc, items)?;
        let len = all.present.len();
        let present = BitBuffer::from_bools(alloc, &all.present)?;
        let validity = Validity::from_buffer(alloc, present)?;
        let bytes = ByteBuffer::from_vec(alloc, all.bytes)?;
        primitive_array(alloc, T::PTYPE, bytes, len, validity)
    }

    // The parts, which are well formed.
    pub(crate) fn parts(&self) -> PrimitiveParts<'_>
        ensures same { self.now
            ≡ primitive result.ptype result.bytes.now (valid_of result.validity.now) }
        ensures formed { WellFormed
            (primitive result.ptype result.bytes.now (valid_of result.validity.now)) }
    {
        match self.array.layout() {
            Layout::Primitive {
                ptype,
                bytes,
                validity,
            } => PrimitiveParts {
                ptype: *ptype,
                bytes,
                validity,
            },
            _ => unreachable!(),
        }
    }
}

impl TypedArray for PrimitiveArray {
    ghost as_tree = { λ a. a };

    ghost has_layout = { is_primitive };

    fn is_layout(layout: &Layout) -> bool {
        matches!(layout, Layout::Primitive { .. })
    }

    fn from_array(array: ArrayRef) -> Self {
        PrimitiveArray { array }
    }

    fn as_array(&self) -> &ArrayRef {
        &self.array
    }

    fn into_array(self) -> ArrayRef {
        let PrimitiveArray { array } = self;
        array
    }
}

// The validity of rows of which none is null.
fn plain_validity(nullability: Nullability) -> Validity
    ensures { valid_of result ≡ plain_state nullability }
{
    match nullability {
        Nullability::NonNullable => Validity::NonNullable,
        Nullability::Nullable => Validity::AllValid,
    }
}

// The array of the numbers that these bytes hold.
pub(crate) fn primitive_array(
    alloc: Global,
    ptype: PType,
    bytes: ByteBuffer,
    len: usize,
    validity: Validity,
) -> Result<PrimitiveArray, VortexError>
    requires whole { length bytes ≡ len * byte_width ptype }
    requires count { length (numbers ptype bytes) ≡ len }
    requires fits { ValidFits (valid_of validity) len }
    ensures { Gives result (λ a. a ≡ primitive ptype bytes (valid_of validity)) }
{
    let array = ArrayRef::primitive(alloc, ptype, bytes, validity)?;
    Ok(PrimitiveArray { array })
}

// The array of a value for each row, where no row is null.
fn whole_values(
    alloc: Global,
    bytes: ByteBuffer,
    ptype: PType,
    validity: Validity,
    n_rows: usize,
    size: usize,
) -> Result<PrimitiveArray, VortexError>
    requires size { size ≡ n_rows * byte_width ptype }
    requires state { never_null (valid_of validity) ≡ true }
    ensures parts { IfOk result (IsPrimitive ptype
        (spread (valid_mask (valid_of validity) n_rows) (numbers ptype bytes))
        (valid_of validity)) }
    ensures refuses { Refuses result (count_fault ptype bytes (valid_of validity) n_rows) }
{
    let found = bytes.len();
    if found != size {
        return Err(VortexError::LengthMismatch {
            expected: size,
            found,
        });
    }
    primitive_array(alloc, ptype, bytes, n_rows, validity)
}

// The array of a value for each valid row, where some may be null.
fn spread_values(
    alloc: Global,
    bytes: ByteBuffer,
    ptype: PType,
    validity: Validity,
    n_rows: usize,
) -> Result<PrimitiveArray, VortexError>
    requires fits { ValidFits (valid_of validity) n_rows }
    requires counted { n_rows * byte_width ptype < 2 ^ 64 }
    requires state { never_null (valid_of validity) ≡ false }
    ensures parts { IfOk result (IsPrimitive ptype
        (spread (valid_mask (valid_of validity) n_rows) (numbers ptype bytes))
        (valid_of validity)) }
    ensures refuses { Refuses result (count_fault ptype bytes (valid_of validity) n_rows) }
{
    let spread = spread_bytes(alloc, &bytes, ptype, &validity, n_rows)?;
    primitive_array(alloc, ptype, spread, n_rows, validity)
}

// The bytes of a number a row: the values laid over the valid rows in order.
fn spread_bytes(
    alloc: Global,
    bytes: &ByteBuffer,
    ptype: PType,
    validity: &Validity,
    n_rows: usize,
) -> Result<ByteBuffer, VortexError>
    requires fits { ValidFits (valid_of validity.now) n_rows }
    requires counted { n_rows * byte_width ptype < 2 ^ 64 }
    requires state { never_null (valid_of validity.now) ≡ false }
    ensures numbers { IfOk result (λ b. numbers ptype b
        ≡ spread (valid_mask (valid_of validity.now) n_rows) (numbers ptype bytes.now)) }
    ensures len { IfOk result (λ b. length b ≡ n_rows * byte_width ptype) }
    ensures refuses { Refuses result (count_fault ptype bytes.now (valid_of validity.now) n_rows) }
{
    let mask = validity.execute_mask(alloc, n_rows)?;
    let needed = mask.true_count() * ptype.byte_width();
    let found = bytes.len();
    if found < needed {
        return Err(VortexError::LengthMismatch {
            expected: needed,
            found,
        });
    }
    spread_numbers(alloc, ptype, bytes.as_slice(), &mask)
}
