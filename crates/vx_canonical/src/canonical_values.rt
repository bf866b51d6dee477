// Values, one a row, in plain layout.

ghost use Rattle.std.specs.Prelude.{◌≡◌, ◌<◌, ◌≤◌, ◌+◌, ◌*◌, ◌^◌, ◌++◌, [], ◌∷◌, true, length, map, is_some, IfOk, if◌then◌else◌};
ghost use Rattle.std.specs.List.{All};
ghost use Rattle.vx_base.specs.DTypes.{dtype_meaning, is_nullable};
ghost use Rattle.vx_base.specs.Integers.{Holds, byte_width, bytes_of, numbers};
ghost use Rattle.vx_base.specs.Kinds.{booleans, is_integers, is_nullable_kind};
ghost use Rattle.vx_base.specs.Refusals.{Gives, Refuses};
ghost use Rattle.vx_views.specs.Views.{view_of};
ghost use Rattle.vx_tree.specs.Meaning.{is_texts};
ghost use Rattle.vx_tree.specs.Formed.{value_kind};
ghost use Rattle.vx_tree.specs.Parts.{valid_of};
ghost use Rattle.vx_tree.specs.RowParts.{is_long};
ghost use Rattle.vx_canonical.specs.PlainValues.{AreTexts, ArePlainValues, FitsIfThere, long_values};
ghost use Rattle.vx_tree.specs.CanonicalFaults.{buffers_overflow};
ghost use Rattle.vx_canonical.specs.PlainValues.{number_or_zero, truth_in, value_bytes, values_valid};

use std::alloc::Global;
use vx_base::{
    BitBuffer, Buffer, ByteBuffer, DType, Nullability, PType, ScalarValue, VortexError, put_int,
};
use vx_tree::{ArrayRef, Validity};
use vx_views::BinaryView;

// Truth values of this validity.
#[tactic(auto, using(crate::proofs::PlainValues::valid_values, crate::proofs::PlainValues::truths_made))]
pub(crate) fn plain_truths(
    alloc: Global,
    dtype: &DType,
    values: &[Option<ScalarValue>],
) -> Result<ArrayRef, VortexError>
    requires kind { dtype_meaning dtype.now ≡ booleans (is_nullable_kind (dtype_meaning dtype.now)) }
    requires fit { All (FitsIfThere (dtype_meaning dtype.now)) values.now }
    ensures { Gives result (ArePlainValues (dtype_meaning dtype.now) values.now) }
{
    let validity = validity_of_values(alloc, dtype.nullability(), values)?;
    let bits = BitBuffer::from_bools(alloc, &truths(alloc, values)?)?;
    ArrayRef::bools(alloc, bits, validity)
}

// Whole numbers of this validity.
#[tactic(auto, using(crate::proofs::PlainValues::valid_values, crate::proofs::PlainValues::numbers_made))]
pub(crate) fn plain_numbers(
    alloc: Global,
    dtype: &DType,
    values: &[Option<ScalarValue>],
) -> Result<ArrayRef, VortexError>
    requires kind { is_integers (dtype_meaning dtype.now) ≡ true }
    requires fit { All (FitsIfThere (dtype_meaning dtype.now)) values.now }
    ensures { Gives result (ArePlainValues (dtype_meaning dtype.now) values.now) }
{
    let validity = validity_of_values(alloc, dtype.nullability(), values)?;
    let ptype = dtype.as_ptype();
    ArrayRef::primitive(alloc, ptype, number_bytes(alloc, ptype, values)?, validity)
}

// Texts or byte lists: one that does not fit into its view stands in a buffer of its own.
#[tactic(auto, using(crate::proofs::PlainValues::valid_values, crate::proofs::PlainTexts::value_texts))]
pub(crate) fn plain_texts(
    alloc: Global,
    dtype: &DType,
    values: &[Option<ScalarValue>],
) -> Result<ArrayRef, VortexError>
    requires kind { dtype_meaning dtype.now
        ≡ value_kind (is_texts (dtype_meaning dtype.now)) (is_nullable_kind (dtype_meaning dtype.now)) }
    requires fit { All (FitsIfThere (dtype_meaning dtype.now)) values.now }
    ensures made { IfOk result (ArePlainValues (dtype_meaning dtype.now) values.now) }
    ensures refuses { Refuses result (buffers_overflow (length (long_values values.now))) }
{
    let validity = validity_of_values(alloc, dtype.nullability(), values)?;
    let mut buffers = Vec::new(alloc);
    let views = plain_views(alloc, values, &mut buffers)?;
    let views = Buffer::from_vec(alloc, views)?;
    let dtype = dtype.try_clone(alloc)?;
    Ok(ArrayRef::var_bin_view(alloc, views, buffers, dtype, validity)?)
}

// Their views; the values that do not fit are added to the buffers.
#[tactic(auto, using(crate::proofs::PlainTexts::next))]
fn plain_views(
    alloc: Global,
    values: &[Option<ScalarValue>],
    buffers: &mut Vec<ByteBuffer>,
) -> Result<Vec<BinaryView>, VortexError>
    requires short { All (λ v. length (value_bytes v) < 2 ^ 32) values.now }
    requires none { buffers.old.items ≡ [] }
    ensures made { IfOk result (λ views. AreTexts values.now views.items buffers.new.items) }
    ensures refuses { Refuses result (buffers_overflow (length (long_values values.now))) }
{
    let mut views = Vec::with_capacity(alloc, values.len())?;
    for value in values {
        views.push(plain_view(alloc, value, buffers)?)?;
    }
    Ok(views)
}

// The view of a value, which is added to the buffers where it does not fit.
fn plain_view(
    alloc: Global,
    value: &Option<ScalarValue>,
    buffers: &mut Vec<ByteBuffer>,
) -> Result<BinaryView, VortexError>
    requires short { length (value_bytes value.now) < 2 ^ 32 }
    requires few { length buffers.old.items ≤ 2 ^ 32 }
    ensures view { IfOk result (λ v. v ≡ view_of (value_bytes value.now) (length buffers.old.items) 0) }
    ensures buffers { IfOk result (λ _. buffers.new.items ≡ buffers.old.items ++ long_values (value.now ∷ [])) }
    ensures few { IfOk result (λ _. length buffers.new.items ≤ 2 ^ 32) }
    ensures refuses { Refuses result (buffers_overflow (length buffers.old.items + length (long_values (value.now ∷ [])))) }
{
    match value {
        Some(ScalarValue::Text(bytes)) => view_of_bytes(alloc, bytes, buffers),
        Some(ScalarValue::Bytes(bytes)) => view_of_bytes(alloc, bytes, buffers),
        _ => Ok(BinaryView::empty_view()),
    }
}

// The view of these bytes, which are added to the buffers where they do not fit.
fn view_of_bytes(
    alloc: Global,
    bytes: &ByteBuffer,
    buffers: &mut Vec<ByteBuffer>,
) -> Result<BinaryView, VortexError>
    requires short { length bytes.now < 2 ^ 32 }
    requires few { length buffers.old.items ≤ 2 ^ 32 }
    ensures view { IfOk result (λ v. v ≡ view_of bytes.now (length buffers.old.items) 0) }
    ensures buffers { IfOk result (λ _. buffers.new.items ≡ buffers.old.items ++ (if is_long bytes.now then bytes.now ∷ [] else [])) }
    ensures few { IfOk result (λ _. length buffers.new.items ≤ 2 ^ 32) }
    ensures refuses { Refuses result (buffers_overflow (length buffers.old.items + (if is_long bytes.now then 1 else 0))) }
{
    if bytes.len() <= BinaryView::MAX_INLINED_SIZE {
        return Ok(BinaryView::make_view(bytes.as_slice(), 0, 0));
    }
    let block = buffers.len();
    if block > u32::MAX as usize {
        return Err(VortexError::Overflow);
    }
    buffers.push(bytes.try_clone(alloc)?)?;
    Ok(BinaryView::make_view(bytes.as_slice(), block as u32, 0))
}

// The validity of values, where null may stand as this says.
pub(crate) fn validity_of_values(
    alloc: Global,
    nullability: Nullability,
    values: &[Option<ScalarValue>],
) -> Result<Validity, VortexError>
    ensures { Gives result (λ v. valid_of v ≡ values_valid (is_nullable nullability) values.now) }
{
    match nullability {
        Nullability::NonNullable => Ok(Validity::NonNullable),
        Nullability::Nullable => {
            Validity::from_buffer(
                alloc,
                BitBuffer::from_bools(alloc, &presence(alloc, values)?)?,
            )
        }
    }
}

// Which values are there.
fn presence(alloc: Global, values: &[Option<ScalarValue>]) -> Result<Vec<bool>, VortexError>
    ensures { Gives result (λ b. b.items ≡ map is_some values.now) }
{
    let mut presence = Vec::with_capacity(alloc, values.len())?;
    for value in values {
        presence.push(value.is_some())?;
    }
    Ok(presence)
}

// The truth values, false where there is none.
fn truths(alloc: Global, values: &[Option<ScalarValue>]) -> Result<Vec<bool>, VortexError>
    ensures { Gives result (λ b. b.items ≡ map truth_in values.now) }
{
    let mut truths = Vec::with_capacity(alloc, values.len())?;
    for value in values {
        truths.push(truth_of(value))?;
    }
    Ok(truths)
}

// The truth value, false where there is none.
fn truth_of(value: &Option<ScalarValue>) -> bool
    ensures { result ≡ truth_in value.now }
{
    match value {
        Some(ScalarValue::Bool(truth)) => *truth,
        _ => false,
    }
}

// The bytes of the numbers, 0 where there is none.
fn number_bytes(
    alloc: Global,
    ptype: PType,
    values: &[Option<ScalarValue>],
) -> Result<ByteBuffer, VortexError>
    requires { All (λ v. Holds ptype (number_or_zero v)) values.now }
    ensures numbers { Gives result (λ b. numbers ptype b ≡ map number_or_zero values.now) }
    ensures len { IfOk result (λ b. length b ≡ length values.now * byte_width ptype) }
{
    let mut bytes = vec![in alloc; 0u8; values.len() * ptype.byte_width()]?;
    put_numbers(ptype, values, &mut bytes);
    ByteBuffer::from_vec(alloc, bytes)
}

// Writes them, one after another.
fn put_numbers(ptype: PType, values: &[Option<ScalarValue>], out: &mut [u8])
    requires holds { All (λ v. Holds ptype (number_or_zero v)) values.now }
    requires room { length out.old ≡ length values.now * byte_width ptype }
    ensures len { length out.new ≡ length out.old }
    ensures numbers { numbers ptype out.new ≡ map number_or_zero values.now }
{
    let width = ptype.byte_width();
    for (i, value) in values.iter().enumerate() {
        put_value(value, ptype, &mut out[i * width..i * width + width]);
    }
}

// Writes the number, 0 where there is none.
fn put_value(value: &Option<ScalarValue>, ptype: PType, out: &mut [u8])
    requires room { length out.old ≡ byte_width ptype }
    requires holds { Holds ptype (number_or_zero value.now) }
    ensures { out.new ≡ bytes_of ptype (number_or_zero value.now) }
{
    put_int(number_of(value), ptype, out);
}

// The number, 0 where there is none.
fn number_of(value: &Option<ScalarValue>) -> i128
    ensures { result ≡ number_or_zero value.now }
{
    match value {
        Some(ScalarValue::Int(number)) => *number,
        _ => 0,
    }
}
