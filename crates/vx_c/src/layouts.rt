// The array of a node, by its kind.

ghost use Rattle.std.specs.Prelude.{◌≡◌, ◌≤◌, ◌<◌, ◌%◌, ◌⊎◌, ◌++◌, Ok, IfOk, IfErr, length, map, take, drop};
ghost use Rattle.vx_base.specs.declared.dtypes.DType.TheVariants as DType;
ghost use Rattle.vx_base.specs.declared.errors.VortexError.TheVariants.{Memory};
ghost use Rattle.vx_c.specs.declared.faults.NodeError.TheVariants.{Refused, MissingNodes};
ghost use Rattle.vx_c.specs.declared.table.NodeKind.TheVariants.{Dictionary, FixedSizeList, ListView};
ghost use Rattle.vx_base.specs.Bits.{unpacked};
ghost use Rattle.vx_base.specs.DTypes.{dtype_meaning};
ghost use Rattle.vx_base.specs.Integers.{numbers};
ghost use Rattle.vx_base.specs.Kinds.{texts, binaries};
ghost use Rattle.vx_base.specs.Refusals.{Gives, Refuses, Tests, or_else};
ghost use Rattle.vx_leaves.specs.Spread.{whole_fault};
ghost use Rattle.vx_structs.specs.Structs.Faults.{struct_fault};
ghost use Rattle.vx_structs.specs.Structs.{records_by};
ghost use Rattle.vx_text.specs.TextFaults.{view_array_fault};
ghost use Rattle.vx_text.specs.Texts.{array_of_views};
ghost use Rattle.vx_tree.specs.Faults.{validity_fault};
ghost use Rattle.vx_tree.specs.Meaning.{nullable};
ghost use Rattle.vx_tree.specs.Parts.{valid_of};
ghost use Rattle.vx_tree.specs.Tree.{bools, primitive, non_nullable};
ghost use Rattle.vx_c.specs.Answers.{IsFaultOf};
ghost use Rattle.vx_c.specs.Tables.{layout_made, views_made, records_made, bits_fault, utf8_fault, names_fault, view_bytes, buffers_in, views_in};

use crate::faults::NodeError;
use crate::stack::Stack;
use crate::table::{CodraskBytes, CodraskNode, CodraskView, NodeKind};
use std::alloc::Global;
use vx_base::{BitBuffer, Buffer, ByteBuffer, DType, FieldNames, Nullability, PType, VortexError};
use vx_leaves::{BoolArray, DictArray, PrimitiveArray};
use vx_lists::{FixedSizeListArray, ListViewArray};
use vx_structs::StructArray;
use vx_text::VarBinViewArray;
use vx_tree::{ArrayRef, TypedArray, Validity};
use vx_views::BinaryView;

// The array of a node of a kind, under a validity, of the arrays on top.
pub(crate) fn array_of(
    alloc: Global,
    kind: NodeKind,
    node: &CodraskNode<'_>,
    validity: Validity,
    stack: &mut Stack,
) -> Result<ArrayRef, NodeError>
    ensures ok { IfOk result (λ array. layout_made kind node.now (valid_of validity) stack.old ≡ Ok (array, stack.new)) }
    ensures err { IfErr result (λ e. IsFaultOf e (layout_made kind node.now (valid_of validity) stack.old)) }
{
    match kind {
        NodeKind::Bool => Ok(truth_values(alloc, node, validity)?),
        NodeKind::Number(ptype) => Ok(numbers(alloc, node, ptype, validity)?),
        NodeKind::Utf8 => {
            let dtype = DType::Utf8(nullability_of(&validity));
            Ok(values(alloc, node, dtype, validity)?)
        }
        NodeKind::Binary => {
            let dtype = DType::Binary(nullability_of(&validity));
            Ok(values(alloc, node, dtype, validity)?)
        }
        NodeKind::Dictionary => dictionary(alloc, node, validity, stack),
        NodeKind::FixedSizeList => fixed_size_lists(alloc, node, validity, stack),
        NodeKind::ListView => list_views(alloc, node, validity, stack),
        NodeKind::Struct => records(alloc, node, validity, stack),
    }
}

// The truth values of a node.
fn truth_values(
    alloc: Global,
    node: &CodraskNode<'_>,
    validity: Validity,
) -> Result<ArrayRef, VortexError>
    ensures ok { IfOk result (λ array. array
        ≡ bools (node.now.offset % 8) (unpacked node.now.bytes.now node.now.offset node.now.length) (valid_of validity)) }
    ensures refuses { Refuses result (or_else (bits_fault node.now.bytes.now node.now.offset node.now.length)
        (validity_fault (valid_of validity) node.now.length)) }
{
    let bits = bits_of(alloc, node)?;
    Ok(BoolArray::try_new(alloc, bits, validity)?.into_array())
}

// A copy of the bits of a node. Refuses `Overflow` where they end at a place that no `usize`
// counts, then `LengthMismatch` where they end past the bytes.
#[tactic(auto, using(vx_base::proofs::PackedBits::length_unpacked))]
fn bits_of(alloc: Global, node: &CodraskNode<'_>) -> Result<BitBuffer, VortexError>
    ensures ok { IfOk result (λ b. b.bits ≡ unpacked node.now.bytes.now node.now.offset node.now.length) }
    ensures offset { IfOk result (λ b. b.offset ≡ node.now.offset % 8) }
    ensures len { IfOk result (λ b. length b.bits ≡ node.now.length) }
    ensures refuses { Refuses result (bits_fault node.now.bytes.now node.now.offset node.now.length) }
{
    let end = node
        .offset
        .checked_add(node.length)
        .ok_or(VortexError::Overflow)?;
    if 8 * (node.bytes.len() as u128) < end as u128 {
        return Err(VortexError::LengthMismatch {
            expected: end.div_ceil(8),
            found: node.bytes.len(),
        });
    }
    let bytes = ByteBuffer::copy_from(alloc, node.bytes)?;
    let bits = BitBuffer::new_with_offset(alloc, bytes, node.length, node.offset)?;
    Ok(bits)
}

// The numbers of a node.
fn numbers(
    alloc: Global,
    node: &CodraskNode<'_>,
    ptype: PType,
    validity: Validity,
) -> Result<ArrayRef, VortexError>
    ensures ok { IfOk result (λ array. array ≡ primitive ptype node.now.bytes.now (valid_of validity)) }
    ensures refuses { Refuses result (or_else (whole_fault ptype node.now.bytes.now)
        (validity_fault (valid_of validity) (length (numbers ptype node.now.bytes.now)))) }
{
    let bytes = ByteBuffer::copy_from(alloc, node.bytes)?;
    Ok(PrimitiveArray::from_byte_buffer(alloc, bytes, ptype, validity)?.into_array())
}

// The texts or byte lists of a node.
fn values(
    alloc: Global,
    node: &CodraskNode<'_>,
    dtype: DType,
    validity: Validity,
) -> Result<ArrayRef, VortexError>
    ensures ok { IfOk result (λ array. array
        ≡ array_of_views (views_in node.now) (buffers_in node.now) (dtype_meaning dtype) (valid_of validity)) }
    ensures refuses { Refuses result
        (view_array_fault (views_in node.now) (buffers_in node.now) (dtype_meaning dtype) (valid_of validity)) }
{
    let views = views_of(alloc, node.views)?;
    let buffers = buffers_of(alloc, node.buffers)?;
    Ok(VarBinViewArray::try_new(alloc, views, buffers, dtype, validity)?.into_array())
}

// A buffer of copies of views.
fn views_of(alloc: Global, views: &[CodraskView]) -> Result<Buffer<BinaryView>, VortexError>
    ensures { Gives result (λ copies. copies ≡ map view_bytes views.now) }
{
    let views = view_list(alloc, views)?;
    Buffer::from_vec(alloc, views)
}

// Copies of views.
fn view_list(alloc: Global, views: &[CodraskView]) -> Result<Vec<BinaryView>, VortexError>
    ensures { Gives result (λ copies. copies.items ≡ map view_bytes views.now) }
{
    Ok(views.iter().map(|view| view_of(view)).collect(alloc)?)
}

// A copy of a view.
fn view_of(view: &CodraskView) -> BinaryView
    ensures { result ≡ view_bytes view.now }
{
    BinaryView::from(u128::from_le_bytes(view.bytes))
}

// Copies of buffers.
fn buffers_of(alloc: Global, buffers: &[CodraskBytes<'_>]) -> Result<Vec<ByteBuffer>, VortexError>
    ensures { Gives result (λ copies. copies.items ≡ map (λ b. b.bytes.now) buffers.now) }
{
    let mut copies = Vec::with_capacity(alloc, buffers.len())?;
    for buffer in buffers {
        copies.push(ByteBuffer::copy_from(alloc, buffer.bytes)?)?;
    }
    Ok(copies)
}

// Null may stand just where it may under the validity.
fn nullability_of(validity: &Validity) -> Nullability
    ensures texts { dtype_meaning (DType.Utf8 result) ≡ texts (nullable (valid_of validity.now)) }
    ensures binaries { dtype_meaning (DType.Binary result) ≡ binaries (nullable (valid_of validity.now)) }
{
    match validity {
        Validity::NonNullable => Nullability::NonNullable,
        _ => Nullability::Nullable,
    }
}

// The values on top that the codes above them name.
fn dictionary(
    alloc: Global,
    node: &CodraskNode<'_>,
    validity: Validity,
    stack: &mut Stack,
) -> Result<ArrayRef, NodeError>
    ensures ok { IfOk result (λ array. layout_made Dictionary node.now (valid_of validity) stack.old ≡ Ok (array, stack.new)) }
    ensures err { IfErr result (λ e. IsFaultOf e (layout_made Dictionary node.now (valid_of validity) stack.old)) }
{
    match validity {
        Validity::NonNullable => named_values(alloc, node, stack),
        Validity::AllValid | Validity::AllInvalid | Validity::Array(_) => {
            Err(NodeError::BadValidity)
        }
    }
}

// The values on top that the codes above them name, where the node has no validity of its own.
fn named_values(
    alloc: Global,
    _node: &CodraskNode<'_>,
    stack: &mut Stack,
) -> Result<ArrayRef, NodeError>
    ensures ok { IfOk result (λ array. layout_made Dictionary _node.now non_nullable stack.old ≡ Ok (array, stack.new)) }
    ensures err { IfErr result (λ e. IsFaultOf e (layout_made Dictionary _node.now non_nullable stack.old)) }
{
    let codes = stack.pop()?;
    let values = stack.pop()?;
    Ok(DictArray::try_new(alloc, codes, values)?.into_array())
}

// Lists of one size over the elements on top.
fn fixed_size_lists(
    alloc: Global,
    node: &CodraskNode<'_>,
    validity: Validity,
    stack: &mut Stack,
) -> Result<ArrayRef, NodeError>
    ensures ok { IfOk result (λ array. layout_made FixedSizeList node.now (valid_of validity) stack.old ≡ Ok (array, stack.new)) }
    ensures err { IfErr result (λ e. IsFaultOf e (layout_made FixedSizeList node.now (valid_of validity) stack.old)) }
{
    let elements = stack.pop()?;
    let lists = FixedSizeListArray::try_new(alloc, elements, node.size, validity, node.length)?;
    Ok(lists.into_array())
}

// Lists over the elements, offsets and sizes on top.
fn list_views(
    alloc: Global,
    node: &CodraskNode<'_>,
    validity: Validity,
    stack: &mut Stack,
) -> Result<ArrayRef, NodeError>
    ensures ok { IfOk result (λ array. layout_made ListView node.now (valid_of validity) stack.old ≡ Ok (array, stack.new)) }
    ensures err { IfErr result (λ e. IsFaultOf e (layout_made ListView node.now (valid_of validity) stack.old)) }
{
    let elements = stack.pop()?;
    let offsets = stack.pop()?;
    let sizes = stack.pop()?;
    Ok(ListViewArray::try_new(alloc, elements, offsets, sizes, validity)?.into_array())
}

// Records of the columns on top, under the names of the node.
fn records(
    alloc: Global,
    node: &CodraskNode<'_>,
    validity: Validity,
    stack: &mut Stack,
) -> Result<ArrayRef, NodeError>
    ensures ok { IfOk result (λ array. records_made node.now (valid_of validity) stack.old ≡ Ok (array, stack.new)) }
    ensures err { IfErr result (λ e. IsFaultOf e (records_made node.now (valid_of validity) stack.old)) }
{
    let columns = columns_of(alloc, node.buffers.len(), stack)?;
    Ok(named_columns(alloc, node, columns, validity)?)
}

// Records of columns, under the names of the node. Refuses `NotUtf8` at the first name that is no
// text, then as `StructArray::try_new` does.
fn named_columns(
    alloc: Global,
    node: &CodraskNode<'_>,
    columns: Vec<ArrayRef>,
    validity: Validity,
) -> Result<ArrayRef, VortexError>
    ensures ok { IfOk result (λ array. array ≡ records_by (buffers_in node.now) columns.items (valid_of validity) node.now.length) }
    ensures refuses { Refuses result (or_else (names_fault (buffers_in node.now))
        (struct_fault (buffers_in node.now) columns.items (valid_of validity) node.now.length)) }
{
    let names = names_of(alloc, node.buffers)?;
    records_of(alloc, names, columns, node.length, validity)
}

// Records of columns under these names.
fn records_of(
    alloc: Global,
    names: FieldNames,
    columns: Vec<ArrayRef>,
    len: usize,
    validity: Validity,
) -> Result<ArrayRef, VortexError>
    ensures ok { IfOk result (λ array. array ≡ records_by names columns.items (valid_of validity) len) }
    ensures refuses { Refuses result (struct_fault names columns.items (valid_of validity) len) }
{
    let records = StructArray::try_new(alloc, names, columns.into_iter(), len, validity)?;
    Ok(records.into_array())
}

// So many arrays on top, the topmost first. Refuses `MissingNodes` where they are fewer.
#[tactic(auto, using(std::proofs::lemmas::Grind::common_steps, crate::proofs::Names::columns_taken))]
fn columns_of(alloc: Global, count: usize, stack: &mut Stack) -> Result<Vec<ArrayRef>, NodeError>
    ensures ok { IfOk result (λ columns. (take count stack.old ≡ columns.items) × (drop count stack.old ≡ stack.new)) }
    ensures enough { IfOk result (λ _. count ≤ length stack.old) }
    ensures err { IfErr result (λ e. (e ≡ Refused Memory) ⊎ ((e ≡ MissingNodes) × (length stack.old < count))) }
{
    if stack.len() < count {
        return Err(NodeError::MissingNodes);
    }
    let mut columns = Vec::with_capacity(alloc, count)?;
    for place in 0..count {
        columns.push(stack.pop()?)?;
    }
    Ok(columns)
}

// The names that buffers hold. Refuses `NotUtf8` at the first that is not.
fn names_of(alloc: Global, buffers: &[CodraskBytes<'_>]) -> Result<FieldNames, VortexError>
    ensures ok { IfOk result (λ names. names ≡ map (λ b. b.bytes.now) buffers.now) }
    ensures refuses { Refuses result (names_fault (map (λ b. b.bytes.now) buffers.now)) }
{
    let mut texts = Vec::with_capacity(alloc, buffers.len())?;
    for i in 0..buffers.len() {
        texts.push(name_of(buffers[i].bytes, i)?)?;
    }
    FieldNames::try_new(alloc, &texts)
}

// The name that bytes hold. Refuses `NotUtf8` with its place.
#[tactic(auto, using(crate::proofs::Names::utf8_good, crate::proofs::Names::utf8_bad))]
pub(crate) fn name_of(bytes: &[u8], place: usize) -> Result<&str, VortexError>
    ensures ok { IfOk result (λ text. text.now ≡ bytes.now) }
    ensures tests { Tests result (utf8_fault bytes.now place) }
{
    match std::str::from_utf8(bytes) {
        Ok(text) => Ok(text),
        Err(_) => Err(VortexError::NotUtf8 { row: place }),
    }
}
