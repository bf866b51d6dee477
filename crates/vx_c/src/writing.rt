// The table of an array, each array before its parts.

ghost use Rattle.std.specs.Prelude.{◌≡◌, ◌<◌, ◌^◌, false, None, [], ◌∷◌, length, map, IfOk};
ghost use Rattle.vx_base.specs.DTypes.{dtype_meaning};
ghost use Rattle.vx_base.specs.Refusals.{Gives};
ghost use Rattle.vx_tree.specs.Formed.{WellFormed, ValidFits};
ghost use Rattle.vx_base.specs.Kinds.{booleans};
ghost use Rattle.vx_tree.specs.Meaning.{tree_len, kind_of, is_texts, trees_from};
ghost use Rattle.vx_tree.specs.Parts.{valid_of};
ghost use Rattle.vx_tree.specs.Plain.{IsPlain, ArePlain, IsPlainValid};
ghost use Rattle.vx_tree.specs.Tree.{bools, primitive, view_array};
ghost use Rattle.vx_c.specs.declared.table.NodeKind.TheVariants.{FixedSizeList, ListView, Struct};
ghost use Rattle.vx_c.specs.Tables.{view_bytes, names_fault};
ghost use Rattle.vx_c.specs.Unflagged.{unflagged, unflagged_valid};
ghost use Rattle.vx_c.specs.NodeKinds.{valid_number, view_kind};
ghost use Rattle.vx_c.specs.TablesOf.{view_with};
ghost use Rattle.vx_c.specs.Written.{IsWritten, IsPut, IsParent, IsBitsNode};

use crate::table::{CodraskView, NodeKind};
use crate::written::{WrittenBuffers, WrittenNode};
use std::alloc::Global;
use vx_base::{BitBuffer, Buffer, ByteBuffer, DType, FieldNames, PType, VortexError};
use vx_pack::bits_bytes;
use vx_tree::{ArrayRef, Layout, Validity};
use vx_views::BinaryView;

// Puts the table of an array after these nodes. Asks an array of plain layouts. Fails only for want
// of memory.
#[cycle(write)]
pub(crate) fn write(
    alloc: Global,
    array: &ArrayRef,
    nodes: &mut Vec<WrittenNode>,
) -> Result<(), VortexError>
    requires { IsPlain array.now }
    ensures written { Gives result (λ _. IsWritten nodes.old.items (unflagged array.now ∷ []) nodes.new.items) }
    ensures short { tree_len array.now < 2 ^ 64 }
{
    let length = array.len();
    match array.layout() {
        Layout::Bool { bits, validity } => Ok(put_bits(alloc, bits, validity, nodes)?),
        Layout::Primitive {
            ptype,
            bytes,
            validity,
        } => Ok(put_numbers(alloc, length, *ptype, bytes, validity, nodes)?),
        Layout::VarBinView {
            views,
            buffers,
            dtype,
            validity,
        } => Ok(put_values(alloc, views, buffers, dtype, validity, nodes)?),
        Layout::FixedSizeList {
            elements,
            size,
            validity,
            ..
        } => {
            put_lists(
                alloc,
                NodeKind::FixedSizeList,
                *size,
                length,
                validity,
                nodes,
            )?;
            Ok(write(alloc, elements, nodes)?)
        }
        Layout::ListView {
            elements,
            offsets,
            sizes,
            validity,
            ..
        } => {
            put_lists(alloc, NodeKind::ListView, 0, length, validity, nodes)?;
            write(alloc, elements, nodes)?;
            write(alloc, offsets, nodes)?;
            Ok(write(alloc, sizes, nodes)?)
        }
        Layout::Struct {
            names,
            columns,
            validity,
            ..
        } => {
            put_records(alloc, names, length, validity, nodes)?;
            Ok(write_columns(alloc, columns, nodes)?)
        }
        Layout::Constant { .. } | Layout::Dict { .. } => unreachable!(),
    }
}

// Puts the tables of columns after these nodes.
#[cycle(write)]
#[tactic(auto, using(crate::proofs::WrittenTables::none_written, crate::proofs::WrittenLayouts::columns_more, crate::proofs::Moved::plain_column))]
fn write_columns(
    alloc: Global,
    columns: &[ArrayRef],
    nodes: &mut Vec<WrittenNode>,
) -> Result<(), VortexError>
    requires { ArePlain (trees_from columns.now) }
    ensures { Gives result (λ _. IsWritten nodes.old.items (map unflagged columns.now) nodes.new.items) }
{
    for column in columns {
        write(alloc, column, nodes)?;
    }
    Ok(())
}

// Puts a node after these, and that of its validity.
#[tactic(auto, using(crate::proofs::WrittenLayouts::put_alone, crate::proofs::WrittenLayouts::put_masked))]
fn put(
    alloc: Global,
    node: WrittenNode,
    validity: &Validity,
    nodes: &mut Vec<WrittenNode>,
) -> Result<(), VortexError>
    requires fits { ValidFits (valid_of validity.now) node.length }
    requires plain { IsPlainValid (valid_of validity.now) }
    ensures { Gives result (λ _. IsPut node (valid_of validity.now) nodes.old.items nodes.new.items) }
{
    nodes.push(node)?;
    match validity {
        Validity::Array(array) => Ok(put_mask(alloc, array, nodes)?),
        Validity::NonNullable | Validity::AllValid | Validity::AllInvalid => Ok(()),
    }
}

// Puts the node of plain booleans after these.
#[tactic(auto, using(crate::proofs::WrittenLayouts::mask_written))]
fn put_mask(
    alloc: Global,
    array: &ArrayRef,
    nodes: &mut Vec<WrittenNode>,
) -> Result<(), VortexError>
    requires kind { kind_of array.now ≡ booleans false }
    requires plain { IsPlain array.now }
    ensures { Gives result (λ _. IsWritten nodes.old.items (unflagged array.now ∷ []) nodes.new.items) }
{
    let Layout::Bool { bits, .. } = array.layout() else {
        unreachable!();
    };
    let node = bits_node(alloc, bits, 0)?;
    nodes.push(node)?;
    Ok(())
}

// Puts the nodes of truth values after these.
#[tactic(auto, using(crate::proofs::WrittenLayouts::bools_written))]
fn put_bits(
    alloc: Global,
    bits: &BitBuffer,
    validity: &Validity,
    nodes: &mut Vec<WrittenNode>,
) -> Result<(), VortexError>
    requires fits { ValidFits (valid_of validity.now) (length bits.now.bits) }
    requires plain { IsPlainValid (valid_of validity.now) }
    ensures { Gives result (λ _. IsWritten nodes.old.items
        (bools bits.now.offset bits.now.bits (unflagged_valid (valid_of validity.now)) ∷ []) nodes.new.items) }
{
    let node = bits_node(alloc, bits, number_of(validity))?;
    Ok(put(alloc, node, validity, nodes)?)
}

// A node of truth values under the validity of a number, with no other bit set in its bytes.
fn bits_node(alloc: Global, bits: &BitBuffer, validity: u32) -> Result<WrittenNode, VortexError>
    ensures { Gives result (IsBitsNode bits.now.offset bits.now.bits validity) }
{
    let (offset, length, bytes) = bits.try_clone(alloc)?.into_inner();
    Ok(WrittenNode {
        kind: NodeKind::Bool,
        validity,
        size: 0,
        length,
        offset,
        bytes: bits_bytes(alloc, bytes.as_slice(), offset, length)?,
        views: Vec::new(alloc),
        buffers: WrittenBuffers::none(alloc),
    })
}

// Puts the nodes of numbers after these.
#[tactic(auto, using(crate::proofs::WrittenLayouts::numbers_written))]
fn put_numbers(
    alloc: Global,
    length: usize,
    ptype: PType,
    bytes: &ByteBuffer,
    validity: &Validity,
    nodes: &mut Vec<WrittenNode>,
) -> Result<(), VortexError>
    requires formed { WellFormed (primitive ptype bytes.now (valid_of validity.now)) }
    requires len { length ≡ tree_len (primitive ptype bytes.now (valid_of validity.now)) }
    requires plain { IsPlainValid (valid_of validity.now) }
    ensures { Gives result (λ _. IsWritten nodes.old.items
        (primitive ptype bytes.now (unflagged_valid (valid_of validity.now)) ∷ []) nodes.new.items) }
{
    let node = WrittenNode {
        kind: NodeKind::Number(ptype),
        validity: number_of(validity),
        size: 0,
        length,
        offset: 0,
        bytes: Vec::from_slice(alloc, bytes.as_slice())?,
        views: Vec::new(alloc),
        buffers: WrittenBuffers::none(alloc),
    };
    Ok(put(alloc, node, validity, nodes)?)
}

// Puts the nodes of texts or byte lists after these.
fn put_values(
    alloc: Global,
    views: &Buffer<BinaryView>,
    buffers: &[ByteBuffer],
    dtype: &DType,
    validity: &Validity,
    nodes: &mut Vec<WrittenNode>,
) -> Result<(), VortexError>
    requires formed { WellFormed (view_array views.now buffers.now (dtype_meaning dtype.now) (valid_of validity.now)) }
    requires plain { IsPlainValid (valid_of validity.now) }
    ensures { Gives result (λ _. IsWritten nodes.old.items
        (view_array views.now buffers.now (dtype_meaning dtype.now) (unflagged_valid (valid_of validity.now)) ∷ []) nodes.new.items) }
{
    let node = WrittenNode {
        kind: kind_of_views(dtype),
        validity: number_of(validity),
        size: 0,
        length: views.len(),
        offset: 0,
        bytes: Vec::new(alloc),
        views: view_list(alloc, views.as_slice())?,
        buffers: WrittenBuffers::of(alloc, copies_of(alloc, buffers)?)?,
    };
    Ok(put(alloc, node, validity, nodes)?)
}

// The kind of texts, else of byte lists.
fn kind_of_views(dtype: &DType) -> NodeKind
    ensures { result ≡ view_kind (is_texts (dtype_meaning dtype.now)) }
{
    match dtype {
        DType::Utf8(_) => NodeKind::Utf8,
        DType::Bool(_)
        | DType::Primitive(..)
        | DType::Binary(_)
        | DType::List(..)
        | DType::FixedSizeList(..)
        | DType::Struct(..) => NodeKind::Binary,
    }
}

// Puts a node of lists after these, the parts of which follow.
#[tactic(auto, using(crate::proofs::WrittenLayouts::parent_put))]
fn put_lists(
    alloc: Global,
    kind: NodeKind,
    size: u32,
    length: usize,
    validity: &Validity,
    nodes: &mut Vec<WrittenNode>,
) -> Result<(), VortexError>
    requires fits { ValidFits (valid_of validity.now) length }
    requires plain { IsPlainValid (valid_of validity.now) }
    ensures { Gives result (λ _. IsParent kind size length [] (valid_of validity.now) nodes.old.items nodes.new.items) }
{
    let node = WrittenNode {
        kind,
        validity: number_of(validity),
        size,
        length,
        offset: 0,
        bytes: Vec::new(alloc),
        views: Vec::new(alloc),
        buffers: WrittenBuffers::none(alloc),
    };
    Ok(put(alloc, node, validity, nodes)?)
}

// Puts a node of records after these, the columns of which follow.
#[tactic(auto, using(crate::proofs::WrittenLayouts::parent_put))]
fn put_records(
    alloc: Global,
    names: &FieldNames,
    length: usize,
    validity: &Validity,
    nodes: &mut Vec<WrittenNode>,
) -> Result<(), VortexError>
    requires fits { ValidFits (valid_of validity.now) length }
    requires plain { IsPlainValid (valid_of validity.now) }
    ensures put { Gives result (λ _. IsParent Struct 0 length names.now (valid_of validity.now) nodes.old.items nodes.new.items) }
    ensures texts { IfOk result (λ _. names_fault names.now ≡ None) }
{
    let node = WrittenNode {
        kind: NodeKind::Struct,
        validity: number_of(validity),
        size: 0,
        length,
        offset: 0,
        bytes: Vec::new(alloc),
        views: Vec::new(alloc),
        buffers: WrittenBuffers::of(alloc, name_bytes(alloc, names)?)?,
    };
    Ok(put(alloc, node, validity, nodes)?)
}

// The number of a validity.
fn number_of(validity: &Validity) -> u32
    ensures { result ≡ valid_number (valid_of validity.now) }
{
    match validity {
        Validity::NonNullable => 0,
        Validity::AllValid => 1,
        Validity::AllInvalid => 2,
        Validity::Array(_) => 3,
    }
}

// Copies of views.
fn view_list(alloc: Global, views: &[BinaryView]) -> Result<Vec<CodraskView>, VortexError>
    ensures read { Gives result (λ copies. map view_bytes copies.items ≡ views.now) }
    ensures bytes { IfOk result (λ copies. copies.items ≡ map view_with views.now) }
{
    let mut copies = Vec::with_capacity(alloc, views.len())?;
    for view in views {
        copies.push(view_copy(view))?;
    }
    Ok(copies)
}

// A copy of a view.
fn view_copy(view: &BinaryView) -> CodraskView
    ensures read { view_bytes result ≡ view.now }
    ensures bytes { result ≡ view_with view.now }
{
    CodraskView {
        bytes: view.as_u128().to_le_bytes(),
    }
}

// Copies of buffers.
fn copies_of(alloc: Global, buffers: &[ByteBuffer]) -> Result<Vec<Vec<u8>>, VortexError>
    ensures { Gives result (λ copies. map (λ b. b.items) copies.items ≡ buffers.now) }
{
    let mut copies = Vec::with_capacity(alloc, buffers.len())?;
    for buffer in buffers {
        copies.push(Vec::from_slice(alloc, buffer.as_slice())?)?;
    }
    Ok(copies)
}

// Copies of the bytes of names.
fn name_bytes(alloc: Global, names: &FieldNames) -> Result<Vec<Vec<u8>>, VortexError>
    ensures copies { Gives result (λ copies. map (λ b. b.items) copies.items ≡ names.now) }
    ensures texts { IfOk result (λ _. names_fault names.now ≡ None) }
{
    let mut copies = Vec::with_capacity(alloc, names.len())?;
    for i in 0..names.len() {
        copies.push(Vec::from_slice(alloc, names.get(i).as_str().as_bytes())?)?;
    }
    Ok(copies)
}
