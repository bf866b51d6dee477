// Whether a table is known to be a column, without copying what it holds.

ghost use Rattle.std.specs.Prelude.{◌≡◌, ◌<◌, ◌+◌, ℕ, length, List, Bool, false, None, Some, reverse, IfSome, IsTrue, IsUtf8};
ghost use Rattle.vx_base.specs.Integers.{numbers};
ghost use Rattle.vx_tree.specs.Tree.{Tree};
ghost use Rattle.vx_views.specs.BuildFaults.{differences};
ghost use Rattle.vx_c.specs.declared.parts.Part.{Part};
ghost use Rattle.vx_c.specs.declared.table.CodraskNode.{CodraskNode};
ghost use Rattle.vx_c.specs.declared.table.NodeKind.TheVariants.{Bool as bool_kind, Number, Utf8, Binary, Dictionary, FixedSizeList, ListView, Struct};
ghost use Rattle.vx_c.specs.Parts.{AreCodes, Describes, AreDescribed, IsDescribed, Makes, HasBytes, HasNumbers, AreLists, AreValuesOver};
ghost use Rattle.vx_c.specs.Spans.{starts_of, between, ArePlaces};
ghost use Rattle.vx_lists.specs.FixedSizeLists.{element_count_fault};
ghost use Rattle.vx_c.specs.Tables.{node_made, bits_fault, table_fault, valid_of_number};
ghost use Rattle.vx_c.specs.Told.{told_by, IsToldBy, AreToldBy, AreValueOffsets, has_order, HasOrder, HaveOrder, heap_in};

use crate::lent_offsets::{are_list_rows, are_lists_between, are_places, are_spans};
use crate::lent_texts::are_texts;
use crate::lent_views::{are_text_buffers, are_text_views, are_values};
use crate::parts::{Part, is_one, pop, push, take_columns, take_validity};
use crate::reading::MAX_NODES;
use crate::table::{CodraskNode, NodeKind, OffsetKind};
use std::alloc::Global;
use vx_base::{NativePType, PType, call_native, number_count};

// Whether each table that this one tells of is known to be a column: all its arrays are told of from
// the last node to the first, and no row is copied. Takes memory for what it knows of them, and is
// false where that is refused.
pub(crate) fn passes(alloc: Global, nodes: &[CodraskNode<'_>]) -> bool
    ensures told { IsTrue result → (told : List CodraskNode) → AreToldBy nodes.now told → table_fault told ≡ None }
    ensures in_order { IsTrue result → HaveOrder nodes.now }
{
    if MAX_NODES < nodes.len() {
        return false;
    }
    let mut parts = Vec::new(alloc);
    for read in 0..nodes.len() {
        if !push_node(&nodes[nodes.len() - read - 1], &mut parts) {
            return false;
        }
    }
    is_one(&parts)
}

// Whether no node has offsets that stand for other nodes: such a table tells of itself.
pub(crate) fn is_plain(nodes: &[CodraskNode<'_>]) -> bool
    ensures { IsTrue result → AreToldBy nodes.now nodes.now }
{
    for read in 0..nodes.len() {
        if OffsetKind::numbered(nodes[nodes.len() - read - 1].kind).is_some() {
            return false;
        }
    }
    true
}

// Puts what is known of the array of a node nearest, in place of its parts, where it has no fault.
fn push_node<'a>(node: &CodraskNode<'a>, parts: &mut Vec<Part<'a>>) -> bool
    ensures told { IsTrue result → (told : CodraskNode) (ts : List Tree) → IsToldBy node.now told
        → AreDescribed (reverse parts.old.items) ts → IsDescribed (reverse parts.new.items) (node_made told ts) }
    ensures in_order { IsTrue result → HasOrder node.now }
{
    match OffsetKind::numbered(node.kind) {
        Some(kind) => push_told(kind, node, parts),
        None => push_plain(node, parts),
    }
}

// Puts what is known of the array of a node without offsets nearest, where it has no fault.
fn push_plain<'a>(node: &CodraskNode<'a>, parts: &mut Vec<Part<'a>>) -> bool
    ensures { IsTrue result → (ts : List Tree) → AreDescribed (reverse parts.old.items) ts
        → IsDescribed (reverse parts.new.items) (node_made node.now ts) }
{
    let Some(kind) = NodeKind::numbered(node.kind) else {
        return false;
    };
    let Some(null) = take_validity(node.validity, node.length, parts) else {
        return false;
    };
    match part_of(kind, node, null, parts) {
        Some(part) => push(parts, part),
        None => false,
    }
}

// What is known of the array of a node of a kind, where it has no fault.
fn part_of<'a>(
    kind: NodeKind,
    node: &CodraskNode<'a>,
    null: bool,
    parts: &mut Vec<Part<'a>>,
) -> Option<Part<'a>>
    ensures { IfSome result (λ p. Makes kind node.now null (reverse parts.old.items) p (reverse parts.new.items)) }
{
    match kind {
        NodeKind::Bool => truth_values(node, null),
        NodeKind::Number(ptype) => numbers_of(node, ptype, null),
        NodeKind::Utf8 => texts_of(node),
        NodeKind::Binary => values_of(node),
        NodeKind::Dictionary => dictionary_of(node, null, parts),
        NodeKind::FixedSizeList => fixed_lists_of(node, parts),
        NodeKind::ListView => lists_of(node, parts),
        NodeKind::Struct => records_of(node, parts),
    }
}

// Truth values whose bits lie within their bytes.
fn truth_values<'a>(node: &CodraskNode<'a>, null: bool) -> Option<Part<'a>>
    ensures { IfSome result (λ p. (ps : List Part) → Makes bool_kind node.now null ps p ps) }
{
    if !has_bits(node) {
        return None;
    }
    if null {
        return Some(Part::Rows(node.length));
    }
    Some(Part::Truths(node.length))
}

// Whether so many bits lie within the bytes.
fn has_bits(node: &CodraskNode<'_>) -> bool
    ensures { IsTrue result → bits_fault node.now.bytes.now node.now.offset node.now.length ≡ None }
{
    match node.offset.checked_add(node.length) {
        Some(end) => end as u128 <= 8 * (node.bytes.len() as u128),
        None => false,
    }
}

// Numbers that fill their bytes.
fn numbers_of<'a>(node: &CodraskNode<'a>, ptype: PType, null: bool) -> Option<Part<'a>>
    ensures { IfSome result (λ p. (ps : List Part) → Makes (Number ptype) node.now null ps p ps) }
{
    if node.bytes.len() % ptype.byte_width() != 0 {
        return None;
    }
    if number_count(node.bytes, ptype) != node.length {
        return None;
    }
    Some(Part::Numbers(ptype, node.bytes, null))
}

// Texts by their views.
fn texts_of<'a>(node: &CodraskNode<'a>) -> Option<Part<'a>>
    ensures { IfSome result (λ p. (null : Bool) (ps : List Part) → Makes Utf8 node.now null ps p ps) }
{
    if node.views.len() != node.length {
        return None;
    }
    if !are_text_views(node.views, node.buffers) {
        return None;
    }
    Some(Part::Rows(node.length))
}

// Byte lists by their views.
fn values_of<'a>(node: &CodraskNode<'a>) -> Option<Part<'a>>
    ensures { IfSome result (λ p. (null : Bool) (ps : List Part) → Makes Binary node.now null ps p ps) }
{
    if node.views.len() != node.length {
        return None;
    }
    if !are_values(node.views, node.buffers) {
        return None;
    }
    Some(Part::Rows(node.length))
}

// A dictionary over the two nearest arrays: codes, values. Each code, also one that is null, has to
// name a value.
fn dictionary_of<'a>(
    node: &CodraskNode<'a>,
    null: bool,
    parts: &mut Vec<Part<'a>>,
) -> Option<Part<'a>>
    ensures { IfSome result (λ p. Makes Dictionary node.now null (reverse parts.old.items) p (reverse parts.new.items)) }
{
    if null {
        return None;
    }
    let codes = pop(parts)?;
    let values = pop(parts)?;
    if codes.len() != node.length {
        return None;
    }
    if !are_codes(&codes, values.len()) {
        return None;
    }
    Some(Part::Rows(node.length))
}

// Whether numbers are codes of so many values.
fn are_codes(codes: &Part<'_>, count: usize) -> bool
    ensures { IsTrue result → (c : Tree) → Describes codes.now c → AreCodes count c }
{
    let Part::Numbers(ptype, bytes, _) = codes else {
        return false;
    };
    are_places_by_type(*ptype, bytes, count)
}

// Whether each number of a type is a place among so many.
fn are_places_by_type(ptype: PType, bytes: &[u8], count: usize) -> bool
    ensures { IsTrue result → ArePlaces (numbers ptype bytes.now) count }
{
    call_native!(ptype, are_places(bytes, count))
}

// Lists of one size over the nearest array.
fn fixed_lists_of<'a>(node: &CodraskNode<'a>, parts: &mut Vec<Part<'a>>) -> Option<Part<'a>>
    ensures { IfSome result (λ p. (null : Bool) → Makes FixedSizeList node.now null (reverse parts.old.items) p (reverse parts.new.items)) }
{
    let elements = pop(parts)?;
    if !are_in_all(elements.len(), node.size, node.length) {
        return None;
    }
    Some(Part::Rows(node.length))
}

// Whether so many elements are those of so many lists of one size.
fn are_in_all(count: usize, size: u32, len: usize) -> bool
    ensures { IsTrue result → element_count_fault count size len ≡ None }
{
    if size == 0 {
        return count == 0;
    }
    match len.checked_mul(size as usize) {
        Some(total) => total == count,
        None => false,
    }
}

// Lists over the three nearest arrays: elements, offsets, sizes.
fn lists_of<'a>(node: &CodraskNode<'a>, parts: &mut Vec<Part<'a>>) -> Option<Part<'a>>
    ensures { IfSome result (λ p. (null : Bool) → Makes ListView node.now null (reverse parts.old.items) p (reverse parts.new.items)) }
{
    let elements = pop(parts)?;
    let offsets = pop(parts)?;
    let sizes = pop(parts)?;
    if !are_lists(&offsets, &sizes, elements.len(), node.length) {
        return None;
    }
    Some(Part::Rows(node.length))
}

// Whether offsets and sizes are those of so many lists, each of which lies among `count` elements.
fn are_lists(offsets: &Part<'_>, sizes: &Part<'_>, count: usize, len: usize) -> bool
    ensures { IsTrue result → (o s : Tree) → Describes offsets.now o → Describes sizes.now s → AreLists count len o s }
{
    match offsets {
        Part::Numbers(ptype, bytes, null) => {
            if *null {
                return false;
            }
            are_by_type(*ptype, bytes, sizes, count, len)
        }
        Part::Starts(ptype, bytes) => are_told_by_type(*ptype, bytes, sizes, count, len),
        _ => false,
    }
}

// Whether these are such lists, by offsets of a type, where the sizes are numbers of that type.
fn are_by_type(ptype: PType, offsets: &[u8], sizes: &Part<'_>, count: usize, len: usize) -> bool
    ensures { IsTrue result → (o s : Tree) → HasBytes ptype offsets.now false o → Describes sizes.now s → AreLists count len o s }
{
    match ptype {
        PType::I32 => are_views::<i32>(offsets, sizes, count, len),
        PType::I64 => are_views::<i64>(offsets, sizes, count, len),
        _ => false,
    }
}

// Whether these are such lists, by offsets of a type, less the first one, where the sizes lie
// between offsets of that type.
fn are_told_by_type(ptype: PType, starts: &[u8], sizes: &Part<'_>, count: usize, len: usize) -> bool
    ensures { IsTrue result → (o s : Tree) → HasNumbers (starts_of (numbers ptype starts.now)) o → Describes sizes.now s → AreLists count len o s }
{
    match ptype {
        PType::I32 => are_between::<i32>(starts, sizes, count, len),
        PType::I64 => are_between::<i64>(starts, sizes, count, len),
        _ => false,
    }
}

// Whether these are such lists, by offsets and sizes of one type.
fn are_views<P: NativePType>(offsets: &[u8], sizes: &Part<'_>, count: usize, len: usize) -> bool
    ensures { IsTrue result → (o s : Tree) → HasBytes P.PTYPE offsets.now false o → Describes sizes.now s → AreLists count len o s }
{
    let Part::Numbers(ptype, sizes, null) = sizes else {
        return false;
    };
    if *null {
        return false;
    }
    if !is_type(*ptype, P::PTYPE) {
        return false;
    }
    are_plain_lists::<P>(offsets, sizes, count, len)
}

// Whether these are such lists, by offsets of one type, less the first one, and sizes between them.
fn are_between<P: NativePType>(starts: &[u8], sizes: &Part<'_>, count: usize, len: usize) -> bool
    ensures { IsTrue result → (o s : Tree) → HasNumbers (starts_of (numbers P.PTYPE starts.now)) o → Describes sizes.now s → AreLists count len o s }
{
    let Part::Sizes(ptype, ends) = sizes else {
        return false;
    };
    if !is_type(*ptype, P::PTYPE) {
        return false;
    }
    are_told_lists::<P>(starts, ends, count, len)
}

// Whether a type is another one.
fn is_type(ptype: PType, other: PType) -> bool
    ensures { IsTrue result → ptype ≡ other }
{
    ptype == other
}

// Whether numbers of a type are offsets and sizes of so many lists among `count` elements.
fn are_plain_lists<P: NativePType>(offsets: &[u8], sizes: &[u8], count: usize, len: usize) -> bool
    ensures { IsTrue result → (o s : Tree) → HasBytes P.PTYPE offsets.now false o → HasBytes P.PTYPE sizes.now false s → AreLists count len o s }
{
    if number_count(offsets, P::PTYPE) != len {
        return false;
    }
    if number_count(sizes, P::PTYPE) != len {
        return false;
    }
    are_list_rows::<P, P>(offsets, sizes, count)
}

// Whether offsets of a type tell of so many lists among `count` elements.
fn are_told_lists<P: NativePType>(starts: &[u8], ends: &[u8], count: usize, len: usize) -> bool
    ensures { IsTrue result → (o s : Tree) → HasNumbers (starts_of (numbers P.PTYPE starts.now)) o → HasNumbers (differences (numbers P.PTYPE ends.now)) s
        → AreLists count len o s }
{
    if number_count(starts, P::PTYPE) != len {
        return false;
    }
    if !has_one_more(ends, P::PTYPE, len) {
        return false;
    }
    are_lists_between::<P>(starts, ends, count)
}

// Records over the nearest arrays, one for each name.
fn records_of<'a>(node: &CodraskNode<'a>, parts: &mut Vec<Part<'a>>) -> Option<Part<'a>>
    ensures { IfSome result (λ p. (null : Bool) → Makes Struct node.now null (reverse parts.old.items) p (reverse parts.new.items)) }
{
    if !are_text_buffers(node.buffers) {
        return None;
    }
    if !take_columns(node.buffers.len(), node.length, parts) {
        return None;
    }
    Some(Part::Rows(node.length))
}

// Puts what is known of the array of a node whose offsets stand for other nodes nearest, where it
// has no fault.
fn push_told<'a>(kind: OffsetKind, node: &CodraskNode<'a>, parts: &mut Vec<Part<'a>>) -> bool
    ensures told { IsTrue result → (told : CodraskNode) (ts : List Tree) → told_by (Some kind) node.now told
        → AreDescribed (reverse parts.old.items) ts → IsDescribed (reverse parts.new.items) (node_made told ts) }
    ensures in_order { IsTrue result → has_order (Some kind) node.now }
{
    match kind {
        OffsetKind::Utf8(ptype) => are_texts_between(ptype, node) && push_values(node, parts),
        OffsetKind::Binary(ptype) => are_values_between(ptype, node) && push_values(node, parts),
        OffsetKind::Starts(ptype) => {
            number_count(node.bytes, ptype) == node.length
                && push(parts, Part::Starts(ptype, node.bytes))
        }
        OffsetKind::Sizes(ptype) => {
            has_one_more(node.bytes, ptype, node.length)
                && push(parts, Part::Sizes(ptype, node.bytes))
        }
    }
}

// Puts what is known of values nearest, in place of their validity.
fn push_values<'a>(node: &CodraskNode<'a>, parts: &mut Vec<Part<'a>>) -> bool
    ensures { IsTrue result → (ts : List Tree) → AreDescribed (reverse parts.old.items) ts
        → AreValuesOver node.now.length (reverse parts.new.items) (valid_of_number node.now.validity ts) }
{
    match take_validity(node.validity, node.length, parts) {
        Some(_) => push(parts, Part::Rows(node.length)),
        None => false,
    }
}

// Whether texts lie one after another between the offsets of a node.
fn are_texts_between(ptype: PType, node: &CodraskNode<'_>) -> bool
    ensures spans { IsTrue result → AreValueOffsets ptype node.now }
    ensures texts { IsTrue result → (i : ℕ) → i < node.now.length → IsUtf8 (between (numbers ptype node.now.bytes.now) (heap_in node.now) i) }
{
    let heap = heap_of(node);
    if !has_one_more(node.bytes, ptype, node.length) {
        return false;
    }
    match ptype {
        PType::I32 => are_texts::<i32>(node.bytes, heap),
        PType::I64 => are_texts::<i64>(node.bytes, heap),
        _ => false,
    }
}

// Whether values lie one after another between the offsets of a node.
fn are_values_between(ptype: PType, node: &CodraskNode<'_>) -> bool
    ensures { IsTrue result → AreValueOffsets ptype node.now }
{
    let heap = heap_of(node);
    if !has_one_more(node.bytes, ptype, node.length) {
        return false;
    }
    match ptype {
        PType::I32 => are_spans::<i32>(node.bytes, heap.len()),
        PType::I64 => are_spans::<i64>(node.bytes, heap.len()),
        _ => false,
    }
}

// Whether bytes hold one number more than there are rows.
fn has_one_more(bytes: &[u8], ptype: PType, rows: usize) -> bool
    ensures { IsTrue result → length (numbers ptype bytes.now) ≡ rows + 1 }
{
    let count = number_count(bytes, ptype);
    count > 0 && count - 1 == rows
}

// The bytes that offsets of values refer to.
fn heap_of<'a>(node: &CodraskNode<'a>) -> &'a [u8]
    ensures { result.now ≡ heap_in node.now }
{
    match node.buffers.first() {
        Some(heap) => heap.bytes,
        None => &[],
    }
}
