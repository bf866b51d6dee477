// The packed form of rows: one recursion through data types.

ghost use Rattle.std.specs.Prelude.{◌≡◌, ◌<◌, Bool, IfErr, IfOk, length, map};
ghost use Rattle.std.specs.List.{All};
ghost use Rattle.vx_base.specs.DTypes.{dtype_meaning, field_kinds, field_names};
ghost use Rattle.vx_base.specs.Kinds.{booleans, fixed_lists, integers, lists, records};
ghost use Rattle.vx_pack.specs.ListItems.{list_items};
ghost use Rattle.vx_pack.specs.Packed.{ArePacked, IsPackRefused, IsPacked, field_or_default};
ghost use Rattle.vx_tree.specs.Meaning.{trees_from};
ghost use Rattle.vx_pack.specs.Pieces.{ArePieces, IsPiece, pieces_rows};
ghost use Rattle.vx_pack.specs.Records.{kind_at};

use crate::list_counts::{ListCounts, check_same_lists, total_of_lists};
use crate::packed_bits::{truth_bits, validity_of};
use crate::packed_fields::field_pieces;
use crate::packed_items::pack_items;
use crate::packed_lists::{fixed_list_pieces, joined_pieces};
use crate::packed_numbers::number_bytes;
use crate::packed_texts::pack_texts;
use crate::pieces::Piece;
use std::alloc::Global;
use vx_base::{DType, PType, StructFields, VortexError};
use vx_tree::ArrayRef;

// How many elements lists may have together: as many as I64 counts.
const MAX_ELEMENTS: usize = i64::MAX as usize;

// The packed form of so many rows of a data type.
#[cycle(pack)]
pub(crate) fn pack_rows(
    alloc: Global,
    dtype: &DType,
    pieces: &[Piece],
    len: usize,
) -> Result<ArrayRef, VortexError>
    requires { ArePieces (dtype_meaning dtype.now) pieces.now len }
    ensures ok { let kind = dtype_meaning dtype.now in
        IfOk result (IsPacked kind (pieces_rows kind pieces.now)) }
    ensures err { let kind = dtype_meaning dtype.now in
        IfErr result (IsPackRefused kind (pieces_rows kind pieces.now)) }
{
    match dtype {
        DType::Bool(_) => pack_truths(alloc, dtype, pieces, len),
        DType::Primitive(ptype, _) => pack_numbers(alloc, dtype, *ptype, pieces, len),
        DType::Utf8(_) => pack_texts(alloc, dtype, pieces, len),
        DType::Binary(_) => pack_texts(alloc, dtype, pieces, len),
        DType::List(items, _) => pack_lists(alloc, dtype, items, pieces, len),
        DType::FixedSizeList(items, size, _) => {
            pack_fixed_lists(alloc, dtype, items, *size, pieces, len)
        }
        DType::Struct(fields, _) => pack_records(alloc, dtype, fields, pieces, len),
    }
}

// That of truth values.
fn pack_truths(
    alloc: Global,
    dtype: &DType,
    pieces: &[Piece],
    len: usize,
) -> Result<ArrayRef, VortexError>
    requires kind { (n : Bool) × (dtype_meaning dtype.now ≡ booleans n) }
    requires pieces { ArePieces (dtype_meaning dtype.now) pieces.now len }
    ensures ok { let kind = dtype_meaning dtype.now in
        IfOk result (IsPacked kind (pieces_rows kind pieces.now)) }
    ensures err { let kind = dtype_meaning dtype.now in
        IfErr result (IsPackRefused kind (pieces_rows kind pieces.now)) }
{
    let bits = truth_bits(alloc, dtype, pieces, len)?.into_buffer(alloc)?;
    let validity = validity_of(alloc, dtype, pieces, len)?;
    ArrayRef::bools(alloc, bits, validity)
}

// That of numbers.
fn pack_numbers(
    alloc: Global,
    dtype: &DType,
    ptype: PType,
    pieces: &[Piece],
    len: usize,
) -> Result<ArrayRef, VortexError>
    requires kind { (n : Bool) × (dtype_meaning dtype.now ≡ integers ptype n) }
    requires pieces { ArePieces (dtype_meaning dtype.now) pieces.now len }
    ensures ok { let kind = dtype_meaning dtype.now in
        IfOk result (IsPacked kind (pieces_rows kind pieces.now)) }
    ensures err { let kind = dtype_meaning dtype.now in
        IfErr result (IsPackRefused kind (pieces_rows kind pieces.now)) }
{
    let bytes = number_bytes(alloc, ptype, pieces, len)?;
    let validity = validity_of(alloc, dtype, pieces, len)?;
    ArrayRef::primitive(alloc, ptype, bytes, validity)
}

// That of lists: end to end over their packed elements.
#[cycle(pack)]
fn pack_lists(
    alloc: Global,
    dtype: &DType,
    items: &DType,
    pieces: &[Piece],
    len: usize,
) -> Result<ArrayRef, VortexError>
    requires kind { (n : Bool) × (dtype_meaning dtype.now ≡ lists (dtype_meaning items.now) n) }
    requires pieces { ArePieces (dtype_meaning dtype.now) pieces.now len }
    ensures ok { let kind = dtype_meaning dtype.now in
        IfOk result (IsPacked kind (pieces_rows kind pieces.now)) }
    ensures err { let kind = dtype_meaning dtype.now in
        IfErr result (IsPackRefused kind (pieces_rows kind pieces.now)) }
{
    check_same_lists(dtype, pieces, MAX_ELEMENTS)?;
    let counts = ListCounts::with_capacity(alloc, len)?;
    let total = total_of_lists(dtype, pieces, MAX_ELEMENTS)?;
    let elements = pack_elements(alloc, dtype, items, pieces, total)?;
    let (offsets, sizes) = counts.of_lists(alloc, dtype, pieces, total)?;
    let validity = validity_of(alloc, dtype, pieces, len)?;
    ArrayRef::list_view(alloc, elements, offsets, sizes, validity, true)
}

// That of the elements of lists, of which there are so many: no list is listed where they are
// values.
#[cycle(pack)]
fn pack_elements(
    alloc: Global,
    dtype: &DType,
    items: &DType,
    pieces: &[Piece],
    total: usize,
) -> Result<ArrayRef, VortexError>
    requires kind { (n : Bool) × (dtype_meaning dtype.now ≡ lists (dtype_meaning items.now) n) }
    requires pieces { All (IsPiece (dtype_meaning dtype.now)) pieces.now }
    requires total { let kind = dtype_meaning dtype.now in
        length (list_items kind (pieces_rows kind pieces.now)) ≡ total }
    ensures ok { let kind = dtype_meaning dtype.now in
        IfOk result (IsPacked (dtype_meaning items.now) (list_items kind (pieces_rows kind pieces.now))) }
    ensures err { let kind = dtype_meaning dtype.now in
        IfErr result (IsPackRefused (dtype_meaning items.now) (list_items kind (pieces_rows kind pieces.now))) }
{
    match items {
        DType::Bool(_) | DType::Primitive(_, _) | DType::Utf8(_) | DType::Binary(_) => {
            pack_items(alloc, dtype, items, pieces, total)
        }
        DType::List(_, _) | DType::FixedSizeList(_, _, _) | DType::Struct(_, _) => {
            let lists = joined_pieces(alloc, dtype, pieces, 0)?;
            pack_rows(alloc, items, &lists, total)
        }
    }
}

// That of lists of one size: over their packed elements, default rows under null.
#[cycle(pack)]
fn pack_fixed_lists(
    alloc: Global,
    dtype: &DType,
    items: &DType,
    size: u32,
    pieces: &[Piece],
    len: usize,
) -> Result<ArrayRef, VortexError>
    requires kind { (n : Bool) × (dtype_meaning dtype.now ≡ fixed_lists (dtype_meaning items.now) size n) }
    requires pieces { ArePieces (dtype_meaning dtype.now) pieces.now len }
    ensures ok { let kind = dtype_meaning dtype.now in
        IfOk result (IsPacked kind (pieces_rows kind pieces.now)) }
    ensures err { let kind = dtype_meaning dtype.now in
        IfErr result (IsPackRefused kind (pieces_rows kind pieces.now)) }
{
    let Some(total) = len.checked_mul(size as usize) else {
        return Err(VortexError::Overflow);
    };
    let lists = fixed_list_pieces(alloc, dtype, pieces, size, len)?;
    let elements = pack_rows(alloc, items, &lists, total)?;
    let validity = validity_of(alloc, dtype, pieces, len)?;
    ArrayRef::fixed_size_list(alloc, elements, size, validity, len)
}

// That of records: their packed fields, default rows under null.
#[cycle(pack)]
fn pack_records(
    alloc: Global,
    dtype: &DType,
    fields: &StructFields,
    pieces: &[Piece],
    len: usize,
) -> Result<ArrayRef, VortexError>
    requires kind { (n : Bool) × (dtype_meaning dtype.now ≡ records (field_names fields.now) (field_kinds fields.now) n) }
    requires pieces { ArePieces (dtype_meaning dtype.now) pieces.now len }
    ensures ok { let kind = dtype_meaning dtype.now in
        IfOk result (IsPacked kind (pieces_rows kind pieces.now)) }
    ensures err { let kind = dtype_meaning dtype.now in
        IfErr result (IsPackRefused kind (pieces_rows kind pieces.now)) }
{
    let columns = pack_columns(alloc, fields, pieces, len)?;
    let names = fields.names().try_clone(alloc)?;
    let validity = validity_of(alloc, dtype, pieces, len)?;
    ArrayRef::structure(alloc, names, columns, validity, len)
}

// The packed fields, one after another.
#[cycle(pack)]
fn pack_columns(
    alloc: Global,
    fields: &StructFields,
    pieces: &[Piece],
    len: usize,
) -> Result<Vec<ArrayRef>, VortexError>
    requires { (n : Bool) × ArePieces (records (field_names fields.now) (field_kinds fields.now) n) pieces.now len }
    ensures ok { let kind = records (field_names fields.now) (field_kinds fields.now) in
        (n : Bool) → ArePieces (kind n) pieces.now len → IfOk result (λ columns.
        ArePacked 0 (field_kinds fields.now) (pieces_rows (kind n) pieces.now) (trees_from columns.items)) }
    ensures err { let kind = records (field_names fields.now) (field_kinds fields.now) in
        (n : Bool) → ArePieces (kind n) pieces.now len →
        IfErr result (IsPackRefused (kind n) (pieces_rows (kind n) pieces.now)) }
{
    let mut columns = Vec::new(alloc);
    for place in 0..fields.fields().len() {
        columns.push(pack_field(alloc, fields, place, pieces, len)?)?;
    }
    Ok(columns)
}

// The packed field at a place.
#[cycle(pack)]
fn pack_field(
    alloc: Global,
    fields: &StructFields,
    place: usize,
    pieces: &[Piece],
    len: usize,
) -> Result<ArrayRef, VortexError>
    requires place { place < length (field_names fields.now) }
    requires pieces { (n : Bool) × ArePieces (records (field_names fields.now) (field_kinds fields.now) n) pieces.now len }
    ensures ok { let kind = records (field_names fields.now) (field_kinds fields.now) in
        let field = kind_at place (field_kinds fields.now) in
        (n : Bool) → ArePieces (kind n) pieces.now len →
        IfOk result (IsPacked field (map (field_or_default field place) (pieces_rows (kind n) pieces.now))) }
    ensures err { let kind = records (field_names fields.now) (field_kinds fields.now) in
        let field = kind_at place (field_kinds fields.now) in
        (n : Bool) → ArePieces (kind n) pieces.now len →
        IfErr result (IsPackRefused field (map (field_or_default field place) (pieces_rows (kind n) pieces.now))) }
{
    let column = field_pieces(alloc, fields, place, pieces)?;
    pack_rows(alloc, &fields.fields()[place], &column, len)
}
