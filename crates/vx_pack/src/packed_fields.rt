// The fields of records that are packed.

ghost use Rattle.std.specs.Prelude.{◌≡◌, ◌<◌, ◌++◌, ◌∷◌, [], Bool, List, length, IfSome};
ghost use Rattle.std.specs.List.{All};
ghost use Rattle.vx_base.specs.DTypes.{field_kinds, field_names};
ghost use Rattle.vx_base.specs.Kinds.{records};
ghost use Rattle.vx_base.specs.Refusals.{Gives};
ghost use Rattle.vx_pack.specs.Pieces.{AreFieldPieces, IsPiece, piece_rows, pieces_rows};
ghost use Rattle.vx_pack.specs.Records.{kind_at};
ghost use Rattle.vx_pack.specs.declared.pieces.Piece.{Piece as Pieces};

use crate::pieces::Piece;
use std::alloc::Global;
use vx_base::{StructFields, VortexError};

// The field at a place of each record, a default row where the record is null.
pub(crate) fn field_pieces<'a>(
    alloc: Global,
    fields: &StructFields,
    place: usize,
    pieces: &[Piece<'a>],
) -> Result<Vec<Piece<'a>>, VortexError>
    requires place { place < length (field_names fields.now) }
    requires pieces { (n : Bool) × All (IsPiece (records (field_names fields.now) (field_kinds fields.now) n)) pieces.now }
    ensures { let kind = records (field_names fields.now) (field_kinds fields.now) in
        Gives result (λ column. (n : Bool) → All (IsPiece (kind n)) pieces.now →
        AreFieldPieces (kind_at place (field_kinds fields.now)) place (pieces_rows (kind n) pieces.now) column.items) }
{
    let mut column = Vec::with_capacity(alloc, pieces_of_field(pieces))?;
    for piece in pieces {
        push_field(&mut column, fields, *piece, place)?;
    }
    Ok(column)
}

// How many pieces a field has: one for a piece of which it is a column, or which is default rows,
// and else one for each record.
fn pieces_of_field(pieces: &[Piece]) -> usize {
    let mut count: usize = 0;
    for piece in pieces {
        count = count.saturating_add(match piece {
            Piece::Rows(part) if part.records().is_none() => part.len(),
            _ => 1,
        });
    }
    count
}

// That of a piece, at the end of the column: whole, where the field is a column.
fn push_field<'a>(
    column: &mut Vec<Piece<'a>>,
    fields: &StructFields,
    piece: Piece<'a>,
    place: usize,
) -> Result<(), VortexError>
    requires place { place < length (field_names fields.now) }
    requires piece { (n : Bool) × IsPiece (records (field_names fields.now) (field_kinds fields.now) n) piece }
    ensures { let kind = records (field_names fields.now) (field_kinds fields.now) in
        Gives result (λ _. (n : Bool) → IsPiece (kind n) piece.entry → (more : List Pieces)
        × AreFieldPieces (kind_at place (field_kinds fields.now)) place (piece_rows (kind n) piece.entry) more
        × (column.new.items ≡ column.old.items ++ more)) }
{
    match whole_field(fields, piece, place) {
        Some(field) => column.push(field)?,
        None => push_each_field(column, fields, piece, place)?,
    }
    Ok(())
}

// The field of all rows, where it is a column or they are default rows.
fn whole_field<'a>(fields: &StructFields, piece: Piece<'a>, place: usize) -> Option<Piece<'a>>
    requires place { place < length (field_names fields.now) }
    requires piece { (n : Bool) × IsPiece (records (field_names fields.now) (field_kinds fields.now) n) piece }
    ensures { let kind = records (field_names fields.now) (field_kinds fields.now) in
        IfSome result (λ field. (n : Bool) → IsPiece (kind n) piece.entry →
        AreFieldPieces (kind_at place (field_kinds fields.now)) place (piece_rows (kind n) piece.entry) (field ∷ [])) }
{
    match piece {
        Piece::Rows(part) => Some(Piece::Rows(part.records()?.field(place))),
        Piece::Blank(len) => Some(Piece::Blank(len)),
    }
}

// The field of the records of a piece, at the end of the column, record by record.
fn push_each_field<'a>(
    column: &mut Vec<Piece<'a>>,
    fields: &StructFields,
    piece: Piece<'a>,
    place: usize,
) -> Result<(), VortexError>
    requires place { place < length (field_names fields.now) }
    requires piece { (n : Bool) × IsPiece (records (field_names fields.now) (field_kinds fields.now) n) piece }
    ensures { let kind = records (field_names fields.now) (field_kinds fields.now) in
        Gives result (λ _. (n : Bool) → IsPiece (kind n) piece.entry → (more : List Pieces)
        × AreFieldPieces (kind_at place (field_kinds fields.now)) place (piece_rows (kind n) piece.entry) more
        × (column.new.items ≡ column.old.items ++ more)) }
{
    for i in 0..piece.len() {
        column.push(piece.field_or_blank(fields, i, place))?;
    }
    Ok(())
}
