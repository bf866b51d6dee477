// Rows that are packed: those of columns, and default rows between them.

ghost use Rattle.std.specs.Prelude.{◌≡◌, ◌<◌, ◌∷◌, [], ℕ, Bool, true, length, map, option_map, IfSome};
ghost use Rattle.vx_base.specs.DTypes.{field_kinds, field_names};
ghost use Rattle.std.specs.List.{flat_map};
ghost use Rattle.vx_base.specs.Integers.{Holds};
ghost use Rattle.vx_base.specs.Kinds.{Kind, integers, is_nullable_kind, records};
ghost use Rattle.vx_base.specs.Refusals.{Gives};
ghost use Rattle.vx_base.specs.Rows.{is_present, truth_of};
ghost use Rattle.vx_tree.specs.Meaning.{tree_len};
ghost use Rattle.vx_tree.specs.Values.{bytes_in};
ghost use Rattle.vx_pack.specs.Lists.{IsItemOf};
ghost use Rattle.vx_pack.specs.Packed.{bytes_of_numbers, has_bytes, items_or_blank, number_or_zero};
ghost use Rattle.vx_pack.specs.Pieces.{AreJoined, IsFieldPiece, IsListPiece, IsPiece, IsWithinPiece, blank_of, piece_len, piece_row, piece_rows};
ghost use Rattle.vx_pack.specs.Records.{kind_at};
ghost use Rattle.vx_pack.specs.StoredLists.{AreListBytes, AreStoredLists};
ghost use Rattle.vx_pack.specs.StoredNumbers.{AreStoredNumbers};

use crate::parts::Part;
use crate::stored_lists::StoredLists;
use crate::stored_numbers::StoredNumbers;
use std::alloc::Global;
use vx_base::{PType, StructFields, VortexError};

// Rows, one after another.
#[derive(Clone, Copy)]
pub(crate) enum Piece<'a> {
    // Those of a part of a column.
    Rows(Part<'a>),
    // So many default rows.
    Blank(usize),
}

impl<'a> Piece<'a> {
    // How many rows there are.
    #[inline(always)]
    pub fn len(self) -> usize
        ensures { result ≡ piece_len self.entry }
    {
        match self {
            Piece::Rows(part) => part.len(),
            Piece::Blank(len) => len,
        }
    }

    // The truth value that row `i` is, false where it is null.
    pub fn truth_or_false(self, i: usize) -> bool
        requires within { IsWithinPiece self }
        requires in_bounds { i < piece_len self }
        ensures { (k : Kind) → result ≡ truth_of (piece_row k self.entry i) }
    {
        match self {
            Piece::Rows(part) => part.truth(i).unwrap_or(false),
            Piece::Blank(_) => false,
        }
    }

    // The number that row `i` is, 0 where it is null.
    pub fn number_or_zero(self, ptype: PType, i: usize) -> i128
        requires piece { (n : Bool) × IsPiece (integers ptype n) self }
        requires in_bounds { i < piece_len self }
        ensures { (n : Bool) → IsPiece (integers ptype n) self.entry →
            (result ≡ number_or_zero (piece_row (integers ptype n) self.entry i)) × Holds ptype result }
    {
        match self {
            Piece::Rows(part) => part.number(i).unwrap_or(0),
            Piece::Blank(_) => 0,
        }
    }

    // The bytes of the numbers, where they stand one after another and none is null.
    #[inline(always)]
    pub fn number_bytes(self, ptype: PType) -> Option<&'a [u8]>
        requires { (n : Bool) × IsPiece (integers ptype n) self }
        ensures { (n : Bool) → IsPiece (integers ptype n) self.entry → IfSome result (λ bytes.
            bytes.now ≡ bytes_of_numbers ptype (map number_or_zero (piece_rows (integers ptype n) self.entry))) }
    {
        match self {
            Piece::Rows(part) => part.number_bytes(ptype),
            Piece::Blank(_) => None,
        }
    }

    // The numbers as they stand, and the bits that tell which of them are there.
    pub fn stored_numbers(self, ptype: PType) -> Option<StoredNumbers<'a>>
        requires { (n : Bool) × IsPiece (integers ptype n) self }
        ensures { IfSome result (λ s. (n : Bool) → IsPiece (integers ptype n) self.entry →
            AreStoredNumbers ptype (map number_or_zero (piece_rows (integers ptype n) self.entry)) s) }
    {
        match self {
            Piece::Rows(part) => part.stored_numbers(ptype),
            Piece::Blank(_) => None,
        }
    }

    // The bytes of row `i`, where it is a text or a byte list. Null may stand among default rows
    // where that is said.
    pub fn bytes(self, i: usize, is_nullable: bool) -> Option<&'a [u8]>
        requires within { IsWithinPiece self }
        requires in_bounds { i < piece_len self }
        ensures { (k : Kind) → has_bytes k ≡ true → is_nullable_kind k ≡ is_nullable →
            option_map (λ b. b.now) result ≡ bytes_in (piece_row k self.entry i) }
    {
        match self {
            Piece::Rows(part) => part.bytes(i),
            Piece::Blank(_) if is_nullable => None,
            Piece::Blank(_) => Some(&[]),
        }
    }

    // Whether row `i` is not null, where null may stand.
    pub fn is_present(self, alloc: Global, i: usize) -> Result<bool, VortexError>
        requires within { IsWithinPiece self }
        requires in_bounds { i < piece_len self }
        ensures { Gives result (λ b. (k : Kind) → is_nullable_kind k ≡ true →
            b ≡ is_present (piece_row k self.entry i)) }
    {
        match self {
            Piece::Rows(part) => part.is_present(alloc, i),
            Piece::Blank(_) => Ok(false),
        }
    }

    // Whether the layout tells that all rows are there, or that all are null, where null may stand.
    pub fn presence(self) -> Option<bool>
        ensures { IfSome result (λ b. (k : Kind) (i : ℕ) → is_nullable_kind k ≡ true →
            is_present (piece_row k self.entry i) ≡ b) }
    {
        match self {
            Piece::Rows(part) => part.presence(),
            Piece::Blank(_) => Some(false),
        }
    }

    // The rows of the list that row `i` is, so many default rows where it is null.
    #[inline(always)]
    pub fn list_or_blank(self, i: usize, blank: usize) -> Piece<'a>
        requires within { IsWithinPiece self }
        requires in_bounds { i < piece_len self }
        ensures { (item k : Kind) → IsItemOf item k → blank_of k ≡ blank → IsPiece k self.entry →
            IsListPiece item blank (piece_row k self.entry i) result }
    {
        match self {
            Piece::Rows(part) => match part.list(i) {
                Some(list) => Piece::Rows(list),
                None => Piece::Blank(blank),
            },
            Piece::Blank(_) => Piece::Blank(blank),
        }
    }

    // The lists that the rows are, where offsets and sizes stand as numbers and no row is null.
    pub fn stored_lists(self) -> Option<StoredLists<'a>>
        requires { IsWithinPiece self }
        ensures bytes { IfSome result (λ s. AreListBytes s.offset_type s.offsets.now s.size_type s.sizes.now
            (tree_len s.elements.now)) }
        ensures lists { IfSome result (λ s. (item k : Kind) → IsItemOf item k → IsPiece k self.entry →
            AreStoredLists item (piece_rows k self.entry) s) }
    {
        match self {
            Piece::Rows(part) => part.stored_lists(),
            Piece::Blank(_) => None,
        }
    }

    // The items of all rows, where these are lists that stand end to end and none is null.
    pub fn joined_items(self) -> Option<Piece<'a>>
        requires { IsWithinPiece self }
        ensures { IfSome result (λ p. (item k : Kind) (blank : ℕ) → IsItemOf item k → blank_of k ≡ blank → IsPiece k self.entry →
            AreJoined item (flat_map (items_or_blank item blank) (piece_rows k self.entry)) (p ∷ [])) }
    {
        match self {
            Piece::Rows(part) => Some(Piece::Rows(part.joined_items()?)),
            Piece::Blank(_) => None,
        }
    }

    // The field at a place of the record that row `i` is, a default row where it is null.
    pub fn field_or_blank(self, fields: &StructFields, i: usize, place: usize) -> Piece<'a>
        requires place { place < length (field_names fields.now) }
        requires piece { (n : Bool) × IsPiece (records (field_names fields.now) (field_kinds fields.now) n) self }
        requires in_bounds { i < piece_len self }
        ensures { let kind = records (field_names fields.now) (field_kinds fields.now) in
            (n : Bool) → IsPiece (kind n) self.entry →
            IsFieldPiece (kind_at place (field_kinds fields.now)) place (piece_row (kind n) self.entry i) result }
    {
        match self {
            Piece::Rows(part) => match part.record(i) {
                Some(record) => Piece::Rows(record.field(place)),
                None => Piece::Blank(1),
            },
            Piece::Blank(_) => Piece::Blank(1),
        }
    }
}
