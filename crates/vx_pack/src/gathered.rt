// Values of rows that are packed, while they are put into a column.

ghost use Rattle.std.specs.Prelude.{◌≡◌, ◌<◌, ◌+◌, ◌++◌, ◌/◌, ◌^◌, [], Bool, List, length, map, sum, true, IfErr, IfOk};
ghost use Rattle.std.specs.List.{flat_map};
ghost use Rattle.vx_base.specs.DTypes.{dtype_meaning};
ghost use Rattle.vx_base.specs.Integers.{byte_width};
ghost use Rattle.vx_base.specs.Kinds.{Kind, integers, is_nullable_kind};
ghost use Rattle.vx_base.specs.Refusals.{Gives};
ghost use Rattle.vx_base.specs.Rows.{Row, is_present};
ghost use Rattle.vx_tree.specs.Parts.{valid_of};
ghost use Rattle.vx_pack.specs.Gathered.{AreGathered, AreThere, AreValues, is_leaf};
ghost use Rattle.vx_pack.specs.Packed.{IsPackRefused, IsPacked, bytes_of_numbers, number_or_zero, packed_valid};
ghost use Rattle.vx_pack.specs.Pieces.{IsPiece, piece_len, piece_rows};
ghost use Rattle.vx_base.specs.Selections.{bytes_of_position};
ghost use Rattle.vx_pack.specs.StoredLists.{AreListBytes, all_positions, stored_sizes, stored_starts};

use crate::count_bytes::sum_of_counts;
use crate::exact_bits::ExactBits;
use crate::list_runs::extend_with_lists;
use crate::packed_bits::{push_present, push_same, push_truths};
use crate::packed_numbers::push_numbers;
use crate::packed_texts::{finished_texts, push_texts};
use crate::pieces::Piece;
use crate::stored_lists::StoredLists;
use std::alloc::Global;
use std::mem;
use vx_base::{BitBufferMut, ByteBuffer, DType, Nullability, PType, VortexError};
use vx_text::Filling;
use vx_tree::{ArrayRef, Validity};

// Values of rows, false, 0 or no bytes where they are null.
#[derive(Drop)]
pub(crate) enum Leaf {
    Truths(BitBufferMut),
    Numbers(PType, Vec<u8>),
    Texts(Filling),
}

// A column of values, while rows are put at its end.
#[derive(Drop)]
pub(crate) struct Gathered {
    leaf: Leaf,
    // Which rows are there, where null may stand.
    present: BitBufferMut,
}

impl Leaf {
    // No values, and room for so many.
    fn with_capacity(alloc: Global, dtype: &DType, len: usize) -> Result<Leaf, VortexError>
        requires { is_leaf (dtype_meaning dtype.now) ≡ true }
        ensures { Gives result (AreValues (dtype_meaning dtype.now) []) }
    {
        match dtype {
            DType::Bool(_) => Ok(Leaf::Truths(BitBufferMut::with_capacity(alloc, len)?)),
            DType::Primitive(ptype, _) => {
                let room = len.saturating_mul(ptype.byte_width());
                Ok(Leaf::Numbers(*ptype, Vec::with_capacity(alloc, room)?))
            }
            DType::Utf8(_) | DType::Binary(_) => {
                Ok(Leaf::Texts(Filling::with_capacity(alloc, len, 0)?))
            }
            DType::List(_, _) | DType::FixedSizeList(_, _, _) | DType::Struct(_, _) => {
                unreachable!()
            }
        }
    }

    // The values of a piece, after the others.
    #[inline(always)]
    fn push(&mut self, alloc: Global, dtype: &DType, piece: Piece) -> Result<(), VortexError>
        requires piece { IsPiece (dtype_meaning dtype.now) piece }
        requires rows { (rs : List Row) × AreValues (dtype_meaning dtype.now) rs self.old
            × (length rs + piece_len piece < 2 ^ 64) }
        ensures { let kind = dtype_meaning dtype.now in
            Gives result (λ _. (rs : List Row) → AreValues kind rs self.old
            → AreValues kind (rs ++ piece_rows kind piece.entry) self.new) }
    {
        match self {
            Leaf::Truths(bits) => push_truths(alloc, bits, dtype, piece),
            Leaf::Numbers(ptype, bytes) => push_numbers(bytes, *ptype, piece),
            Leaf::Texts(texts) => push_texts(alloc, texts, dtype, piece),
        }
    }
}

impl Gathered {
    // No rows, and room for so many.
    pub fn with_capacity(alloc: Global, dtype: &DType, len: usize) -> Result<Gathered, VortexError>
        requires { is_leaf (dtype_meaning dtype.now) ≡ true }
        ensures { Gives result (AreGathered (dtype_meaning dtype.now) []) }
    {
        let room = if dtype.is_nullable() { len } else { 0 };
        let present = BitBufferMut::with_capacity(alloc, room)?;
        let leaf = Leaf::with_capacity(alloc, dtype, len)?;
        Ok(Gathered { leaf, present })
    }

    // The same rows, and room for so many bytes in a buffer.
    pub fn reserve_bytes(&mut self, bytes: usize) -> Result<(), VortexError>
        ensures { Gives result (λ _. (kind : Kind) (rs : List Row) → AreGathered kind rs self.old
            → AreGathered kind rs self.new) }
    {
        match &mut self.leaf {
            Leaf::Texts(texts) => Ok(texts.last.reserve(bytes)?),
            Leaf::Truths(_) | Leaf::Numbers(_, _) => Ok(()),
        }
    }

    // The rows of a piece, after the others.
    #[inline(always)]
    pub fn push(&mut self, alloc: Global, dtype: &DType, piece: Piece) -> Result<(), VortexError>
        requires piece { IsPiece (dtype_meaning dtype.now) piece }
        requires rows { (rs : List Row) × AreGathered (dtype_meaning dtype.now) rs self.old
            × (length rs + piece_len piece < 2 ^ 64) }
        ensures { let kind = dtype_meaning dtype.now in
            Gives result (λ _. (rs : List Row) → AreGathered kind rs self.old
            → AreGathered kind (rs ++ piece_rows kind piece.entry) self.new) }
    {
        self.leaf.push(alloc, dtype, piece)?;
        if dtype.is_nullable() {
            push_present(alloc, &mut self.present, dtype, piece)?;
        }
        Ok(())
    }

    // The numbers of lists, none of them null, after the others: by the bytes of the elements.
    pub fn push_list_numbers(
        &mut self,
        alloc: Global,
        dtype: &DType,
        ptype: PType,
        elements: &[u8],
        lists: StoredLists,
    ) -> Result<(), VortexError>
        requires kind { (n : Bool) × (dtype_meaning dtype.now ≡ integers ptype n) }
        requires lists { AreListBytes lists.offset_type lists.offsets.now lists.size_type lists.sizes.now
            (length elements.now / byte_width ptype) }
        requires rows { (rs : List Row) × AreGathered (dtype_meaning dtype.now) rs self.old
            × (length rs + sum (stored_sizes lists) < 2 ^ 64) }
        ensures { let kind = dtype_meaning dtype.now in
            let made = flat_map (bytes_of_position (byte_width ptype) elements.now)
            (all_positions (stored_starts lists.entry) (stored_sizes lists.entry)) in
            Gives result (λ _. (rs more : List Row) → AreGathered kind rs self.old → AreThere kind (sum (stored_sizes lists.entry)) more
            → made ≡ bytes_of_numbers ptype (map number_or_zero more) → AreGathered kind (rs ++ more) self.new) }
    {
        match &mut self.leaf {
            Leaf::Numbers(_, bytes) => {
                let before = mem::replace(bytes, Vec::new(alloc));
                *bytes = extend_with_lists(before, ptype, elements, lists)?;
            }
            Leaf::Truths(_) | Leaf::Texts(_) => unreachable!(),
        }
        if dtype.is_nullable() {
            let count = sum_of_counts(lists.size_type, lists.sizes);
            push_same(&mut self.present, true, count)?;
        }
        Ok(())
    }

    // The column.
    pub fn finish(self, alloc: Global, dtype: &DType) -> Result<ArrayRef, VortexError>
        requires { (rs : List Row) × AreGathered (dtype_meaning dtype.now) rs self }
        ensures ok { let kind = dtype_meaning dtype.now in
            (rs : List Row) → AreGathered kind rs self → IfOk result (IsPacked kind rs) }
        ensures err { let kind = dtype_meaning dtype.now in
            (rs : List Row) → AreGathered kind rs self → IfErr result (IsPackRefused kind rs) }
    {
        let Gathered { leaf, present } = self;
        let validity = validity_from(alloc, dtype, present)?;
        match leaf {
            Leaf::Truths(bits) => {
                let bits = ExactBits::of(alloc, bits)?.into_buffer(alloc)?;
                ArrayRef::bools(alloc, bits, validity)
            }
            Leaf::Numbers(ptype, bytes) => {
                let bytes = ByteBuffer::from_vec(alloc, bytes)?;
                ArrayRef::primitive(alloc, ptype, bytes, validity)
            }
            Leaf::Texts(texts) => finished_texts(alloc, dtype, texts, validity),
        }
    }
}

// The simplest validity of rows of which bits tell which are there.
fn validity_from(
    alloc: Global,
    dtype: &DType,
    present: BitBufferMut,
) -> Result<Validity, VortexError>
    ensures { let kind = dtype_meaning dtype.now in
        Gives result (λ v. (rs : List Row) → (is_nullable_kind kind ≡ true → present ≡ map is_present rs)
        → valid_of v ≡ packed_valid (is_nullable_kind kind) rs) }
{
    match dtype.nullability() {
        Nullability::NonNullable => Ok(Validity::NonNullable),
        Nullability::Nullable => {
            let present = ExactBits::of(alloc, present)?.into_buffer(alloc)?;
            Validity::from_buffer(alloc, present)
        }
    }
}
