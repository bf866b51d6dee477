// Texts and byte lists that layouts hold by their views.

ghost use Rattle.std.specs.Prelude.{◌≡◌, ◌≤◌, ◌+◌, length, true, IfSome};
ghost use Rattle.vx_base.specs.Kinds.{Kind};
ghost use Rattle.vx_pack.specs.Packed.{has_bytes};
ghost use Rattle.vx_pack.specs.Parts.{IsWithin};
ghost use Rattle.vx_pack.specs.Pieces.{IsPiece, IsWithinPiece};
ghost use Rattle.vx_pack.specs.StoredTexts.{AreFullTexts, AreStoredTexts, AreValuesIn, IsRangeOf};

use crate::parts::Part;
use crate::pieces::Piece;
use crate::truths::is_full;
use vx_base::ByteBuffer;
use vx_tree::Layout;
use vx_views::BinaryView;

// The view of each row, and the buffers that views refer to.
#[derive(Clone, Copy)]
pub(crate) struct StoredTexts<'a> {
    pub views: &'a [BinaryView],
    pub buffers: &'a [ByteBuffer],
    // Whether the state alone says that no row is null.
    pub is_full: bool,
}

impl<'a> StoredTexts<'a> {
    // So many of them, from one on.
    pub fn range(self, start: usize, len: usize) -> StoredTexts<'a>
        requires { start + len ≤ length self.views.now }
        ensures { IsRangeOf self.entry start len result }
    {
        StoredTexts {
            views: &self.views[start..start + len],
            ..self
        }
    }
}

impl<'a> Part<'a> {
    // The views, where the rows stand so.
    pub fn stored_texts(self) -> Option<StoredTexts<'a>>
        requires { IsWithin self }
        ensures { IfSome result (AreStoredTexts self.entry) }
    {
        let Part::Array(array, start, len) = self else {
            return None;
        };
        let Layout::VarBinView {
            views,
            buffers,
            validity,
            ..
        } = array.layout()
        else {
            return None;
        };
        Some(StoredTexts {
            views: &views.as_slice()[start..start + len],
            buffers,
            is_full: is_full(validity),
        })
    }

    // The views, where the rows stand so and none is null.
    pub fn full_texts(self) -> Option<StoredTexts<'a>>
        requires { IsWithin self }
        ensures { IfSome result (AreFullTexts self.entry) }
    {
        let stored = self.stored_texts()?;
        if stored.is_full { Some(stored) } else { None }
    }
}

impl<'a> Piece<'a> {
    // The views of a piece, where its rows stand so.
    pub fn stored_texts(self) -> Option<StoredTexts<'a>>
        requires { IsWithinPiece self }
        ensures { IfSome result (λ s. (k : Kind) → has_bytes k ≡ true → IsPiece k self.entry → AreValuesIn k self.entry s) }
    {
        match self {
            Piece::Rows(part) => part.stored_texts(),
            Piece::Blank(_) => None,
        }
    }
}
