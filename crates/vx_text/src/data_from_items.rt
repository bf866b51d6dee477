// The data of the arrays of the texts and byte lists that iterators give.

ghost use Rattle.std.specs.Prelude.{true, false, IfOk, IfErr};
ghost use Rattle.std.specs.Iterator.{IsFinite};
ghost use Rattle.vx_base.specs.DTypes.{dtype_meaning};
ghost use Rattle.vx_base.specs.Kinds.{texts, binaries};
ghost use Rattle.vx_text.specs.Collected.{some_value, maybe_value, IsCollectedData, AreRefused};

use crate::var_bin_view::VarBinViewArray;
use crate::var_bin_view_data::VarBinViewData;
use std::alloc::Global;
use vx_base::{DType, VortexError};

impl VarBinViewData {
    /// The data of the array that `VarBinViewArray::from_iter` makes of the items; it refuses as
    /// that does.
    pub fn from_iter<'a, I: Iterator<Item = Option<&'a [u8]>> + Drop>(
        alloc: Global,
        items: I,
        dtype: DType,
    ) -> Result<VarBinViewData, VortexError>
        requires can { I.can_next items }
        requires ends { IsFinite (I.remaining items) }
        ensures ok { IfOk result
            (IsCollectedData I.next_gives items maybe_value (dtype_meaning dtype)) }
        ensures err { IfErr result
            (AreRefused I.next_gives items maybe_value (dtype_meaning dtype)) }
    {
        VarBinViewArray::from_iter(alloc, items, dtype)?.to_data(alloc)
    }

    /// The data of the array that `VarBinViewArray::from_iter_str` makes of these texts; it refuses
    /// as that does.
    pub fn from_iter_str<'a, I: Iterator<Item = &'a str> + Drop>(
        alloc: Global,
        items: I,
    ) -> Result<VarBinViewData, VortexError>
        requires can { I.can_next items }
        requires ends { IsFinite (I.remaining items) }
        ensures ok { IfOk result (IsCollectedData I.next_gives items some_value (texts false)) }
        ensures err { IfErr result (AreRefused I.next_gives items some_value (texts false)) }
    {
        VarBinViewArray::from_iter_str(alloc, items)?.to_data(alloc)
    }

    /// The data of the array that `VarBinViewArray::from_iter_nullable_str` makes of these texts;
    /// it refuses as that does.
    pub fn from_iter_nullable_str<'a, I: Iterator<Item = Option<&'a str>> + Drop>(
        alloc: Global,
        items: I,
    ) -> Result<VarBinViewData, VortexError>
        requires can { I.can_next items }
        requires ends { IsFinite (I.remaining items) }
        ensures ok { IfOk result (IsCollectedData I.next_gives items maybe_value (texts true)) }
        ensures err { IfErr result (AreRefused I.next_gives items maybe_value (texts true)) }
    {
        VarBinViewArray::from_iter_nullable_str(alloc, items)?.to_data(alloc)
    }

    /// The data of the array that `VarBinViewArray::from_iter_bin` makes of these byte lists; it
    /// refuses as that does.
    pub fn from_iter_bin<'a, I: Iterator<Item = &'a [u8]> + Drop>(
        alloc: Global,
        items: I,
    ) -> Result<VarBinViewData, VortexError>
        requires can { I.can_next items }
        requires ends { IsFinite (I.remaining items) }
        ensures ok { IfOk result (IsCollectedData I.next_gives items some_value (binaries false)) }
        ensures err { IfErr result (AreRefused I.next_gives items some_value (binaries false)) }
    {
        VarBinViewArray::from_iter_bin(alloc, items)?.to_data(alloc)
    }

    /// The data of the array that `VarBinViewArray::from_iter_nullable_bin` makes of these byte
    /// lists; it refuses as that does.
    pub fn from_iter_nullable_bin<'a, I: Iterator<Item = Option<&'a [u8]>> + Drop>(
        alloc: Global,
        items: I,
    ) -> Result<VarBinViewData, VortexError>
        requires can { I.can_next items }
        requires ends { IsFinite (I.remaining items) }
        ensures ok { IfOk result (IsCollectedData I.next_gives items maybe_value (binaries true)) }
        ensures err { IfErr result (AreRefused I.next_gives items maybe_value (binaries true)) }
    {
        VarBinViewArray::from_iter_nullable_bin(alloc, items)?.to_data(alloc)
    }
}
