// Arrays of one row, however often.

ghost use Rattle.std.specs.Prelude.{◌≡◌, true};
ghost use Rattle.vx_base.specs.Refusals.{Gives};
ghost use Rattle.vx_tree.specs.Tree.{constant};
ghost use Rattle.vx_leaves.specs.Leaves.{is_constant, scalar_in};

use std::alloc::Global;
use std::fmt;
use std::marker::Model;
use vx_base::{Scalar, ScalarValue, VortexError};
use vx_tree::{ArrayRef, Layout, TypedArray};

/// An array of one row, however often. Nothing is repeated in memory.
#[derive(Drop)]
pub struct ConstantArray {
    array: ArrayRef,
}

impl Model for ConstantArray {
    ghost use Rattle.std.specs.Prelude.{◌≡◌, true};
    ghost use Rattle.vx_tree.specs.Tree.{Tree, tree_code};
    ghost use Rattle.vx_leaves.specs.Leaves.{is_constant};

    ghost Value = { Tree };

    ghost coded = { tree_code };

    ghost view = { λ a. a.array };

    ghost invariant = { λ a. is_constant a.array ≡ true };
}

impl ConstantArray {
    /// The row `len` times. Fails only for want of memory.
    pub fn new(alloc: Global, scalar: Scalar, len: usize) -> Result<ConstantArray, VortexError>
        ensures { Gives result (λ a. a ≡ constant scalar.kind scalar.row len) }
    {
        let array = ArrayRef::constant(alloc, scalar, len)?;
        Ok(ConstantArray { array })
    }

    /// The row with its data type, apart from how often it stands. Fails only for want of memory.
    pub fn to_data(&self, alloc: Global) -> Result<ConstantData, VortexError>
        ensures { Gives result (λ d. d ≡ scalar_in self.now) }
    {
        let Layout::Constant { scalar, .. } = self.as_array().layout() else {
            unreachable!();
        };
        Ok(ConstantData::new(scalar.try_clone(alloc)?))
    }
}

impl TypedArray for ConstantArray {
    ghost as_tree = { λ a. a };

    ghost has_layout = { is_constant };

    fn is_layout(layout: &Layout) -> bool {
        matches!(layout, Layout::Constant { .. })
    }

    fn from_array(array: ArrayRef) -> Self {
        ConstantArray { array }
    }

    fn as_array(&self) -> &ArrayRef {
        &self.array
    }

    fn into_array(self) -> ArrayRef {
        let ConstantArray { array } = self;
        array
    }
}

/// The row of a constant array, with its data type.
#[derive(Drop)]
pub struct ConstantData {
    scalar: Scalar,
}

impl Model for ConstantData {
    ghost use Rattle.vx_base.specs.Scalars.{TypedRow, coded_typed_row};

    ghost Value = { TypedRow };

    ghost coded = { coded_typed_row };

    ghost view = { λ d. d.scalar };
}

impl ConstantData {
    /// The data of an array of this row.
    pub fn new(scalar: Scalar) -> ConstantData
        ensures { result ≡ scalar }
    {
        ConstantData { scalar }
    }

    /// The row, with its data type.
    pub fn scalar(&self) -> &Scalar
        ensures { result.now ≡ self.now }
    {
        &self.scalar
    }

    /// The row, with its data type.
    pub fn into_parts(self) -> Scalar
        ensures { result ≡ self }
    {
        let ConstantData { scalar } = self;
        scalar
    }

    /// The same data, its parts shared. Fails only for want of memory.
    pub fn try_clone(&self, alloc: Global) -> Result<ConstantData, VortexError>
        ensures { Gives result (λ d. d ≡ self.now) }
    {
        let scalar = self.scalar.try_clone(alloc)?;
        Ok(ConstantData { scalar })
    }
}

impl fmt::Debug for ConstantData {
    fn fmt<W: fmt::Write>(&self, f: &mut fmt::Formatter<W>) -> fmt::Result {
        match self.scalar.value() {
            None => f.write_str("ConstantData { scalar: null }"),
            Some(ScalarValue::Bool(truth)) => {
                let truth = *truth;
                write!(f, "ConstantData {{ scalar: {truth} }}")
            }
            Some(ScalarValue::Int(number)) => {
                let number = *number;
                write!(f, "ConstantData {{ scalar: {number} }}")
            }
            Some(ScalarValue::Bytes(bytes)) => {
                let bytes = bytes.as_slice();
                write!(f, "ConstantData {{ scalar: {bytes:?} }}")
            }
            Some(ScalarValue::Text(text)) => {
                let text = text.as_slice();
                write!(f, "ConstantData {{ scalar: {text:?} }}")
            }
            Some(ScalarValue::List(_)) => f.write_str("ConstantData { scalar: [..] }"),
            Some(ScalarValue::Record(_)) => f.write_str("ConstantData { scalar: {..} }"),
        }
    }
}
