// One row with its data type.

ghost use Rattle.std.specs.Prelude.{◌≡◌, ◌↔◌, IsTrue, IfOk, IfErr};
ghost use Rattle.vx_base.specs.Refusals.{Gives};
ghost use Rattle.vx_base.specs.Defaults.{default_row};
ghost use Rattle.vx_base.specs.Rows.{null, boolean, whole, is_present, number_in, truth_of};
ghost use Rattle.vx_base.specs.Kinds.{booleans, integers, is_nullable_kind, Fits};
ghost use Rattle.vx_base.specs.Integers.{Holds};
ghost use Rattle.vx_base.specs.DTypes.{dtype_meaning, is_nullable};
ghost use Rattle.vx_base.specs.ValueRows.{row_under};
ghost use Rattle.vx_base.specs.Scalars.{typed_row};
ghost use Rattle.vx_base.specs.declared.errors.VortexError.TheVariants.{MismatchedTypes};

use crate::default_value::default_of;
use crate::dtypes::DType;
use crate::errors::VortexError;
use crate::nullability::Nullability;
use crate::ptypes::PType;
use crate::scalar_value::{ScalarValue, fits, share_value};
use std::alloc::Global;
use std::marker::Model;

/// One row with its data type, which it fits.
#[derive(Drop)]
pub struct Scalar {
    dtype: DType,
    value: Option<ScalarValue>,
}

impl Model for Scalar {
    ghost use Rattle.vx_base.specs.Kinds.{Fits};
    ghost use Rattle.vx_base.specs.DTypes.{dtype_meaning};
    ghost use Rattle.vx_base.specs.ValueRows.{row_under};
    ghost use Rattle.vx_base.specs.Scalars.{TypedRow, coded_typed_row, typed_row};

    ghost Value = { TypedRow };

    ghost coded = { coded_typed_row };

    ghost view = { λ s. typed_row (dtype_meaning s.dtype) (row_under (dtype_meaning s.dtype) s.value) };

    ghost invariant = { λ s. Fits (dtype_meaning s.dtype) (row_under (dtype_meaning s.dtype) s.value) };
}

impl Scalar {
    /// The row that a value is, `None` for null, with its data type. Records take the names of the
    /// data type. Refuses with `MismatchedTypes` just where the row does not fit the data type: it
    /// is of another kind, null where none may be, a number out of range, a list of another size
    /// than the fixed one, a record with another number of fields, a text that is not UTF-8, a
    /// text or a byte list longer than `MAX_VALUE_LEN`, or a row within it does not fit.
    pub fn try_new(dtype: DType, value: Option<ScalarValue>) -> Result<Scalar, VortexError>
        ensures row { IfOk result (λ s. s ≡ typed_row (dtype_meaning dtype) (row_under (dtype_meaning dtype) value)) }
        ensures fits { IfOk result (λ _. Fits (dtype_meaning dtype) (row_under (dtype_meaning dtype) value)) }
        ensures refused { IfErr result (λ e. (e ≡ MismatchedTypes)
            × ¬ Fits (dtype_meaning dtype) (row_under (dtype_meaning dtype) value)) }
    {
        if fits(&dtype, &value) {
            Ok(Scalar { dtype, value })
        } else {
            Err(VortexError::MismatchedTypes)
        }
    }

    /// The scalar of a value whose row is known to fit, which is not tested again. Asks that it
    /// fits.
    pub fn new(dtype: DType, value: Option<ScalarValue>) -> Scalar
        requires { Fits (dtype_meaning dtype) (row_under (dtype_meaning dtype) value) }
        ensures { result ≡ typed_row (dtype_meaning dtype) (row_under (dtype_meaning dtype) value) }
    {
        Scalar { dtype, value }
    }

    /// The row of a data type where none is given: null where it may stand, and else false, 0, an
    /// empty text, byte list or list, a list of defaults of the fixed size, or a record of
    /// defaults. Fails only for want of memory.
    pub fn default_value(alloc: Global, dtype: DType) -> Result<Scalar, VortexError>
        ensures { Gives result (λ s. s ≡ typed_row (dtype_meaning dtype) (default_row (dtype_meaning dtype))) }
    {
        let value = default_of(alloc, &dtype)?;
        Ok(Scalar { dtype, value })
    }

    /// Null of a data type. Asks that null may stand under it.
    pub fn null(dtype: DType) -> Scalar
        requires { IsTrue (is_nullable_kind (dtype_meaning dtype)) }
        ensures { result ≡ typed_row (dtype_meaning dtype) null }
    {
        Scalar { dtype, value: None }
    }

    /// A truth value.
    pub fn bool(value: bool, nullability: Nullability) -> Scalar
        ensures { result ≡ typed_row (booleans (is_nullable nullability)) (boolean value) }
    {
        Scalar {
            dtype: DType::Bool(nullability),
            value: Some(ScalarValue::Bool(value)),
        }
    }

    /// A whole number of a type. Asks that the type has it.
    pub fn int(value: i128, ptype: PType, nullability: Nullability) -> Scalar
        requires { Holds ptype value }
        ensures { result ≡ typed_row (integers ptype (is_nullable nullability)) (whole value) }
    {
        Scalar {
            dtype: DType::Primitive(ptype, nullability),
            value: Some(ScalarValue::Int(value)),
        }
    }

    /// The data type, which the row fits.
    pub fn dtype(&self) -> &DType
        ensures value { dtype_meaning result.now ≡ self.now.kind }
        ensures fits { Fits self.now.kind self.now.row }
    {
        &self.dtype
    }

    /// The value, `None` where the row is null.
    pub fn value(&self) -> &Option<ScalarValue>
        ensures { row_under self.now.kind result.now ≡ self.now.row }
    {
        &self.value
    }

    /// Whether the row is not null.
    pub fn is_valid(&self) -> bool
        ensures { result ≡ is_present self.now.row }
    {
        self.value.is_some()
    }

    /// Whether the row is null.
    pub fn is_null(&self) -> bool
        ensures { IsTrue result ↔ (self.now.row ≡ null) }
    {
        self.value.is_none()
    }

    /// The number, where the row is one.
    pub fn as_int(&self) -> Option<i128>
        ensures { result ≡ number_in self.now.row }
    {
        match &self.value {
            Some(ScalarValue::Int(number)) => Some(*number),
            _ => None,
        }
    }

    /// The truth value, false where the row is none.
    pub fn as_bool(&self) -> bool
        ensures { result ≡ truth_of self.now.row }
    {
        match &self.value {
            Some(ScalarValue::Bool(truth)) => *truth,
            _ => false,
        }
    }

    /// The same row, its parts shared. Fails only for want of memory.
    pub fn try_clone(&self, alloc: Global) -> Result<Scalar, VortexError>
        ensures { Gives result (λ s. s ≡ self.now) }
    {
        let dtype = self.dtype.try_clone(alloc)?;
        let value = share_value(alloc, &self.value)?;
        Ok(Scalar { dtype, value })
    }
}
