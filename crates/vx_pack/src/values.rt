// What a value is.

ghost use Rattle.std.specs.Prelude.{◌≡◌, None, map, option_map, MatchOption};
ghost use Rattle.vx_base.specs.Kinds.{Kind};
ghost use Rattle.vx_base.specs.Rows.{items, list_in, number_in, record_of, rows_from};
ghost use Rattle.vx_base.specs.ValueRows.{option_row, row_under, unnamed};
ghost use Rattle.vx_tree.specs.Values.{bytes_in};
ghost use Rattle.vx_pack.specs.RowForms.{record_in, truth_in};

use vx_base::ScalarValue;

// The truth value that a value is, where it is one.
#[tactic(auto, using(crate::proofs::RowForms::named_truth))]
pub(crate) fn truth_of(value: &Option<ScalarValue>) -> Option<bool>
    ensures { (k : Kind) → result ≡ truth_in (row_under k value.now) }
{
    match value {
        Some(ScalarValue::Bool(truth)) => Some(*truth),
        _ => None,
    }
}

// The number that a value is, where it is one.
#[tactic(auto, using(crate::proofs::RowForms::named_number))]
pub(crate) fn number_of(value: &Option<ScalarValue>) -> Option<i128>
    ensures { (k : Kind) → result ≡ number_in (row_under k value.now) }
{
    match value {
        Some(ScalarValue::Int(number)) => Some(*number),
        _ => None,
    }
}

// The bytes of a value that is a text or a byte list.
#[tactic(auto, using(crate::proofs::RowForms::named_bytes))]
pub(crate) fn bytes_of(value: &Option<ScalarValue>) -> Option<&[u8]>
    ensures { (k : Kind) → option_map (λ b. b.now) result ≡ bytes_in (row_under k value.now) }
{
    match value {
        Some(ScalarValue::Bytes(bytes)) => Some(bytes.as_slice()),
        Some(ScalarValue::Text(bytes)) => Some(bytes.as_slice()),
        _ => None,
    }
}

// The rows of a value that is a list.
pub(crate) fn items_of(value: &Option<ScalarValue>) -> Option<&[Option<ScalarValue>]>
    ensures { MatchOption result (list_in (option_row value.now) ≡ None)
        (λ values. option_row value.now ≡ items (rows_from (map option_row values.now))) }
{
    match value {
        Some(ScalarValue::List(values)) => Some(values.as_slice()),
        _ => None,
    }
}

// The fields of a value that is a record.
pub(crate) fn fields_of(value: &Option<ScalarValue>) -> Option<&[Option<ScalarValue>]>
    ensures { MatchOption result (record_in (option_row value.now) ≡ None)
        (λ values. option_row value.now ≡ record_of (unnamed (rows_from (map option_row values.now)))) }
{
    match value {
        Some(ScalarValue::Record(values)) => Some(values.as_slice()),
        _ => None,
    }
}
