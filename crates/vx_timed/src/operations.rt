// The operations by name.

mod arrays;
mod bits;
mod encodings;
mod lists;
mod numbers;
mod packed;
mod records;
mod runs;
mod texts;
mod trees;
mod validities;
mod views;

use crate::fault::Fault;
use crate::operation::Bench;

// The names of the operations.
const OPERATIONS: [&str; 113] = [
    "rebuild_in_order",
    "rebuild_at_random",
    "rebuild_in_order_null",
    "rebuild_at_random_null",
    "rebuild_long_lists",
    "rebuild_lists_of_texts",
    "rebuild_lists_of_lists",
    "take_numbers",
    "take_bools",
    "take_list_view",
    "take_views",
    "take_fixed_lists",
    "take_records",
    "take_dictionary",
    "take_constant",
    "take_short_runs",
    "take_long_runs",
    "filter_numbers",
    "filter_bools",
    "filter_list_view",
    "filter_views",
    "filter_fixed_lists",
    "filter_records",
    "filter_dictionary",
    "filter_constant",
    "kept_at_random",
    "kept_in_runs",
    "kept_in_one_run",
    "mask_numbers",
    "mask_bools",
    "mask_list_view",
    "mask_views",
    "mask_fixed_lists",
    "mask_records",
    "mask_dictionary",
    "mask_constant",
    "concat_numbers",
    "concat_bools",
    "concat_list_view",
    "concat_views",
    "concat_fixed_lists",
    "concat_records",
    "concat_dictionaries",
    "concat_constants",
    "canonical_constant",
    "canonical_constant_text",
    "canonical_constant_list",
    "canonical_dictionary",
    "canonical_nested_dictionary",
    "canonical_list_view",
    "canonical_numbers",
    "canonical_bools",
    "canonical_views",
    "canonical_fixed_lists",
    "canonical_records",
    "slice_list_view",
    "list_view_try_new",
    "is_consecutive",
    "build_views",
    "build_views_from_offsets",
    "check_views_ascii",
    "check_views_mixed",
    "check_views_bytes",
    "check_long_ascii",
    "check_long_mixed",
    "rebuffer_filtered",
    "texts_try_new",
    "texts_try_new_null",
    "texts_from_iter_short",
    "texts_from_iter_long",
    "texts_from_option_iter",
    "texts_bytes_at",
    "bits_from_bools",
    "true_count",
    "and_bits",
    "equal_bits",
    "fill_bits",
    "execute_mask",
    "primitive_try_new",
    "int_at",
    "into_byte_buffer",
    "from_byte_buffer",
    "read_counts",
    "write_counts",
    "numbers_from_iter",
    "numbers_from_option_iter",
    "numbers_from_values",
    "numbers_to_buffer",
    "bools_from_iter",
    "bools_from_option_iter",
    "bools_from_indices",
    "bools_execute_mask",
    "bools_to_mask",
    "narrow",
    "referenced_values",
    "referenced_values_but_one",
    "fixed_lists_try_new",
    "records_try_new",
    "records_project",
    "records_with_column",
    "records_remove_column",
    "records_push_validity",
    "records_concat",
    "records_by_name",
    "validity_and",
    "validity_not",
    "validity_patch",
    "pack_lists",
    "pack_texts",
    "pack_records",
    "rows_equal_numbers",
    "rows_equal_texts",
    "rows_equal_lists",
];

/// Measures each operation, and prints its name before what is printed of it.
pub fn measure_all(rt: &HostRuntime, bench: &Bench) -> Result<(), Fault> {
    for name in OPERATIONS {
        print!(rt; "{name} ")?;
        measure(rt, bench, name)?;
    }
    Ok(())
}

/// Measures the operation of a name, by the first word of it.
pub fn measure(rt: &HostRuntime, bench: &Bench, name: &str) -> Result<(), Fault> {
    let (verb, rest) = name.split_once('_').unwrap_or((name, ""));
    match verb {
        "take" | "filter" | "kept" | "mask" | "concat" | "canonical" => {
            measure_tree(rt, bench, verb, rest)
        }
        "rebuild" | "slice" | "list" | "is" | "fixed" => measure_lists(rt, bench, name),
        "records" | "rebuffer" | "texts" => measure_columns(rt, bench, verb, rest),
        "numbers" | "bools" | "narrow" | "referenced" => measure_leaves(rt, bench, name, rest),
        "pack" | "rows" => measure_packed(rt, bench, verb, rest),
        _ => measure_parts(rt, bench, verb, name),
    }
}

// Measures an operation on arrays of each layout.
fn measure_tree(rt: &HostRuntime, bench: &Bench, verb: &str, rest: &str) -> Result<(), Fault> {
    let (alloc, scale) = (rt.alloc(), bench.scale);
    if rest.ends_with("runs") && verb == "take" {
        return bench.measure(rt, runs::ready(alloc, scale, rest)?);
    }
    let is_quick = verb == "canonical" && trees::is_plain(rest);
    bench.measure_often(rt, trees::ready(alloc, scale, verb, rest)?, is_quick)
}

// Measures an operation on lists.
fn measure_lists(rt: &HostRuntime, bench: &Bench, name: &str) -> Result<(), Fault> {
    let is_quick = name == "fixed_lists_try_new";
    bench.measure_often(rt, lists::ready(rt.alloc(), bench.scale, name)?, is_quick)
}

// Measures an operation on records or texts.
fn measure_columns(rt: &HostRuntime, bench: &Bench, verb: &str, rest: &str) -> Result<(), Fault> {
    let (alloc, scale) = (rt.alloc(), bench.scale);
    if verb != "records" {
        return bench.measure(rt, texts::ready(alloc, scale, rest)?);
    }
    bench.measure_often(
        rt,
        records::ready(alloc, scale, rest)?,
        records::is_quick(rest),
    )
}

// Measures an operation on arrays of numbers, of truth values or of codes.
fn measure_leaves(rt: &HostRuntime, bench: &Bench, name: &str, rest: &str) -> Result<(), Fault> {
    let (alloc, scale) = (rt.alloc(), bench.scale);
    if name.starts_with("numbers") {
        return bench.measure(rt, arrays::ready_numbers(alloc, scale, rest)?);
    }
    if name.starts_with("bools") {
        return bench.measure(rt, arrays::ready_bools(alloc, scale, rest)?);
    }
    bench.measure(rt, encodings::ready(alloc, scale, name)?)
}

// Measures an operation on columns by their rows alone.
fn measure_packed(rt: &HostRuntime, bench: &Bench, verb: &str, rest: &str) -> Result<(), Fault> {
    let name = rest.strip_prefix("equal_").unwrap_or(rest);
    bench.measure(rt, packed::ready(rt.alloc(), bench.scale, verb, name)?)
}

// Measures an operation on what arrays are made of.
fn measure_parts(rt: &HostRuntime, bench: &Bench, verb: &str, name: &str) -> Result<(), Fault> {
    let (alloc, scale) = (rt.alloc(), bench.scale);
    match verb {
        "build" | "check" => bench.measure(rt, views::ready(alloc, scale, name)?),
        "validity" => bench.measure(rt, validities::ready(alloc, scale, name)?),
        "bits" | "true" | "and" | "equal" | "fill" | "execute" => {
            bench.measure(rt, bits::ready(alloc, bench, name)?)
        }
        _ => bench.measure(rt, numbers::ready(alloc, scale, name)?),
    }
}
