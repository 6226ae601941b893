//! The number at one key of a board file.

ghost use Rattle.std.specs.Prelude.{◌≡◌, IfOk, IfSome, ◌≤◌, option_map, string_bytes, codes};
ghost use Rattle.toml.specs.Data.{get_member};
ghost use Rattle.toml.specs.View.{table_view, view};
ghost use Rattle.board_table.specs.Reading.{cost_at, number_at, number_in, path_of};
ghost use Rattle.board_table.specs.Steps.{Meets};

use super::fault::{BoardFault, cost_out_of_range, key_out_of_range, missing_cost, missing_key};
use std::alloc::{AllocError, Global};
use toml::{Table, Value};

/// What stands under a key of a table.
pub fn member<'t>(table: &'t Table, key: &str) -> Option<&'t Value>
    ensures { option_map (λ v. view v.now) result ≡ get_member key.now (table_view table.now) }
{
    table.get(key)
}

/// The number that a value is, where it is one of this range.
fn number_in(value: &Value, least: u64, most: u64) -> Option<u64>
    ensures value { result ≡ number_in least most (view value.now) }
    ensures range { IfSome result (λ n. (least ≤ n) × (n ≤ most)) }
{
    let n = u64::try_from(value.as_integer()?).ok()?;
    if least <= n && n <= most {
        Some(n)
    } else {
        None
    }
}

/// The written path of a key of a table.
pub fn path_of(alloc: Global, name: &str, key: &str) -> Result<String, AllocError>
    ensures { IfOk result (λ s. string_bytes s ≡ path_of name.now key.now) }
{
    let mut path = String::from_str(alloc, name)?;
    path.push_str(".")?;
    path.push_str(key)?;
    Ok(path)
}

/// The budget, by what stands under its key.
pub fn budget_of(alloc: Global, value: Option<&Value>) -> Result<u64, BoardFault>
    ensures range { IfOk result (λ n. (1 ≤ n) × (n ≤ 1000000000)) }
    ensures value { Meets result (number_at 1 1000000000 (codes "budget") (option_map (λ v. view v.now) value.entry)) }
{
    let Some(value) = value else {
        return Err(missing_key(alloc, "budget"));
    };
    match number_in(value, 1, 1_000_000_000) {
        Some(n) => Ok(n),
        None => Err(key_out_of_range(alloc, "budget")),
    }
}

/// A cost, at least `least` and at most 1,000,000, by what stands under the name of its table.
pub fn cost(
    alloc: Global,
    table: Option<&Value>,
    name: &str,
    key: &str,
    least: u64,
) -> Result<u64, BoardFault>
    ensures range { IfOk result (λ n. (least ≤ n) × (n ≤ 1000000)) }
    ensures value { Meets result (cost_at least 1000000 name.now key.now (option_map (λ v. view v.now) table.entry)) }
{
    let Some(value) = table else {
        return Err(missing_cost(alloc, name, key));
    };
    let Some(costs) = value.as_table() else {
        return Err(key_out_of_range(alloc, name));
    };
    let Some(value) = member(costs, key) else {
        return Err(missing_cost(alloc, name, key));
    };
    match number_in(value, least, 1_000_000) {
        Some(n) => Ok(n),
        None => Err(cost_out_of_range(alloc, name, key)),
    }
}
