//! The keys of a board file that no board has.

ghost use Rattle.std.specs.Prelude.{◌≡◌, IfOk, map, option_map, string_bytes, true};
ghost use Rattle.std.specs.List.{list_any};
ghost use Rattle.std.specs.Str.{bytes_eq};
ghost use Rattle.toml.specs.View.{table_view, view};
ghost use Rattle.board_table.specs.Steps.{AscendsBelow, IsInOrder, ascends, first_other, least_other, lesser, other_below, top_names};

use super::numbers::{member, path_of};
use std::alloc::{AllocError, Global};
use std::cmp::Ordering;
use toml::{Table, Value};

const TOP_KEYS: [&str; 3] = ["budget", "core", "access"];

const CORE_KEYS: [&str; 6] = ["move", "alu", "one", "push", "call", "jump"];

const ACCESS_KEYS: [&str; 7] = [
    "fetch",
    "sram_read",
    "sram_write",
    "fram_read",
    "fram_write",
    "port_read",
    "port_write",
];

/// Whether one of the words is this one.
fn is_among(word: &str, words: &[&str]) -> bool
    ensures { result ≡ list_any (λ w. bytes_eq w word.now) (map (λ s. s.now) words.now) }
{
    let mut rest = words;
    while let [first, others @ ..] = rest {
        if *first == word {
            return true;
        }
        rest = others;
    }
    false
}

/// The first key of the table that is not among these. A table's keys ascend by their bytes.
fn first_other<'t>(table: &'t Table, keys: &[&str]) -> Option<&'t str>
    ensures value { option_map (λ s. s.now) result ≡ first_other (map (λ s. s.now) keys.now) (table_view table.now) }
    ensures ordered { ascends (table_view table.now) ≡ true }
{
    'members: for (key, _value) in table.iter() {
        if !is_among(key.as_str(), keys) {
            return Some(key.as_str());
        }
    }
    None
}

/// The lesser of two paths, by their bytes.
fn lesser(a: Option<String>, b: Option<String>) -> Option<String>
    ensures { option_map string_bytes result ≡ lesser (option_map string_bytes a) (option_map string_bytes b) }
{
    let Some(s) = a else {
        return b;
    };
    let Some(t) = b else {
        return Some(s);
    };
    match t.as_str().cmp(s.as_str()) {
        Ordering::Less => Some(t),
        _ => Some(s),
    }
}

/// The path of the first other key of the document itself.
fn other_at_top(alloc: Global, table: &Table) -> Result<Option<String>, AllocError>
    ensures value { IfOk result (λ o. option_map string_bytes o ≡ first_other top_names (table_view table.now)) }
    ensures ordered { IfOk result (λ _. ascends (table_view table.now) ≡ true) }
{
    match first_other(table, &TOP_KEYS) {
        Some(key) => Ok(Some(String::from_str(alloc, key)?)),
        None => Ok(None),
    }
}

/// The path of the first other key of the table that stands under a name.
fn other_below(
    alloc: Global,
    table: Option<&Value>,
    name: &str,
    keys: &[&str],
) -> Result<Option<String>, AllocError>
    ensures value { IfOk result (λ o. option_map string_bytes o
        ≡ other_below name.now (map (λ s. s.now) keys.now) (option_map (λ v. view v.now) table.entry)) }
    ensures ordered { IfOk result (λ _. AscendsBelow (option_map (λ v. view v.now) table.entry)) }
{
    let Some(value) = table else {
        return Ok(None);
    };
    let Some(costs) = value.as_table() else {
        return Ok(None);
    };
    match first_other(costs, keys) {
        Some(key) => Ok(Some(path_of(alloc, name, key)?)),
        None => Ok(None),
    }
}

/// The least of the paths of other keys. A key below another key is never the least.
#[tactic(auto, unfolding(crate::specs::Steps::least_other))]
pub fn least_other(alloc: Global, table: &Table) -> Result<Option<String>, AllocError>
    ensures value { IfOk result (λ o. option_map string_bytes o ≡ least_other (table_view table.now)) }
    ensures ordered { IfOk result (λ _. IsInOrder (table_view table.now)) }
{
    let top = other_at_top(alloc, table)?;
    let core = other_below(alloc, member(table, "core"), "core", &CORE_KEYS)?;
    let access = other_below(alloc, member(table, "access"), "access", &ACCESS_KEYS)?;
    Ok(lesser(lesser(top, core), access))
}
