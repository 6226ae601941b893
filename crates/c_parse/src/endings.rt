ghost use Rattle.std.specs.Prelude.{◌≡◌, ◌∷◌, ◌++◌, [], ℕ, true, false, MatchOption, List, Bool};
ghost use Rattle.std.specs.Option.{option_copied};
ghost use Rattle.c_parse.specs.Endings.{block_ends, but_last, ends_in_jump, ends_through, has_name, have_names, is_jump, is_name, last_is_name};
ghost use Rattle.c_parse.specs.Turning.{first_in_layer, first_of_item, is_item, is_statement};
ghost use Rattle.c_parse.specs.declared.raw.Raw.{Raw, out-Raw};

use crate::raw::{Raw, RawRule};
use c_lex::TokenKind;

fn is_name(part: &Raw) -> bool
    ensures { result ≡ is_name (out-Raw part.now) }
{
    matches!(
        part,
        Raw::Leaf {
            kind: TokenKind::Name,
            ..
        }
    )
}

fn last_is_name(parts: &[Raw]) -> bool
    ensures { result ≡ last_is_name parts.now }
{
    match parts {
        [.., last] => is_name(last),
        [] => false,
    }
}

fn has_name(part: &Raw) -> bool
    ensures { result ≡ has_name part.now }
{
    match part {
        Raw::Node {
            rule: RawRule::Param,
            parts,
        } => last_is_name(parts.as_slice()),
        _ => true,
    }
}

/// Each parameter among these has a name.
pub fn have_names(parts: &[Raw]) -> bool
    ensures { result ≡ have_names parts.now }
{
    let mut rest = parts;
    while let [part, after @ ..] = rest {
        let named = has_name(part);
        if !named {
            return false;
        }
        rest = after;
    }
    true
}

// The leaf is break, continue or return.
fn is_jump(raw: &Raw) -> bool
    ensures { result ≡ is_jump raw.now }
{
    match raw {
        Raw::Leaf {
            kind: TokenKind::Keyword,
            text,
            ..
        } => {
            let text = text.as_slice();
            text == b"break".as_slice()
                || text == b"continue".as_slice()
                || text == b"return".as_slice()
        },
        _ => false,
    }
}

fn item_part(item: &Raw) -> Option<&Raw>
    ensures { option_copied result ≡ first_in_layer is_item (out-Raw item.now) }
{
    match item {
        Raw::Node {
            rule: RawRule::Item,
            parts,
        } => parts.get(0),
        _ => None,
    }
}

fn statement_part(statement: &Raw) -> Option<&Raw>
    ensures { option_copied result ≡ first_in_layer is_statement (out-Raw statement.now) }
{
    match statement {
        Raw::Node {
            rule: RawRule::Statement,
            parts,
        } => parts.get(0),
        _ => None,
    }
}

// With which token or tree the statement begins that an item is.
fn first_of_item(item: &Raw) -> Option<&Raw>
    ensures { option_copied result ≡ first_of_item item.now }
{
    match item_part(item) {
        Some(statement) => statement_part(statement),
        None => None,
    }
}

fn but_last(parts: &[Raw]) -> &[Raw]
    ensures { result.now ≡ but_last parts.now }
{
    match parts {
        [inner @ .., _] => inner,
        [] => parts,
    }
}

fn block_parts(raw: &Raw) -> Option<&[Raw]>
    ensures { MatchOption result ((test : List Raw → Bool) → block_ends test (out-Raw raw.now) ≡ false) (λ parts. (is_jump raw.now ≡ false) × ((test : List Raw → Bool) → block_ends test (out-Raw raw.now) ≡ test (but_last parts.now))) }
{
    match raw {
        Raw::Node {
            rule: RawRule::Block,
            parts,
        } => Some(parts.as_slice()),
        _ => None,
    }
}

fn ends_through(blocks: usize, items: &[Raw]) -> bool
    ensures { result ≡ ends_through blocks items.now }
{
    let [.., last] = items else {
        return false;
    };
    match first_of_item(last) {
        Some(first) => match block_parts(first) {
            Some(parts) => {
                if blocks > 0 {
                    ends_through(blocks - 1, but_last(parts))
                } else {
                    false
                }
            },
            None => is_jump(first),
        },
        None => false,
    }
}

/// The last of these is break, continue or return, or a block that ends so.
pub fn ends_in_jump(parts: &[Raw]) -> bool
    ensures { result ≡ ends_in_jump parts.now }
{
    ends_through(64, parts)
}
