ghost use Rattle.std.specs.Prelude.{◌≡◌, ◌≢◌, ◌≤◌, ◌<◌, ◌∷◌, [], length, reverse, All, IfErr, IfOk};
ghost use Rattle.base_io.specs.declared.place.Place.{Place};
ghost use Rattle.c_lex.specs.Cut.{Cut, IsIn, first_place, place_behind};
ghost use Rattle.c_parse.specs.Grammar.{Parses};
ghost use Rattle.c_parse.specs.Faults.{IsCause, IsFlat, IsTreeOf};
ghost use Rattle.c_parse.specs.Grouping.{IsGroupedText};
ghost use Rattle.c_parse.specs.Profile.{IsRoomy};
ghost use Rattle.c_parse.specs.Steps.{Stands, Steps};
ghost use Rattle.c_parse.specs.Tally.{IsSparse, counted};
ghost use Rattle.c_parse.specs.Words.{word_of, words_of};
ghost use Rattle.c_parse.specs.declared.fault.ParseFault.{ParseFault};
ghost use Rattle.c_parse.specs.declared.raw.Raw.{Raw};

use crate::fault::ParseFault;
use crate::fitting::read_word;
use crate::machine::{DEEPEST, Machine};
use crate::no_memory::NoMemory;
use crate::profile::is_left_out;
use crate::raw::Raw;
use crate::tally::{Last, MOST_OPERATORS, Tally, counted, outside};
use crate::words::word_class;
use base_io::Place;
use c_lex::{Token, longest_tokens};
use sqlite_items::Items;
use std::alloc::Global;

// The place behind the last byte of a text.
fn end_of(text: &[u8]) -> Place
    requires { length text.now ≤ 65536 }
    ensures { result ≡ place_behind first_place text.now }
{
    let mut place = Place { line: 1, column: 1 };
    let mut rest = text;
    while let [b, after @ ..] = rest {
        place = if *b == b'\n' {
            Place {
                line: place.line + 1,
                column: 1,
            }
        } else {
            Place {
                line: place.line,
                column: place.column + 1,
            }
        };
        rest = after;
    }
    place
}

// The token is counted, and read by the machine.
fn read_token(
    machine: &mut Machine,
    tally: &mut Tally,
    alloc: Global,
    text: &[u8],
    token: &Token,
) -> Result<Option<usize>, NoMemory>
    requires span { (token.now.start ≤ token.now.end) × (token.now.end ≤ length text.now) }
    requires brackets { tally.old.brackets < usize.MAX }
    requires operators { tally.old.operators ≤ 1000 }
    ensures counted { tally.new ≡ counted tally.old (word_of text.now token.now).class }
    ensures steps { IfOk result (λ told. Steps told (word_of text.now token.now) (reverse machine.old.waits.stack.items) (reverse machine.old.builds.items) (reverse machine.new.waits.stack.items) (reverse machine.new.builds.items)) }
{
    let class = word_class(text, token);
    *tally = counted(*tally, class);
    read_word(machine, alloc, text, token)
}

// The fault at a token behind these that is refused where so many forms that nest are open.
fn fault_at(alloc: Global, text: &[u8], before: &[Token], token: &Token, depth: usize) -> ParseFault
    requires cut { All (λ token. IsIn text.now token) before.now }
    requires inside { (token.now.start ≤ token.now.end) × (token.now.end ≤ length text.now) }
    requires roomy { depth ≤ 64 → IsRoomy (words_of text.now before.now) }
    ensures deep { 64 < depth → result ≡ ParseFault.TooDeep token.now.place }
    ensures flat { depth ≤ 64 → IsFlat (words_of text.now before.now) (word_of text.now token.now).class token.now.place result }
{
    let at = token.place;
    if depth > DEEPEST {
        return ParseFault::TooDeep { at };
    }
    let class = word_class(text, token);
    match is_left_out(alloc, text, before, class) {
        Ok(true) => ParseFault::NotInProfile { at },
        Ok(false) => ParseFault::Unexpected { at },
        Err(_) => ParseFault::Memory,
    }
}

// The machine behind all tokens, or the first of them with which no text of the grammar goes on, or that is nested too deep
// or one operator too many.
fn read(alloc: Global, text: &[u8], tokens: &[Token]) -> Result<Machine, ParseFault>
    requires { Cut text.now tokens.now }
    ensures all { IfOk result (λ m. Stands (words_of text.now tokens.now) (reverse m.waits.stack.items) (reverse m.builds.items)) }
    ensures sparse { IfOk result (λ m. IsSparse (words_of text.now tokens.now)) }
    ensures first { IfErr result (λ fault. IsCause text.now tokens.now fault) }
{
    let Ok(mut machine) = Machine::new(alloc) else {
        return Err(ParseFault::Memory);
    };
    longest_tokens();
    let mut tally = outside(Last::Other);
    let mut at = 0;
    'tokens: while let Some(token) = tokens.get(at) {
        match read_token(&mut machine, &mut tally, alloc, text, token) {
            Ok(None) => {
                if tally.operators > MOST_OPERATORS {
                    return Err(ParseFault::TooDeep { at: token.place });
                }
                at += 1;
            }
            Ok(Some(depth)) => return Err(fault_at(alloc, text, &tokens[..at], token, depth)),
            Err(_) => return Err(ParseFault::Memory),
        }
    }
    Ok(machine)
}

// The one tree in the one list that is left.
fn tree_left(builds: Vec<Items<Raw>>) -> Raw
    requires { (raw : Raw) × (builds.items ≡ (raw ∷ []) ∷ []) }
    ensures { builds.items ≡ (result ∷ []) ∷ [] }
{
    let mut builds = builds;
    let mut parts = builds.remove(0);
    parts.remove(0)
}

/// The tree of a text's tokens, by the grammar of the C profile, or the first fault. The time is in proportion to the text.
pub fn parse(alloc: Global, text: &[u8], tokens: &[Token]) -> Result<Raw, ParseFault>
    requires small { length text.now ≤ 65536 }
    requires cut { Cut text.now tokens.now }
    // The tokens derive the tree, with none of them nested too deep and no expression of too many operators, and derive no other.
    ensures found { IfOk result (λ raw. IsTreeOf (words_of text.now tokens.now) raw) }
    ensures only { IfOk result (λ raw. (other : Raw) → Parses (words_of text.now tokens.now) other → other ≡ raw) }
    // In each derivation of it the operands of binary operators are grouped by the levels of C11 6.5.5 to 6.5.14.
    ensures grouped { IfOk result (λ raw. (t : IsTreeOf (words_of text.now tokens.now) raw) → IsGroupedText t.text raw t.derives) }
    // A fault stands at the first token that is nested too deep, is one operator too many, or with which no text of the grammar goes on, else one byte past the end.
    ensures first { IfErr result (λ fault. IsCause text.now tokens.now fault) }
    // Then they derive no tree so.
    ensures none { IfErr result (λ fault. fault ≢ ParseFault.Memory → (raw : Raw) → IsTreeOf (words_of text.now tokens.now) raw → ⊥) }
{
    let mut machine = read(alloc, text, tokens)?;
    match machine.finish(alloc) {
        Ok(true) => {
            let Machine { builds, .. } = machine;
            Ok(tree_left(builds))
        }
        Ok(false) => Err(ParseFault::Unexpected { at: end_of(text) }),
        Err(_) => Err(ParseFault::Memory),
    }
}
