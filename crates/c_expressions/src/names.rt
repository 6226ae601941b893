//! What names mean where they stand.
ghost use Rattle.std.specs.Prelude.{◌≡◌, ◌∷◌, [], ◌+◌, IfOk};
ghost use Rattle.std.specs.Option.{option_copied};
ghost use Rattle.c_typing.specs.Expressions as spec;

use crate::operators::is;
use c_parse::NoMemory;
use c_typing::{Callee, Meaning, Signature, State};
use c_values::Ty;
use sqlite_items::Items;

/// What a name means here.
pub fn meaning_at(name: &[u8], state: &State) -> Option<Meaning>
    ensures { result ≡ spec.meaning_at name.now state.now }
{
    if is(name, state.unready.as_slice()) {
        None
    } else {
        state.scopes.find(name)
    }
}

/// The place of a function among those that the text defines.
pub fn definition_of(name: &[u8], state: &State) -> Result<Option<u32>, NoMemory>
    ensures { IfOk result (λ at. at ≡ spec.definition_of name.now state.now) }
{
    place_in(0, state.defined.as_slice(), name)
}

/// The type of the parameter of this number.
pub fn parameter_type(meaning: Option<Meaning>, at: usize, state: &State) -> Option<Ty>
    ensures { result ≡ spec.parameter_type meaning at state.now }
{
    match meaning {
        Some(Meaning::Function(function)) => parameter_in(
            at,
            state.signatures.get(function as usize),
        ),
        _ => None,
    }
}

fn parameter_in(at: usize, signature: Option<&Signature>) -> Option<Ty>
    ensures { result ≡ spec.parameter_in at (option_copied signature.entry) }
{
    match signature {
        Some(signature) => signature.params.get(at).copied(),
        None => None,
    }
}

/// What a call asks of the function of this number.
pub fn callee_at(function: u32, state: &State) -> Option<Callee>
    ensures { result ≡ spec.callee_at function state.now }
{
    match state.signatures.get(function as usize) {
        Some(signature) => Some(Callee {
            arity: signature.params.len(),
            result: signature.result,
            role: signature.role,
        }),
        None => None,
    }
}

/// The place of a name in a list, whose first place has the number `from`.
fn place_in(from: u32, names: &[Items<u8>], name: &[u8]) -> Result<Option<u32>, NoMemory>
    ensures { IfOk result (λ at. at ≡ spec.place_in from names.now name.now) }
{
    let mut at = from;
    let mut rest = names;
    while let Some((first, behind)) = rest.split_first() {
        if is(name, first.as_slice()) {
            return Ok(Some(at));
        }
        match at.checked_add(1) {
            Some(next) => at = next,
            None => return Err(NoMemory),
        }
        rest = behind;
    }
    Ok(None)
}
