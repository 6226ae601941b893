//! Sums of weights.

ghost use Rattle.std.specs.Prelude.{◌≡◌, ◌<◌, ◌≤◌, ◌+◌, ◌++◌, ◌∷◌, [], ℕ, IfOk, OnOk, length};
ghost use Rattle.std.specs.Bool.{MatchBool};
ghost use Rattle.std.specs.List.{insert};
ghost use Rattle.chain_units.specs.Known.{both, told_weights, with_use, with_uses};
ghost use Rattle.chain_units.specs.Sums.{IsOf, IsPlaceOf};

use base_io::Memory;
use item_weights::{Use, Weights, sum};

/// The place of the first use whose object isn't below one.
fn place_of(uses: &[Use], object: u32) -> usize
    ensures { IsPlaceOf uses.now object result }
{
    let mut at = 0;
    while at < uses.len() && uses[at].object < object {
        at += 1;
    }
    at
}

/// Puts a use at a place.
fn insert(uses: &mut Vec<Use>, at: usize, more: Use) -> Result<(), Memory>
    requires { at ≤ length uses.old.items }
    ensures { OnOk result (uses.new.items ≡ insert uses.old.items at more) }
{
    match uses.insert(at, more) {
        Ok(()) => Ok(()),
        Err(_) => Err(Memory),
    }
}

/// Whether the use at a place is of an object.
fn is_of(uses: &[Use], at: usize, object: u32) -> bool
    ensures { MatchBool result (IsOf uses.now at object) (IsOf uses.now at object → ⊥) }
{
    at < uses.len() && uses[at].object == object
}

/// Adds a use to those of the same object.
fn add_use(uses: &mut Vec<Use>, more: &Use) -> Result<(), Memory>
    ensures { OnOk result (uses.new.items ≡ with_use uses.old.items more.now) }
{
    let at = place_of(uses, more.object);
    if is_of(uses, at, more.object) {
        let one = uses[at];
        uses[at] = Use {
            object: one.object,
            reads: sum(one.reads, more.reads),
            writes: sum(one.writes, more.writes),
        };
        Ok(())
    } else {
        insert(uses, at, *more)
    }
}

/// Adds uses one by one.
fn add_uses(uses: &mut Vec<Use>, more: &[Use]) -> Result<(), Memory>
    ensures { OnOk result (uses.new.items ≡ with_uses uses.old.items more.now) }
{
    let mut left = more;
    while let [one, behind @ ..] = left {
        add_use(uses, one)?;
        left = behind;
    }
    Ok(())
}

/// Adds weights to others.
pub fn add(weights: &mut Weights, more: &Weights) -> Result<(), Memory>
    ensures { OnOk result (told_weights weights.new ≡ both (told_weights weights.old) (told_weights more.now)) }
{
    add_uses(&mut weights.uses, &more.uses)?;
    weights.base = sum(weights.base, more.base);
    Ok(())
}
