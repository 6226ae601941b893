//! First operands that lie within each other.
ghost use Rattle.std.specs.Prelude.{◌≡◌, [], ◌∷◌, map, reverse, Some, None, MatchOption, MatchResult};
ghost use Rattle.c_tree.specs.Chains as chains;
ghost use Rattle.c_tree.specs.declared.tree.ExprKind.{out-ExprKind};

use crate::halt::Halt;
use crate::tree::{Expr, ExprKind};

/// This many first operands within each other are evaluated by calls within each other; more take a list.
const SHALLOW: u32 = 2;

/// The operand that is evaluated first, unless there is none or it is an argument.
pub fn first_of<'a>(e: &'a Expr) -> Option<&'a Expr>
    ensures { MatchOption result (chains.first_of (out-ExprKind e.now.kind) ≡ None) (λ a. chains.first_of (out-ExprKind e.now.kind) ≡ Some a.now) }
{
    match &e.kind {
        ExprKind::Element { array: _, index } => Some(index.get()),
        ExprKind::Convert(inner) => Some(inner.get()),
        ExprKind::Unary { op: _, a } => Some(a.get()),
        ExprKind::Binary { op: _, a, b: _ } => Some(a.get()),
        ExprKind::Cond {
            test,
            yes: _,
            no: _,
        } => Some(test.get()),
        ExprKind::Output(inner) => Some(inner.get()),
        _ => None,
    }
}

/// More first operands lie within each other than calls may. No clause needs the answer: it is a matter of the stack alone.
pub fn is_deep(e: &Expr) -> bool {
    let mut at = e;
    let mut room = SHALLOW;
    while let Some(first) = first_of(at) {
        if room == 0 {
            return true;
        }
        room -= 1;
        at = first;
    }
    false
}

/// An expression goes before the others.
pub fn keep<'a>(above: &mut Vec<&'a Expr>, e: &'a Expr) -> Result<(), Halt>
    ensures { MatchResult result (λ _. map (λ r. r.now) (reverse above.new.items) ≡ e.now ∷ map (λ r. r.now) (reverse above.old.items)) (λ h. h ≡ Halt.Memory) }
{
    match above.push(e) {
        Ok(_) => Ok(()),
        Err(_) => Err(Halt::Memory),
    }
}

/// Takes the expression that was kept last.
pub fn last_kept<'a>(above: &mut Vec<&'a Expr>) -> Option<&'a Expr>
    ensures { MatchOption result (map (λ r. r.now) (reverse above.old.items) ≡ []) (λ e. map (λ r. r.now) (reverse above.old.items) ≡ e.now ∷ map (λ r. r.now) (reverse above.new.items)) }
{
    above.pop()
}
