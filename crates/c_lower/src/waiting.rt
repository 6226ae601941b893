//! Expressions whose first operand is being lowered.
ghost use Rattle.std.specs.Prelude.{◌≡◌, [], ◌∷◌, map, reverse, IfOk, MatchOption};
ghost use Rattle.c_lower.specs.Operands.{waiting};

use base_io::Memory;
use c_tree::Expr;

/// An expression goes before the others.
pub fn keep<'a>(above: &mut Vec<(&'a Expr, bool)>, e: &'a Expr, later: bool) -> Result<(), Memory>
    ensures { IfOk result (λ u. map (λ w. waiting w.0.now w.1) (reverse above.new.items) ≡ waiting e.now later ∷ map (λ w. waiting w.0.now w.1) (reverse above.old.items)) }
{
    match above.push((e, later)) {
        Ok(_) => Ok(()),
        Err(_) => Err(Memory),
    }
}

/// Takes the expression that was kept last.
pub fn last_kept<'a>(above: &mut Vec<(&'a Expr, bool)>) -> Option<(&'a Expr, bool)>
    ensures { MatchOption result (map (λ w. waiting w.0.now w.1) (reverse above.old.items) ≡ []) (λ w. map (λ w. waiting w.0.now w.1) (reverse above.old.items) ≡ waiting w.0.now w.1 ∷ map (λ w. waiting w.0.now w.1) (reverse above.new.items)) }
{
    above.pop()
}
