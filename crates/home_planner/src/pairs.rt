//! Lists of pairs of words and cost in which no pair is made needless by another.

ghost use Rattle.std.specs.Prelude.{◌≡◌, ◌<◌, ◌≤◌, ◌+◌, ◌^◌, ◌++◌, ◌∷◌, ℕ, [], IfOk, OnOk, MatchOption, IsTrue, ◌↔◌};
ghost use Rattle.std.specs.List.{AllByRecursion};
ghost use Rattle.home_planner.specs.Pairs.{Falls, IsMerge, IsNext, IsNoLater, kept_of, shifted_of, top_of};

use crate::Pair;
use base_io::Memory;
use std::alloc::Global;

/// Puts a pair behind the others.
pub fn put(pairs: &mut Vec<Pair>, pair: Pair) -> Result<(), Memory>
    ensures { OnOk result (pairs.new.items ≡ pairs.old.items ++ pair ∷ []) }
{
    match pairs.push(pair) {
        Ok(()) => Ok(()),
        Err(_) => Err(Memory),
    }
}

/// Each pair with so many more words and so much more cost, where there is room for it.
pub fn shifted(
    alloc: Global,
    pairs: &[Pair],
    words: u32,
    cost: u64,
    room: u32,
) -> Result<Vec<Pair>, Memory>
    requires small { AllByRecursion (λ p. p.cost + cost < 2 ^ 63) pairs.now }
    ensures { IfOk result (λ made. made.items ≡ shifted_of words cost room pairs.now) }
{
    let mut made = Vec::new(alloc);
    let mut left = pairs;
    while let [pair, behind @ ..] = left {
        if words <= room && pair.words <= room - words {
            put(
                &mut made,
                Pair {
                    words: pair.words + words,
                    cost: pair.cost + cost,
                },
            )?;
        }
        left = behind;
    }
    Ok(made)
}

/// Whether a pair is no later than another in the order of words, then cost.
fn is_no_later(p: &Pair, q: &Pair) -> bool
    ensures yes { IsTrue result → IsNoLater p.now q.now }
    ensures no { (IsTrue result → ⊥) → IsNoLater q.now p.now }
{
    p.words < q.words || (p.words == q.words && p.cost <= q.cost)
}

/// The pair that comes next in two lists, and what is left of them.
#[derive(Clone, Copy)]
struct Next<'a> {
    pair: Pair,
    left: &'a [Pair],
    right: &'a [Pair],
}

fn next_of<'a>(left: &'a [Pair], right: &'a [Pair]) -> Option<Next<'a>>
    ensures { MatchOption result ((left.now ≡ []) × (right.now ≡ [])) (λ next. IsNext left.now right.now next.pair next.left.now next.right.now) }
{
    match left {
        [] => match right {
            [] => None,
            [q, others @ ..] => Some(Next {
                pair: *q,
                left,
                right: others,
            }),
        },
        [p, behind @ ..] => match right {
            [] => Some(Next {
                pair: *p,
                left: behind,
                right,
            }),
            [q, others @ ..] => {
                if is_no_later(p, q) {
                    Some(Next {
                        pair: *p,
                        left: behind,
                        right,
                    })
                } else {
                    Some(Next {
                        pair: *q,
                        left,
                        right: others,
                    })
                }
            }
        },
    }
}

/// Keeps a pair that costs less than all before, and gives the least cost so far.
fn keep_lower(kept: &mut Vec<Pair>, top: u64, pair: Pair) -> Result<u64, Memory>
    ensures { IfOk result (λ now. (kept.new.items ≡ kept_of kept.old.items top pair) × (now ≡ top_of top pair)) }
{
    if pair.cost < top {
        put(kept, pair)?;
        Ok(pair.cost)
    } else {
        Ok(top)
    }
}

/// The pairs of two lists that no other pair makes needless.
pub fn merged(alloc: Global, left: &[Pair], right: &[Pair]) -> Result<Vec<Pair>, Memory>
    requires left { Falls left.now }
    requires right { Falls right.now }
    requires left_small { AllByRecursion (λ p. p.cost < 2 ^ 63) left.now }
    requires right_small { AllByRecursion (λ p. p.cost < 2 ^ 63) right.now }
    ensures { IfOk result (λ pairs. IsMerge left.now right.now pairs.items) }
{
    let mut kept = Vec::new(alloc);
    let mut top = u64::MAX;
    let mut ahead = left;
    let mut across = right;
    while let Some(next) = next_of(ahead, across) {
        top = keep_lower(&mut kept, top, next.pair)?;
        ahead = next.left;
        across = next.right;
    }
    Ok(kept)
}
