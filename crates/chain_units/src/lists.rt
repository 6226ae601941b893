//! Lists, taken apart from the front.

ghost use Rattle.std.specs.Prelude.{◌≡◌, ◌∷◌, [], MatchOption, drop, take};
ghost use Rattle.chain_units.specs.Marks.{first_is_counted};

use flow_graph::Item;
use std::slice::from_ref;

/// The first one and those behind it.
pub fn first_and_rest<T>(items: &[T]) -> Option<(&T, &[T])>
    ensures { MatchOption result (items.now ≡ []) (λ r. items.now ≡ r.0.now ∷ r.1.now) }
{
    items.split_first()
}

/// An item as a list.
pub fn alone(item: &Item) -> &[Item]
    ensures { result.now ≡ item.now ∷ [] }
{
    from_ref(item)
}

/// The first two items, or all where there are fewer.
pub fn two_of(items: &[Item]) -> &[Item]
    ensures { result.now ≡ take 2 items.now }
{
    &items[..items.len().min(2)]
}

/// The items behind the first two.
pub fn behind_two(items: &[Item]) -> &[Item]
    ensures { result.now ≡ drop 2 items.now }
{
    &items[items.len().min(2)..]
}

/// Whether a loop of known count stands first.
pub fn begins_counted(items: &[Item]) -> bool
    ensures { result ≡ first_is_counted items.now }
{
    match items {
        [Item::Loop { count: Some(_), .. }, ..] => true,
        _ => false,
    }
}
