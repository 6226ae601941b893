//! Lists, taken apart from the front.

ghost use Rattle.std.specs.Prelude.{◌≡◌, [], ◌∷◌, MatchOption};

/// The first item and those behind it.
pub fn first_and_rest<T>(items: &[T]) -> Option<(&T, &[T])>
    ensures { MatchOption result (items.now ≡ []) (λ r. items.now ≡ r.0.now ∷ r.1.now) }
{
    items.split_first()
}
