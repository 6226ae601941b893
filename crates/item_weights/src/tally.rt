//! Numbers that stop at 2^63.

ghost use Rattle.std.specs.Prelude.{◌≡◌, ◌+◌, ◌*◌, ◌^◌, ◌<◌, ◌≤◌, ℕ, length, max, slice_index};
ghost use Rattle.item_weights.specs.Weights.{kept, one_at};

const LIMIT: u64 = 1 << 63;

/// The sum, at most 2^63.
pub fn sum(a: u64, b: u64) -> u64
    ensures { result ≡ kept (a + b) }
{
    if a >= LIMIT || b >= LIMIT - a {
        LIMIT
    } else {
        a + b
    }
}

/// So many times the number, at most 2^63.
pub fn product(count: u64, a: u64) -> u64
    ensures { result ≡ kept (count * a) }
{
    match count.checked_mul(a) {
        Some(made) if made < LIMIT => made,
        _ => LIMIT,
    }
}

fn number(numbers: &[u64], at: usize) -> u64
    ensures { result ≡ slice_index numbers.now at }
{
    numbers.get(at).copied().unwrap_or(0)
}

/// Adds the numbers of each place.
pub fn add_all(to: &mut [u64], from: &[u64])
    ensures { (k : ℕ) → k < length to.old → slice_index to.new k ≡ kept (slice_index to.old k + slice_index from.now k) }
{
    for at in 0..to.len() {
        to[at] = sum(to[at], number(from, at));
    }
}

/// Keeps the greater number of each place.
pub fn join_all(to: &mut [u64], from: &[u64])
    ensures { (k : ℕ) → k < length to.old → slice_index to.new k ≡ max (slice_index to.old k) (slice_index from.now k) }
{
    for at in 0..to.len() {
        to[at] = to[at].max(number(from, at));
    }
}

/// Takes each number so many times.
pub fn multiply_all(to: &mut [u64], count: u32)
    ensures { (k : ℕ) → k < length to.old → slice_index to.new k ≡ kept (count * slice_index to.old k) }
{
    for at in 0..to.len() {
        to[at] = product(u64::from(count), to[at]);
    }
}

/// Adds 1 at a place, if there is one of this number.
pub fn add_one(to: &mut [u64], place: u32)
    ensures length { length to.new ≡ length to.old }
    ensures values { (w : ℕ → ℕ) → ((k : ℕ) → k < length to.old → slice_index to.old k ≡ kept (w k)) → (k : ℕ) → k < length to.old → slice_index to.new k ≡ kept (w k + one_at place k) }
{
    let at = place as usize;
    if at < to.len() {
        to[at] = sum(to[at], 1);
    }
}
