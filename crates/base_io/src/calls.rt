//! Small steps that the stores and sinks share.
ghost use Rattle.std.specs.Prelude.{◌≡◌, ◌+◌, ◌≤◌, ◌++◌, length, vec_len, vec_capacity};
ghost use Rattle.base_io.specs.Counts.{one_more};
ghost use Rattle.base_io.specs.Doubles.{is_listed};

/// The number is in the list.
pub fn is_listed(numbers: &[u64], n: u64) -> bool
    ensures { result ≡ is_listed numbers.now n }
{
    numbers.contains(&n)
}

/// One more, or the type's end.
pub fn one_more(n: u64) -> u64
    ensures { result ≡ one_more n }
{
    n.saturating_add(1)
}

/// Adds bytes for which there is room.
pub fn add_within(to: &mut Vec<u8>, bytes: &[u8])
    requires { vec_len to.old + length bytes.now ≤ vec_capacity to.old }
    ensures items { to.new.items ≡ to.old.items ++ bytes.now }
    ensures capacity { vec_capacity to.old ≤ vec_capacity to.new }
{
    let _ = to.extend_from_slice(bytes);
}
