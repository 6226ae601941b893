//! Numbers in decimal digits.
ghost use Rattle.std.specs.Prelude.{◌≡◌, ◌≤◌, IfSome};
ghost use Rattle.std.specs.List.{list_all};
ghost use Rattle.std.specs.Char.{is_ascii_digit};
ghost use Rattle.job_parts.specs.Words.{is_decimal, number};

fn all_digits(text: &[u8]) -> bool
    ensures { result ≡ list_all is_ascii_digit text.now }
{
    text.iter().all(|b| b.is_ascii_digit())
}

// One decimal digit or more, and nothing else.
fn is_decimal(text: &[u8]) -> bool
    ensures { result ≡ is_decimal text.now }
{
    match text {
        [] => false,
        [_, ..] => all_digits(text),
    }
}

/// A number in decimal digits alone, in its range. Zeros may lead it.
pub fn number_in(text: &str, least: u64, most: u64) -> Option<u64>
    ensures value { result ≡ number least most text.now }
    ensures range { IfSome result (λ n. (least ≤ n) × (n ≤ most)) }
{
    if !is_decimal(text.as_bytes()) {
        return None;
    }
    let n = match text.parse::<u64>() {
        Ok(n) => n,
        Err(_) => return None,
    };
    if least <= n && n <= most {
        Some(n)
    } else {
        None
    }
}
