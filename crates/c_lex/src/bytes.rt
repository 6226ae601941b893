ghost use Rattle.std.specs.Prelude.{◌≡◌, ◌≤◌, length, not, ◌==◌, ◌+◌};
ghost use Rattle.std.specs.List.{prefix_len, list_all};
ghost use Rattle.c_lex.specs.Bytes.{is_blank, is_digit, is_letter, is_nondigit, is_name_byte, is_number_byte, is_plain, line_feed};

pub fn is_blank(b: u8) -> bool
    ensures { result ≡ is_blank b }
{
    b == b' ' || (b'\t' <= b && b <= b'\r')
}

pub fn is_digit(b: u8) -> bool
    ensures { result ≡ is_digit b }
{
    b'0' <= b && b <= b'9'
}

fn is_letter(b: u8) -> bool
    ensures { result ≡ is_letter b }
{
    (b'A' <= b && b <= b'Z') || (b'a' <= b && b <= b'z')
}

pub fn is_nondigit(b: u8) -> bool
    ensures { result ≡ is_nondigit b }
{
    is_letter(b) || b == b'_'
}

fn is_name_byte(b: u8) -> bool
    ensures { result ≡ is_name_byte b }
{
    is_nondigit(b) || is_digit(b)
}

fn is_number_byte(b: u8) -> bool
    ensures { result ≡ is_number_byte b }
{
    is_letter(b) || is_digit(b)
}

pub fn is_plain(b: u8) -> bool
    ensures { result ≡ is_plain b }
{
    b != b'\'' && b != b'\\' && b != b'\n' && b != b'\r'
}

pub fn are_blank(bytes: &[u8]) -> bool
    ensures { result ≡ list_all is_blank bytes.now }
{
    bytes.iter().all(|b| is_blank(*b))
}

/// How many bytes of a name or keyword stand at the front.
pub fn name_len(text: &[u8]) -> usize
    ensures value { result ≡ prefix_len is_name_byte text.now }
    ensures within { result ≤ length text.now }
{
    text.iter().take_while(|b| is_name_byte(**b)).count()
}

/// How many letters and digits stand at the front.
pub fn number_len(text: &[u8]) -> usize
    ensures value { result ≡ prefix_len is_number_byte text.now }
    ensures within { result ≤ length text.now }
{
    text.iter().take_while(|b| is_number_byte(**b)).count()
}

/// How many bytes stand before the end of the line.
pub fn line_len(text: &[u8]) -> usize
    ensures value { result ≡ prefix_len (λ b. not (b == line_feed)) text.now }
    ensures within { result ≤ length text.now }
{
    text.iter().take_while(|b| **b != b'\n').count()
}
