ghost use Rattle.std.specs.Prelude.{◌≡◌, ◌<◌, ◌≤◌, ◌==◌, length, map, max};
ghost use Rattle.std.specs.List.{list_any};
ghost use Rattle.std.specs.Str.{bytes_eq};
ghost use Rattle.c_lex.specs.Words.{is_keyword, signs};
ghost use Rattle.c_lex.specs.Scan.{longest};

// The keywords of C11 6.4.1, and the types of fixed width that are always known.
const KEYWORDS: [&[u8]; 48] = [
    b"auto",
    b"break",
    b"case",
    b"char",
    b"const",
    b"continue",
    b"default",
    b"do",
    b"double",
    b"else",
    b"enum",
    b"extern",
    b"float",
    b"for",
    b"goto",
    b"if",
    b"inline",
    b"int",
    b"long",
    b"register",
    b"restrict",
    b"return",
    b"short",
    b"signed",
    b"sizeof",
    b"static",
    b"struct",
    b"switch",
    b"typedef",
    b"union",
    b"unsigned",
    b"void",
    b"volatile",
    b"while",
    b"_Alignas",
    b"_Alignof",
    b"_Atomic",
    b"_Bool",
    b"_Complex",
    b"_Generic",
    b"_Imaginary",
    b"_Noreturn",
    b"_Static_assert",
    b"_Thread_local",
    b"int8_t",
    b"uint8_t",
    b"int16_t",
    b"uint16_t",
];

// The punctuators of C11 6.4.6 that a token may be.
const SIGNS: [&[u8]; 45] = [
    b"++", b"--", b"->", b".", b"+", b"-", b"*", b"/", b"%", b"&", b"|", b"^", b"~", b"!", b"<",
    b">", b"<=", b">=", b"==", b"!=", b"&&", b"||", b"<<", b">>", b"=", b"+=", b"-=", b"*=", b"/=",
    b"%=", b"&=", b"|=", b"^=", b"<<=", b">>=", b"?", b":", b";", b",", b"(", b")", b"[", b"]",
    b"{", b"}",
];

fn is_among(words: &[&[u8]], word: &[u8]) -> bool
    ensures { result ≡ list_any (λ k. bytes_eq k word.now) (map (λ k. k.now) words.now) }
{
    let mut rest = words;
    while let [first, after @ ..] = rest {
        if *first == word {
            return true;
        }
        rest = after;
    }
    false
}

fn longest(words: &[&[u8]], text: &[u8]) -> usize
    ensures { result ≡ longest (map (λ k. k.now) words.now) text.now }
{
    let mut best = 0;
    let mut rest = words;
    while let [word, after @ ..] = rest {
        if text.starts_with(word) && best < word.len() {
            best = word.len();
        }
        rest = after;
    }
    best
}

#[tactic(auto, unfolding(crate::specs::Words::keywords))]
pub fn is_keyword(word: &[u8]) -> bool
    ensures { result ≡ is_keyword word.now }
{
    is_among(&KEYWORDS, word)
}

/// The length of the longest sign that begins the text, or 0.
#[tactic(auto, unfolding(crate::specs::Words::signs))]
pub fn sign_len(text: &[u8]) -> usize
    ensures { result ≡ longest signs text.now }
{
    longest(&SIGNS, text)
}
