ghost use Rattle.std.specs.Prelude.{◌≡◌, map};
ghost use Rattle.c_parse.specs.Classes.{class_of, class_among};

use crate::class::Class;
use c_lex::TokenKind;

type Row = (&'static [u8], Class);

// The keywords that the grammar uses.
const KEYWORDS: [Row; 23] = [
    (b"static", Class::Static),
    (b"const", Class::Const),
    (b"void", Class::Void),
    (b"char", Class::Char),
    (b"signed", Class::Sign),
    (b"unsigned", Class::Sign),
    (b"short", Class::Short),
    (b"int", Class::Int),
    (b"int8_t", Class::Fixed),
    (b"uint8_t", Class::Fixed),
    (b"int16_t", Class::Fixed),
    (b"uint16_t", Class::Fixed),
    (b"break", Class::Break),
    (b"continue", Class::Continue),
    (b"return", Class::Return),
    (b"if", Class::If),
    (b"else", Class::Else),
    (b"while", Class::While),
    (b"do", Class::Do),
    (b"for", Class::For),
    (b"switch", Class::Switch),
    (b"case", Class::Case),
    (b"default", Class::Default),
];

const SIGNS: [Row; 45] = [
    (b"[", Class::OpenIndex),
    (b"]", Class::CloseIndex),
    (b"(", Class::Open),
    (b")", Class::Close),
    (b"{", Class::OpenBrace),
    (b"}", Class::CloseBrace),
    (b".", Class::Member),
    (b"->", Class::Member),
    (b"++", Class::Increment),
    (b"--", Class::Increment),
    (b"&", Class::Ampersand),
    (b"*", Class::Star),
    (b"+", Class::Plus),
    (b"-", Class::Minus),
    (b"~", Class::Complement),
    (b"!", Class::Complement),
    (b"/", Class::Divide),
    (b"%", Class::Divide),
    (b"<<", Class::Shift),
    (b">>", Class::Shift),
    (b"<", Class::Relation),
    (b">", Class::Relation),
    (b"<=", Class::Relation),
    (b">=", Class::Relation),
    (b"==", Class::Equality),
    (b"!=", Class::Equality),
    (b"^", Class::Caret),
    (b"|", Class::Bar),
    (b"&&", Class::AndAnd),
    (b"||", Class::BarBar),
    (b"?", Class::Question),
    (b":", Class::Colon),
    (b";", Class::Semicolon),
    (b"=", Class::Equals),
    (b"*=", Class::Compound),
    (b"/=", Class::Compound),
    (b"%=", Class::Compound),
    (b"+=", Class::Compound),
    (b"-=", Class::Compound),
    (b"<<=", Class::Compound),
    (b">>=", Class::Compound),
    (b"&=", Class::Compound),
    (b"^=", Class::Compound),
    (b"|=", Class::Compound),
    (b",", Class::Comma),
];

fn class_among(rows: &[Row], bytes: &[u8]) -> Class
    ensures { result ≡ class_among (map (λ row. (row.0.now, row.1)) rows.now) bytes.now }
{
    let mut rest = rows;
    while let [(word, class), after @ ..] = rest {
        if *word == bytes {
            return *class;
        }
        rest = after;
    }
    Class::Unused
}

#[tactic(auto, unfolding(crate::specs::Classes::keyword_classes))]
fn keyword_class(bytes: &[u8]) -> Class
    ensures { result ≡ class_of TokenKind.Keyword bytes.now }
{
    class_among(&KEYWORDS, bytes)
}

#[tactic(auto, unfolding(crate::specs::Classes::sign_classes))]
fn sign_class(bytes: &[u8]) -> Class
    ensures { result ≡ class_of TokenKind.Sign bytes.now }
{
    class_among(&SIGNS, bytes)
}

/// The class of a token of this kind with these bytes; of a sign or keyword that stands in no
/// table it is `Unused`.
pub fn class_of(kind: TokenKind, bytes: &[u8]) -> Class
    ensures { result ≡ class_of kind bytes.now }
{
    match kind {
        TokenKind::Name => Class::Name,
        TokenKind::Number(_, _) => Class::Number,
        TokenKind::Sign => sign_class(bytes),
        TokenKind::Keyword => keyword_class(bytes),
    }
}
