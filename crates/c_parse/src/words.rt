ghost use Rattle.std.specs.Prelude.{◌≡◌, ◌≤◌, length, IfOk};
ghost use Rattle.c_parse.specs.Words.{word_of};

use crate::class::Class;
use crate::class_of::class_of;
use crate::no_memory::NoMemory;
use crate::raw::Raw;
use c_lex::Token;
use sqlite_items::Items;
use std::alloc::Global;

/// The class of a token of this text.
pub fn word_class(text: &[u8], token: &Token) -> Class
    requires { (token.now.start ≤ token.now.end) × (token.now.end ≤ length text.now) }
    ensures { result ≡ (word_of text.now token.now).class }
{
    class_of(token.kind, &text[token.start..token.end])
}

/// The leaf of a token of this text.
pub fn leaf_of(alloc: Global, text: &[u8], token: &Token) -> Result<Raw, NoMemory>
    requires { (token.now.start ≤ token.now.end) × (token.now.end ≤ length text.now) }
    ensures { IfOk result (λ leaf. leaf ≡ (word_of text.now token.now).leaf) }
{
    match Items::from_slice(alloc, &text[token.start..token.end]) {
        Ok(bytes) => Ok(Raw::Leaf {
            kind: token.kind,
            text: bytes,
            place: token.place,
        }),
        Err(_) => Err(NoMemory),
    }
}
