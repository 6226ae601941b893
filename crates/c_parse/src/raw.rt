use base_io::Place;
use c_lex::TokenKind;
use sqlite_items::Items;

/// The rule of a node.
#[derive(Clone, Copy, Debug, PartialEq, Eq)]
pub enum RawRule {
    Program,
    External,
    Params,
    Param,
    Declarator,
    Block,
    Item,
    Declaration,
    Statement,
    Group,
    Label,
    Action,
    Target,
    Assign,
    Expr,
    Binary,
    Unary,
    Primary,
    TypeName,
}

/// The tree of a text: a token with its bytes, or a rule with the tokens and trees of its alternative.
pub enum Raw {
    Leaf {
        kind: TokenKind,
        text: Items<u8>,
        place: Place,
    },
    Node {
        rule: RawRule,
        parts: Items<Raw>,
    },
}

/// Goes down the first parts in a loop: the operands of an expression may lie 1,000 deep in them, all other parts 64.
impl Drop for Raw {
    fn drop(mut self) {
        'nodes: loop {
            match self {
                Raw::Leaf {
                    kind: _,
                    text: _text,
                    place: _,
                } => return,
                Raw::Node { rule: _, parts } => {
                    let mut parts = parts;
                    let Some(last) = parts.pop() else {
                        drop(parts);
                        return;
                    };
                    let mut part = last;
                    'parts: while let Some(before) = parts.pop() {
                        drop(part);
                        part = before;
                    }
                    drop(parts);
                    self = part;
                }
            }
        }
    }
}
