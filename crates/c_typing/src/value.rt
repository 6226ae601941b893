use base_io::Place;
use c_tree::{Expr, Target};
use c_values::Ty;
use sqlite_items::Items;

/// An expression. One of type `void` has no value that could be used.
#[derive(Drop)]
pub struct Value {
    pub tree: Expr,
    pub is_void: bool,
}

/// What is assigned to, and its type.
#[derive(Drop)]
pub struct Aim {
    pub to: Target,
    pub ty: Ty,
}

/// Where declarators stand: their type, and whether they are `const`.
#[derive(Clone, Copy)]
pub struct Base {
    pub ty: Ty,
    pub constant: bool,
}

/// A parameter: its type, whether it is `const`, its name and the name's place, and the place of its first token. It may have
/// no name.
#[derive(Drop)]
pub struct Parameter {
    pub ty: Ty,
    pub constant: bool,
    pub name: Items<u8>,
    pub name_place: Place,
    pub place: Place,
}
