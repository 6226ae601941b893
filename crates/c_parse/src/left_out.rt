/// Where a token of a class that no text of the grammar goes on with begins what the profile leaves
/// out of C.
#[derive(Clone, Copy)]
pub enum LeftOut {
    Nowhere,
    Anywhere,
    InFunction,
    InCast,
    /// Where an operand, a target or a declarator may begin.
    AsPointer,
    /// Where a declarator may begin.
    AsDeclarator,
    /// Behind a ] or a parameter's name.
    AsIndex,
    /// Behind an expression, or behind ++ and its target.
    AsComma,
    /// Behind a group that doesn't end in a jump.
    AsLabel,
}
