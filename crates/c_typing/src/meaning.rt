use c_values::Ty;

/// What a name means.
#[derive(Clone, Copy)]
pub enum Meaning {
    /// The variable of this number, with its type and the number of its elements if it is an array.
    Variable {
        number: u32,
        ty: Ty,
        length: Option<u16>,
        is_const: bool,
    },
    /// The function of this number in a list of those that are known.
    Function(u32),
}

/// What came of a declaration.
#[derive(Clone, Copy)]
pub enum Declaring {
    Declared,
    /// The name is declared in the same scope already.
    AlreadyThere,
}
