use crate::class::Class;

/// What `break` and `continue` a statement may hold: it stands in the body of a function, in a
/// `switch` that no loop holds, or in a loop.
#[derive(Clone, Copy)]
pub enum Within {
    Body,
    Switch,
    Loop,
}

/// What stands for a part of a text.
#[derive(Clone, Copy)]
pub enum Form {
    Program,
    Externals,
    External,
    Unstatic,
    Titled,
    /// Parameters, and behind them what may follow them.
    Signature,
    /// The end of a prototype, or of a definition where all parameters have names.
    Ending(bool),
    /// Parameters that all have names, or that don't.
    Params(bool),
    ParamList,
    MoreParams,
    Param,
    ParamName,
    Declarators,
    MoreDeclarators,
    Declarator,
    Initial,
    ListInitial,
    MoreValues,
    NextValue,
    Block(Within),
    Items(Within),
    Item(Within),
    Declaration,
    Statement(Within),
    ElsePart(Within),
    Returned,
    ForFirst,
    Tested,
    Stepped,
    /// Groups of a `switch` behind one that ends in a jump, or behind one that doesn't.
    Groups(Within, bool),
    /// A group that ends in a jump, or that doesn't.
    Group(Within, bool),
    /// What stands behind a label: more labels, then items.
    Labelled(Within),
    Label,
    Action,
    Target,
    Subscript,
    /// An index and its ].
    Subscripted,
    Assign,
    Expr,
    Choice,
    /// What stands behind a ?.
    Chosen,
    Binary,
    Operations,
    Unary,
    /// What a unary operator or a cast is applied to.
    Operand,
    /// The type of a cast and its ).
    CastType,
    Primary,
    /// An expression in parentheses and its ).
    Grouped,
    /// The arguments of a call and their ).
    Passed,
    Arguments,
    MoreArguments,
    TypeName,
    AfterChar,
    AfterSign,
    AfterShort,
    AfterInt,
    AfterSignShort,
    AfterSignInt,
    AfterShortInt,
}

/// A token of a class, or a part of the text.
#[derive(Clone, Copy)]
pub enum Symbol {
    Token(Class),
    Sub(Form),
}

/// What is read before it is told what it begins.
#[derive(Clone, Copy)]
pub enum Delay {
    /// A ( of an operand: a cast, or an expression in parentheses.
    Opened,
    /// A name of an operand: a call, or a variable.
    Called,
    /// A name behind a type: a function, or a declarator.
    Named,
    /// A name with which an action begins.
    Begun,
    /// The same behind its index.
    Indexed,
}

/// What is known of a part once it is read.
#[derive(Clone, Copy)]
pub enum Late {
    /// Whether parameters all have names.
    Params,
    /// Whether a group ends in a jump.
    Group(Within),
}

/// What the parser waits for.
#[derive(Clone, Copy)]
pub enum Wait {
    Want(Symbol),
    Close(Form),
    Choose(Delay),
    Judge(Late),
}
