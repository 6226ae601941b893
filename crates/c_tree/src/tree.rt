//! The typed tree. Contracts see it as plain data without pointers.

use base_io::Place;
use c_values::{BinaryOp, Ty, UnaryOp};
use sqlite_items::{Boxed, Items};

/// A global, a parameter or a local. `length` is an array's number of elements; a scalar has none.
/// `first` holds the words of all values of a global, and is empty for every other variable.
#[derive(Drop)]
pub struct Variable {
    pub ty: Ty,
    pub length: Option<u16>,
    pub first: Items<u16>,
    pub global: bool,
}

/// A program: its variables and functions in the order of the text, the place of `main` in `functions`,
/// and the number of nodes of the tree.
#[derive(Drop)]
pub struct Program {
    pub variables: Items<Variable>,
    pub functions: Items<Function>,
    pub main: u32,
    pub nodes: u32,
}

/// A function: the bytes of its name, its parameters by their places in `variables`, the type of its result unless
/// it is `void`, its body, and the place of its closing brace.
#[derive(Drop)]
pub struct Function {
    pub name: Items<u8>,
    pub params: Items<u32>,
    pub result: Option<Ty>,
    pub body: Stmt,
    pub end: Place,
}

/// An expression and the type of its value.
#[cycle(expr)]
pub struct Expr {
    pub place: Place,
    pub ty: Ty,
    pub kind: ExprKind,
}

/// What an expression is. `Number` holds the word of its value, `Var`, `Element` and `Call` name variables and functions by
/// their places in the program, and `Convert` stands for each conversion to another type, written or implied.
#[derive(Drop)]
#[cycle(expr)]
pub enum ExprKind {
    Number(u32),
    Var(u32),
    Element {
        array: u32,
        index: Boxed<Expr>,
    },
    Convert(Boxed<Expr>),
    Unary {
        op: UnaryOp,
        a: Boxed<Expr>,
    },
    Binary {
        op: BinaryOp,
        a: Boxed<Expr>,
        b: Boxed<Expr>,
    },
    Cond {
        test: Boxed<Expr>,
        yes: Boxed<Expr>,
        no: Boxed<Expr>,
    },
    Call {
        function: u32,
        args: Items<Expr>,
    },
    Input,
    Output(Boxed<Expr>),
}

/// Goes down the first operands in a loop: they may lie some 1,000 deep, all other operands 64.
impl Drop for Expr {
    #[cycle(expr)]
    fn drop(mut self) {
        'operands: loop {
            let Expr {
                place: _,
                ty: _,
                kind,
            } = self;
            match kind {
                ExprKind::Element { array: _, index } => self = index.into_inner(),
                ExprKind::Convert(inner) => self = inner.into_inner(),
                ExprKind::Unary { op: _, a } => self = a.into_inner(),
                ExprKind::Binary { op: _, a, b } => {
                    drop(b);
                    self = a.into_inner();
                }
                ExprKind::Cond { test, yes, no } => {
                    drop(yes);
                    drop(no);
                    self = test.into_inner();
                }
                ExprKind::Output(inner) => self = inner.into_inner(),
                ExprKind::Call { function: _, args } => {
                    drop(args);
                    return;
                }
                ExprKind::Number(_word) => return,
                ExprKind::Var(_variable) => return,
                ExprKind::Input => return,
            }
        }
    }
}

/// What is assigned to: a scalar, or an element of an array.
#[derive(Drop)]
pub struct Target {
    pub place: Place,
    pub variable: u32,
    pub index: Option<Boxed<Expr>>,
}

/// An assignment, an assignment with an operator, or an expression whose value isn't used. Of an `Update`, `at` is the place of the
/// operator and `ty` the type in which it is worked out; `by` is the right side, and none for `++` and `--`.
#[derive(Drop)]
pub enum Action {
    Assign {
        to: Target,
        value: Expr,
    },
    Update {
        to: Target,
        at: Place,
        op: BinaryOp,
        ty: Ty,
        by: Option<Expr>,
    },
    Value(Expr),
}

/// A declarator. `values` is empty where there is no initialiser.
#[derive(Drop)]
pub struct Declared {
    pub place: Place,
    pub variable: u32,
    pub values: Items<Expr>,
}

/// An item of a block: a declaration or a statement.
#[derive(Drop)]
#[cycle(stmt)]
pub enum BlockItem {
    Declare(Items<Declared>),
    Act(Stmt),
}

/// A statement.
#[derive(Drop)]
#[cycle(stmt)]
pub struct Stmt {
    pub place: Place,
    pub kind: StmtKind,
}

/// What a statement is (C11 6.8).
#[derive(Drop)]
#[cycle(stmt)]
pub enum StmtKind {
    Block(Items<BlockItem>),
    Empty,
    Act(Action),
    Break,
    Continue,
    Return(Option<Expr>),
    If {
        test: Expr,
        yes: Boxed<Stmt>,
        no: Option<Boxed<Stmt>>,
    },
    While {
        test: Expr,
        body: Boxed<Stmt>,
    },
    Do {
        body: Boxed<Stmt>,
        test: Expr,
    },
    For {
        first: Option<ForFirst>,
        test: Option<Expr>,
        step: Option<Action>,
        body: Boxed<Stmt>,
    },
    Switch {
        value: Expr,
        groups: Items<Group>,
    },
}

/// What a `for` does first.
#[derive(Drop)]
pub enum ForFirst {
    Declare(Items<Declared>),
    Act(Action),
}

/// A group of a `switch`: its labels, and the items that follow them.
#[derive(Drop)]
#[cycle(stmt)]
pub struct Group {
    pub labels: Items<Label>,
    pub items: Items<BlockItem>,
}

/// A label: the word of its value, or none for `default`.
#[derive(Clone, Copy, PartialEq, Eq, Debug)]
pub struct Label {
    pub place: Place,
    pub value: Option<u32>,
}
