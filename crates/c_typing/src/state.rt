use crate::call_site::CallSite;
use crate::scopes::Scopes;
use crate::type_fault::TypeFault;
use c_tree::{Function, Variable};
use c_values::Ty;
use sqlite_items::Items;

/// How a function is known: `in` and `out` before the text, or by its declarations so far.
#[derive(Clone, Copy)]
pub enum Role {
    Input,
    Output,
    Declared,
    Defined,
}

/// A function's type: those of its parameters, and of its result unless it is `void`.
#[derive(Drop)]
pub struct Signature {
    pub params: Items<Ty>,
    pub result: Option<Ty>,
    pub role: Role,
}

/// What a call asks of a function: the number of its parameters, its result and how it is known.
#[derive(Clone, Copy)]
pub struct Callee {
    pub arity: usize,
    pub result: Option<Ty>,
    pub role: Role,
}

/// What has been found of a text up to some token.
#[derive(Drop)]
pub struct State {
    /// The names that are in scope.
    pub scopes: Scopes,
    /// The functions that are known, of which `scopes` holds the places here.
    pub signatures: Items<Signature>,
    pub variables: Items<Variable>,
    /// The functions whose bodies have ended.
    pub functions: Items<Function>,
    /// The calls of functions of the text, in its order.
    pub calls: Items<CallSite>,
    pub nodes: u64,
    pub faults: Items<TypeFault>,
    /// The names of all functions that the text defines, in its order.
    pub defined: Items<Items<u8>>,
    /// The name whose initialiser is open, and else no bytes.
    pub unready: Items<u8>,
    /// The type of the result of the function that is open, unless it is `void`.
    pub result: Option<Ty>,
}
