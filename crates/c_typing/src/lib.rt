//! What is judged of the trees of a text: the types that this is said of, and in `specs` its definitions.
#![tactic(auto)]

mod call_site;
mod meaning;
mod scopes;
mod state;
mod type_fault;
mod value;

pub use call_site::CallSite;
pub use meaning::{Declaring, Meaning};
pub use scopes::{Scopes, last_and_others};
pub use state::{Callee, Role, Signature, State};
pub use type_fault::TypeFault;
pub use value::{Aim, Base, Parameter, Value};
