//! The objects that an operation reads or writes.

ghost use Rattle.std.specs.Prelude.{◌≡◌};
ghost use Rattle.touched_objects.specs.Touched.{is_array, is_dest, is_object, names};

use flow_graph::{ArrayUse, Op, Operand};

fn is_object(operand: &Operand, object: u32) -> bool
    ensures { result ≡ is_object operand.now object }
{
    match operand {
        Operand::Const(_) => false,
        Operand::Object(own) => *own == object,
    }
}

fn is_array(array: &Option<ArrayUse>, object: u32) -> bool
    ensures { result ≡ is_array array.now object }
{
    match array {
        None => false,
        Some(own) => own.object == object,
    }
}

fn is_dest(dest: &Option<u32>, object: u32) -> bool
    ensures { result ≡ is_dest dest.now object }
{
    match dest {
        None => false,
        Some(own) => *own == object,
    }
}

/// Whether the operation reads or writes the object.
pub fn names(op: &Op, object: u32) -> bool
    ensures { result ≡ names op.now object }
{
    is_object(&op.a, object)
        || is_object(&op.b, object)
        || is_array(&op.array, object)
        || is_dest(&op.dest, object)
}
