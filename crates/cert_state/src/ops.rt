//! What operations do with their destinations.
ghost use Rattle.std.specs.Prelude.{◌≡◌};
ghost use Rattle.msp430_isa.specs.Profile.{is_move as is_move_lem};
ghost use Rattle.msp430_isa.specs.Results.{reads_destination as reads_destination_lem, writes_destination as writes_destination_lem};

use msp430_isa::TwoOp;

/// MOV.
pub fn is_move(op: TwoOp) -> bool
    ensures { result ≡ is_move_lem op }
{
    match op {
        TwoOp::Mov => true,
        _ => false,
    }
}

/// MOV doesn't read its destination.
pub fn reads_destination(op: TwoOp) -> bool
    ensures { result ≡ reads_destination_lem op }
{
    match op {
        TwoOp::Mov => false,
        _ => true,
    }
}

/// CMP and BIT don't write theirs.
pub fn writes_destination(op: TwoOp) -> bool
    ensures { result ≡ writes_destination_lem op }
{
    match op {
        TwoOp::Cmp | TwoOp::Bit => false,
        _ => true,
    }
}
