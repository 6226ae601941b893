//! How a run ends.
use msp430_machine::Why;

/// How a run ended.
#[derive(Clone, Copy, Debug, PartialEq, Eq)]
pub enum End {
    /// The machine wrote this word to END.
    Ended(u16),
    /// The machine wrote this word, which isn't 4, to TRAP: 1 divide, 2 index, 3 shift.
    Trapped(u16),
    /// The machine wrote 4 to TRAP: its charge ended inside a stretch.
    PowerFault,
    /// A wake was due, and no box had a row left.
    SupplyEnded,
    /// So many instructions were executed as were allowed, and the machine hadn't stopped.
    StepLimit,
    /// The instruction at this address couldn't be executed.
    MachineFault { pc: u16, why: Why },
    /// A wake was due, and the box that was asked for a row failed.
    SupplyFault,
}
