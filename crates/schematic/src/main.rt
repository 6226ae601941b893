//! The program, which `schematic_main` does.
#![tactic(auto)]

use schematic_main::status_of;
use std::process::ExitCode;

fn main(rt: HostRuntime) -> ExitCode {
    ExitCode::from(status_of(rt))
}
