//! The program `schematic` once more, whose stored run is on a text that is refused, so that its exit status isn't 0.
#![tactic(auto)]

use schematic_main::status_of;
use std::process::ExitCode;

fn main(rt: HostRuntime) -> ExitCode {
    ExitCode::from(status_of(rt))
}
