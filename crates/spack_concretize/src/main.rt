//! The program: `command_line::run_machine` over the standard streams. Its stored run ends in Unsatisfiable, so that the
//! gate sees an exit status that is not 0 and the stream of the answer.
#![tactic(auto)]

use command_line::run_machine;
use std::process::ExitCode;

fn main(rt: HostRuntime) -> ExitCode {
    run_machine(&rt, rt.stdout(), rt.stderr())
}
