//! The program that says a problem's encoding as DIMACS: `dimacs_text::dimacs_machine` over the
//! standard streams. Its stored run encodes a repository with nodes of each origin, a virtual, a
//! condition on what stands below, and a cycle that is possible.
#![tactic(auto)]

use dimacs_text::dimacs_machine;
use std::process::ExitCode;

fn main(rt: HostRuntime) -> ExitCode {
    dimacs_machine(&rt, rt.stdout(), rt.stderr())
}
