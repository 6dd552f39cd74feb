//! The program that replays scenarios: `scenario_replay::replay_machine` over standard output. Its
//! stored run replays those of the repository, of which each must be the same, and wrong ones, of
//! which each mistake is told and none passes silently; what it must say of these was written from
//! the rules.
#![tactic(auto)]

use scenario_replay::replay_machine;
use std::process::ExitCode;

fn main(rt: HostRuntime) -> ExitCode {
    replay_machine(&rt, rt.stdout())
}
