//! What a run is to answer.
//!
//! What it is: `read_task` of a command over a desk: what is read is one for all commands, and each
//! command's own work is one case of `Task`. Below it `read_verdict` of a lock file, which `judge`
//! says, and `read_certificate` of a log, which `check` and `refute` say.
//! What it promises: exactly the task, or the refusal that is due first, whatever the desk; a
//! device's fault only where its count rose. What a yes shows of the problem's graphs; and by
//! `again_laws`, that the check says yes to what a search wrote.
//! What it stands on: `run_input` for what is read, `lockfile`, `graph_judge` and `cost_vector` for
//! lock files, `certified` for logs, `best_graph` for the clauses and what they mean, `trial_input`
//! for the files of trials.
//! What it must not know: how a problem is solved, who made a log, and what is written.
#![tactic(auto)]

mod accepted_again;
mod alone;
mod certificate;
mod certificate_sayings;
mod each_check;
mod lock;
mod looks;
mod one_verdict;
mod pieces;
mod places;
mod posed_tasks;
mod roots;
mod task;
mod text_verdict;
mod verdict;
mod whole;

// What crates above answer with.
pub use accepted_again::again_laws;
pub use alone::alone_input;
pub use best_graph::{
    Answer, Explanation, LeastExplanation, Progress, Stage, Untold, best_graph, explain,
    explain_least,
};
pub use certificate::read_certificate;
pub use possible_closure::alone_laws;
// The cost vector, for crates above.
pub use certificate_sayings::certificate_laws;
pub use cost_vector::vector;
pub use one_verdict::verdict_laws;
pub use places::{cert_at, lock_at};
pub use posed_tasks::task_laws;
pub use run_input::{
    Command, Input, Query, ReadStop, Refusal, Status, Stop, Work, WriteStop, is_dash, read_command,
};
pub use task::{Task, read_task};
pub use verdict::{read_valid_graph, read_verdict};
