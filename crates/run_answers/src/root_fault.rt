//! Why the lock file or the certificate of one root of many is refused.

ghost use Rattle.std.specs.Prelude.{◌≡◌, IfOk};
ghost use Rattle.std.specs.String.{string_bytes};
ghost use Rattle.run_answers.specs.Refusals as lines;

use crate::line_fault::{LineFault, line_fault_name};
use crate::{LockFault, Rule, lock_fault_text, rule_name};
use plain_data::Word;
use std::alloc::{AllocError, Global};

/// Why a root's lock file or certificate is refused.
#[derive(Debug, Drop)]
pub enum RootFault {
    /// The root of the lock file is not the one that is asked for, with the hash of its node.
    Root,
    /// The lock file has the fault.
    Lock(LockFault),
    /// Its graph breaks the rule, at the node and there at the number of a directive.
    Rule(Rule, Word, u64),
    /// The line of the certificate with the number, from 1, has the fault.
    Certificate(u64, LineFault),
}

#[tactic(auto, unfolding(crate::specs::Refusals::root_lock_line))]
fn root_lock_line(alloc: Global, root: u64, fault: &LockFault) -> Result<String, AllocError>
    ensures { IfOk result (λ line. string_bytes line ≡ lines.root_lock_line root fault.now) }
{
    let fault = lock_fault_text(alloc, fault)?;
    format!(in alloc; "refused: root {root}: lock {fault}\n")
}

#[tactic(auto, unfolding(crate::specs::Refusals::root_rule_line))]
fn root_rule_line(
    alloc: Global,
    root: u64,
    rule: Rule,
    node: &str,
    number: u64,
) -> Result<String, AllocError>
    ensures { IfOk result (λ line. string_bytes line ≡ lines.root_rule_line root rule
        node.now number) }
{
    let rule = rule_name(rule);
    format!(in alloc; "refused: root {root}: graph {rule} {node} {number}\n")
}

/// A line of a certificate by its number, and its fault.
#[tactic(auto, unfolding(crate::specs::Refusals::certificate_text))]
fn certificate_text(alloc: Global, number: u64, fault: LineFault) -> Result<String, AllocError>
    ensures { IfOk result (λ text. string_bytes text ≡ lines.certificate_text number fault) }
{
    let fault = line_fault_name(fault);
    format!(in alloc; "certificate line {number} {fault}")
}

#[tactic(auto, unfolding(crate::specs::Refusals::root_certificate_line))]
fn root_certificate_line(
    alloc: Global,
    root: u64,
    number: u64,
    fault: LineFault,
) -> Result<String, AllocError>
    ensures { IfOk result (λ line. string_bytes line ≡ lines.root_certificate_line root
        number fault) }
{
    let fault = certificate_text(alloc, number, fault)?;
    format!(in alloc; "refused: root {root}: {fault}\n")
}

#[tactic(auto, unfolding(crate::specs::Refusals::other_root_line))]
fn other_root_line(alloc: Global, root: u64) -> Result<String, AllocError>
    ensures { IfOk result (λ line. string_bytes line ≡ lines.other_root_line root) }
{
    format!(in alloc; "refused: root {root}: roots\n")
}

impl RootFault {
    /// The line that is said of it: that of the same fault of one lock file, with the root's
    /// number.
    pub(crate) fn line(&self, alloc: Global, root: u64) -> Result<String, AllocError>
        ensures { IfOk result (λ line. string_bytes line ≡ lines.line_of_root root self.now) }
    {
        match self {
            RootFault::Root => other_root_line(alloc, root),
            RootFault::Lock(fault) => root_lock_line(alloc, root, fault),
            RootFault::Rule(rule, node, number) => {
                root_rule_line(alloc, root, *rule, node.as_str(), *number)
            }
            RootFault::Certificate(number, fault) => {
                root_certificate_line(alloc, root, *number, *fault)
            }
        }
    }
}
