//! The reading of a problem, and the saying of its encoding.

ghost use Rattle.std.specs.Prelude.{◌≡◌, IfOk, IfSome, OnOk};
ghost use Rattle.outside_desk.specs.Causes.{Counts};
ghost use Rattle.outside_desk.specs.Files.{StillTells};
ghost use Rattle.run_input.specs.Inputs.{IsPosed};
ghost use Rattle.run_input.specs.Words.{words_of};
ghost use Rattle.dimacs_text.specs.Answers.{explained, text_of};
ghost use Rattle.dimacs_text.specs.Attempts.{Attempts, AttemptsBy, Concludes, Follows, FollowsBy, SaysAll, StopsBefore, FailsToRead, FailsToPut, FailsToSay};

use crate::{dimacs_text, rules_line};
use outside_desk::{Desk, Sink, SinkFault};
use problem_encoding::{encode_rules, with_costs};
use run_input::{Command, Input, ReadStop, Stop, WriteStop, read_command, read_input};
use std::alloc::{AllocError, Global};
use std::thread::Threads;

/// The words of the command that reads what these name.
#[tactic(auto, unfolding(crate::specs::Answers::explained))]
fn explained(alloc: Global, words: &[String]) -> Result<Vec<String>, AllocError>
    ensures { IfOk result (λ all. words_of all.items ≡ explained (words_of words.now)) }
{
    let mut all = Vec::new(alloc);
    all.push(String::from_str(alloc, "explain")?)?;
    for word in words {
        all.push(word.clone()?)?;
    }
    Ok(all)
}

/// The text of the encoding of what was read.
#[tactic(auto, unfolding(crate::specs::Answers::text_of))]
fn text_of(alloc: Global, input: &Input) -> Result<Vec<u8>, AllocError>
    requires { IsPosed input.now }
    ensures { IfOk result (λ text. text.items ≡ text_of input.now.problem) }
{
    let problem = &input.problem;
    let rules = encode_rules(alloc, problem, &input.closure)?;
    let mut text = rules_line(alloc, &rules.clauses)?;
    let encoded = with_costs(alloc, problem, rules)?;
    let rest = dimacs_text(
        alloc,
        problem,
        &encoded.clauses,
        &encoded.bits,
        &encoded.table,
    )?;
    text.extend_from_slice(rest.as_slice())?;
    Ok(text)
}

/// Says a text on the sink of the answer.
fn say<O: Sink>(alloc: Global, out: &mut O, text: &[u8]) -> Result<(), Stop>
    ensures left { SaysAll text.now (O.said out.old) (O.said out.new) result }
    ensures cause { Counts (O.faults out.old) (O.faults out.new) (FailsToSay result) }
    ensures steady { OnOk result (O.faults out.new ≡ O.faults out.old) }
{
    match out.say(alloc, text) {
        Ok(()) => Ok(()),
        Err(SinkFault::Failed) => Err(Stop::Write(WriteStop::Output)),
        Err(SinkFault::OutOfMemory) => Err(Stop::Write(WriteStop::NoMemory)),
    }
}

/// Says the encoding of what was read.
fn say_input<O: Sink>(alloc: Global, out: &mut O, input: &Input) -> Result<(), Stop>
    requires { IsPosed input.now }
    ensures left { SaysAll (text_of input.now.problem) (O.said out.old) (O.said out.new) result }
    ensures cause { Counts (O.faults out.old) (O.faults out.new) (FailsToSay result) }
    ensures steady { OnOk result (O.faults out.new ≡ O.faults out.old) }
{
    match text_of(alloc, input) {
        Ok(text) => say(alloc, out, text.as_slice()),
        Err(AllocError) => Err(Stop::Write(WriteStop::NoMemory)),
    }
}

/// Reads the problem that a command names, and says its encoding.
fn attempt_by<R: Threads + Sync, D: Desk, O: Sink>(
    rt: &R,
    alloc: Global,
    command: &Command<'_>,
    desk: &mut D,
    out: &mut O,
) -> Result<(), Stop>
    ensures outcome { IfSome (D.files desk.new) (λ files. AttemptsBy files command.now
        (O.said out.old) (O.said out.new) result) }
    ensures follows { FollowsBy (D.files desk.new) command.now result }
    ensures unsaid { StopsBefore result → O.said out.new ≡ O.said out.old }
    ensures steady { Concludes result → (D.faults desk.new ≡ D.faults desk.old)
        × (O.faults out.new ≡ O.faults out.old) }
    ensures read { Counts (D.faults desk.old) (D.faults desk.new) (FailsToRead result) }
    ensures said { Counts (O.faults out.old) (O.faults out.new) (FailsToSay result) }
    ensures no_put { FailsToPut result → ⊥ }
    ensures same { StillTells (D.files desk.old) (D.files desk.new) }
    ensures put_faults { D.put_faults desk.new ≡ D.put_faults desk.old }
{
    match read_input(rt, alloc, desk, command) {
        Ok(input) => {
            let said = say_input(alloc, out, &input);
            drop(input);
            said
        }
        Err(stop) => Err(Stop::Read(stop)),
    }
}

/// The same by the words of the command.
fn attempt_over<R: Threads + Sync, D: Desk, O: Sink>(
    rt: &R,
    alloc: Global,
    words: &[String],
    desk: &mut D,
    out: &mut O,
) -> Result<(), Stop>
    ensures outcome { IfSome (D.files desk.new) (λ files. Attempts files (words_of words.now)
        (O.said out.old) (O.said out.new) result) }
    ensures follows { Follows (D.files desk.new) (words_of words.now) result }
    ensures unsaid { StopsBefore result → O.said out.new ≡ O.said out.old }
    ensures steady { Concludes result → (D.faults desk.new ≡ D.faults desk.old)
        × (O.faults out.new ≡ O.faults out.old) }
    ensures read { Counts (D.faults desk.old) (D.faults desk.new) (FailsToRead result) }
    ensures said { Counts (O.faults out.old) (O.faults out.new) (FailsToSay result) }
    ensures no_put { FailsToPut result → ⊥ }
    ensures same { StillTells (D.files desk.old) (D.files desk.new) }
    ensures put_faults { D.put_faults desk.new ≡ D.put_faults desk.old }
{
    match read_command(alloc, words) {
        Ok(command) => attempt_by(rt, alloc, &command, desk, out),
        Err(Stop::Usage) => Err(Stop::Usage),
        Err(_) => Err(Stop::Read(ReadStop::NoMemory)),
    }
}

/// Reads the problem that the words behind the program's name ask for, and says its encoding.
pub fn attempt<R: Threads + Sync, D: Desk, O: Sink>(
    rt: &R,
    alloc: Global,
    words: &[String],
    desk: &mut D,
    out: &mut O,
) -> Result<(), Stop>
    ensures outcome { IfSome (D.files desk.new) (λ files. Attempts files
        (explained (words_of words.now)) (O.said out.old) (O.said out.new) result) }
    ensures follows { Follows (D.files desk.new) (explained (words_of words.now)) result }
    ensures unsaid { StopsBefore result → O.said out.new ≡ O.said out.old }
    ensures steady { Concludes result → (D.faults desk.new ≡ D.faults desk.old)
        × (O.faults out.new ≡ O.faults out.old) }
    ensures read { Counts (D.faults desk.old) (D.faults desk.new) (FailsToRead result) }
    ensures said { Counts (O.faults out.old) (O.faults out.new) (FailsToSay result) }
    ensures no_put { FailsToPut result → ⊥ }
    ensures same { StillTells (D.files desk.old) (D.files desk.new) }
    ensures put_faults { D.put_faults desk.new ≡ D.put_faults desk.old }
{
    match explained(alloc, words) {
        Ok(all) => attempt_over(rt, alloc, all.as_slice(), desk, out),
        Err(AllocError) => Err(Stop::Read(ReadStop::NoMemory)),
    }
}
