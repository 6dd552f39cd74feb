//! Why input is refused, and what is said of it.

ghost use Rattle.std.specs.Prelude.{◌≡◌, IfOk};
ghost use Rattle.std.specs.String.{string_bytes};
ghost use Rattle.run_answers.specs.Refusals.{status_of};
ghost use Rattle.run_answers.specs.Refusals as lines;

use crate::line_fault::{LineFault, line_fault_name};
use crate::root_fault::RootFault;
use crate::status::Status;
use crate::{
    DbFault, LockFault, RecipeFault, Rule, SettingsFault, SpecFault, database_fault_text,
    lock_fault_text, recipe_fault_text, rule_name, settings_fault_text, spec_fault_text,
};
use plain_data::Word;
use std::alloc::{AllocError, Global};

/// Why input is refused.
#[derive(Debug, Drop)]
pub enum Refusal {
    /// The database is longer than 64 MiB.
    DatabaseTooLarge,
    /// The database has the fault.
    BadDatabase(DbFault),
    /// There is no file or folder at the path, which is to be read.
    MissingInput(Word),
    /// The settings are longer than 16 MiB.
    SettingsTooLarge,
    /// The settings have the fault.
    BadSettings(SettingsFault),
    /// There are more than 16,384 recipes.
    TooManyRecipes,
    /// The recipe of the package with the name is longer than 1 MiB.
    RecipeTooLarge(Word),
    /// The recipes are longer than 256 MiB together.
    RecipesTooLarge,
    /// The recipe of the package with the name has the fault.
    BadRecipe(Word, RecipeFault),
    /// The package with the name is provided by some recipe.
    NameClash(Word),
    /// The text of the specs is longer than 64 KiB.
    SpecsTooLarge,
    /// The text is no specs.
    BadSpecs(SpecFault),
    /// There are more than 64 specs.
    TooManyRoots,
    /// No recipe, external or record has the name.
    UnknownRoot(Word),
    /// Some recipe provides the name.
    VirtualRoot(Word),
    /// A spec asks for this platform, which is not the machine's.
    WrongPlatform(Word),
    /// More than 1,024 packages may be nodes.
    TooManyPackages,
    /// The lock file has 2^63 bytes or more.
    LockTooLarge,
    /// The lock file has the fault.
    BadLock(LockFault),
    /// The roots of the lock file are not those that are asked for, with the hashes of their nodes.
    OtherRoots,
    /// The graph of the lock file breaks the rule, at the node and there at the number of a
    /// directive.
    BrokenRule(Rule, Word, u64),
    /// The certificate is longer than 2^63 - 1 bytes.
    CertificateTooLarge,
    /// The line of the certificate with the number, from 1, has the fault.
    BadCertificate(u64, LineFault),
    /// The lock file or the certificate of the root with the number, from 0, is refused.
    InRoot(u64, RootFault),
}

impl Refusal {
    /// The answer that it has.
    pub fn status(&self) -> Status
        ensures { result ≡ status_of self.now }
    {
        match self {
            Refusal::MissingInput(_)
            | Refusal::BadSettings(_)
            | Refusal::BadRecipe(_, _)
            | Refusal::NameClash(_)
            | Refusal::BadDatabase(_)
            | Refusal::BadSpecs(_)
            | Refusal::UnknownRoot(_)
            | Refusal::VirtualRoot(_)
            | Refusal::WrongPlatform(_) => Status::BadInput,
            Refusal::SettingsTooLarge
            | Refusal::TooManyRecipes
            | Refusal::RecipeTooLarge(_)
            | Refusal::RecipesTooLarge
            | Refusal::DatabaseTooLarge
            | Refusal::SpecsTooLarge
            | Refusal::TooManyRoots
            | Refusal::TooManyPackages
            | Refusal::LockTooLarge
            | Refusal::CertificateTooLarge => Status::TooLarge,
            Refusal::BadLock(fault) => lock_status(fault),
            Refusal::OtherRoots
            | Refusal::BrokenRule(_, _, _)
            | Refusal::BadCertificate(_, _)
            | Refusal::InRoot(_, _) => Status::Refused,
        }
    }

    /// The line that is said of it.
    #[tactic(auto, unfolding(crate::specs::Refusals::line_of_refusal))]
    pub fn line(&self, alloc: Global) -> Result<String, AllocError>
        ensures { IfOk result (λ line. string_bytes line ≡ lines.line_of_refusal self.now) }
    {
        match self {
            Refusal::DatabaseTooLarge => format!(in alloc; "too large: database\n"),
            Refusal::BadDatabase(fault) => bad_database_line(alloc, fault),
            Refusal::MissingInput(path) => missing_line(alloc, path.as_str()),
            Refusal::SettingsTooLarge => format!(in alloc; "too large: settings\n"),
            Refusal::BadSettings(fault) => bad_settings_line(alloc, fault),
            Refusal::TooManyRecipes => format!(in alloc; "too large: recipes\n"),
            Refusal::RecipeTooLarge(name) => too_large_line(alloc, name.as_str()),
            Refusal::RecipesTooLarge => format!(in alloc; "too large: recipe bytes\n"),
            Refusal::BadRecipe(name, fault) => bad_recipe_line(alloc, name.as_str(), *fault),
            Refusal::NameClash(name) => clash_line(alloc, name.as_str()),
            Refusal::SpecsTooLarge => format!(in alloc; "too large: specs\n"),
            Refusal::BadSpecs(fault) => bad_specs_line(alloc, *fault),
            Refusal::TooManyRoots => format!(in alloc; "too large: roots\n"),
            Refusal::UnknownRoot(name) => unknown_line(alloc, name.as_str()),
            Refusal::VirtualRoot(name) => virtual_line(alloc, name.as_str()),
            Refusal::WrongPlatform(name) => platform_line(alloc, name.as_str()),
            Refusal::TooManyPackages => format!(in alloc; "too large: packages\n"),
            Refusal::LockTooLarge => format!(in alloc; "too large: lock\n"),
            Refusal::BadLock(fault) => bad_lock_line(alloc, fault),
            Refusal::OtherRoots => format!(in alloc; "refused: roots\n"),
            Refusal::BrokenRule(rule, node, number) => {
                broken_line(alloc, *rule, node.as_str(), *number)
            }
            Refusal::CertificateTooLarge => format!(in alloc; "too large: certificate\n"),
            Refusal::BadCertificate(number, fault) => bad_certificate_line(alloc, *number, *fault),
            Refusal::InRoot(root, fault) => fault.line(alloc, *root),
        }
    }
}

/// A fault of one lock file as that of a root's.
fn lock_in_root(root: u64, fault: LockFault) -> Refusal
    ensures { result ≡ lines.lock_in_root root fault }
{
    match lock_status(&fault) {
        Status::Refused => Refusal::InRoot(root, RootFault::Lock(fault)),
        _ => Refusal::BadLock(fault),
    }
}

impl Refusal {
    /// A refusal of the lock file or the certificate of the root with this number: one that is
    /// `Refused` says which root, any other is as it is.
    pub fn in_root(self, root: u64) -> Refusal
        ensures { result ≡ lines.in_root root self }
    {
        match self {
            Refusal::OtherRoots => Refusal::InRoot(root, RootFault::Root),
            Refusal::BadLock(fault) => lock_in_root(root, fault),
            Refusal::BrokenRule(rule, node, number) => {
                Refusal::InRoot(root, RootFault::Rule(rule, node, number))
            }
            Refusal::BadCertificate(number, fault) => {
                Refusal::InRoot(root, RootFault::Certificate(number, fault))
            }
            other => other,
        }
    }
}

#[tactic(auto, unfolding(crate::specs::Refusals::missing_line))]
fn missing_line(alloc: Global, path: &str) -> Result<String, AllocError>
    ensures { IfOk result (λ line. string_bytes line ≡ lines.missing_line path.now) }
{
    format!(in alloc; "bad input: missing {path}\n")
}

#[tactic(auto, unfolding(crate::specs::Refusals::bad_settings_line))]
fn bad_settings_line(alloc: Global, fault: &SettingsFault) -> Result<String, AllocError>
    ensures { IfOk result (λ line. string_bytes line ≡ lines.bad_settings_line fault.now) }
{
    let fault = settings_fault_text(alloc, fault)?;
    format!(in alloc; "bad input: settings: {fault}\n")
}

#[tactic(auto, unfolding(crate::specs::Refusals::bad_recipe_line))]
fn bad_recipe_line(alloc: Global, name: &str, fault: RecipeFault) -> Result<String, AllocError>
    ensures { IfOk result (λ line. string_bytes line ≡ lines.bad_recipe_line name.now fault) }
{
    let fault = recipe_fault_text(alloc, fault)?;
    format!(in alloc; "bad input: recipe {name}: {fault}\n")
}

#[tactic(auto, unfolding(crate::specs::Refusals::bad_database_line))]
fn bad_database_line(alloc: Global, fault: &DbFault) -> Result<String, AllocError>
    ensures { IfOk result (λ line. string_bytes line ≡ lines.bad_database_line fault.now) }
{
    let fault = database_fault_text(alloc, fault)?;
    format!(in alloc; "bad input: database: {fault}\n")
}

#[tactic(auto, unfolding(crate::specs::Refusals::bad_specs_line))]
fn bad_specs_line(alloc: Global, fault: SpecFault) -> Result<String, AllocError>
    ensures { IfOk result (λ line. string_bytes line ≡ lines.bad_specs_line fault) }
{
    let fault = spec_fault_text(alloc, fault)?;
    format!(in alloc; "bad input: specs: {fault}\n")
}

#[tactic(auto, unfolding(crate::specs::Refusals::unknown_line))]
fn unknown_line(alloc: Global, name: &str) -> Result<String, AllocError>
    ensures { IfOk result (λ line. string_bytes line ≡ lines.unknown_line name.now) }
{
    format!(in alloc; "bad input: specs: UnknownRoot {name}\n")
}

#[tactic(auto, unfolding(crate::specs::Refusals::clash_line))]
fn clash_line(alloc: Global, name: &str) -> Result<String, AllocError>
    ensures { IfOk result (λ line. string_bytes line ≡ lines.clash_line name.now) }
{
    format!(in alloc; "bad input: names: NameClash {name}\n")
}

#[tactic(auto, unfolding(crate::specs::Refusals::virtual_line))]
fn virtual_line(alloc: Global, name: &str) -> Result<String, AllocError>
    ensures { IfOk result (λ line. string_bytes line ≡ lines.virtual_line name.now) }
{
    format!(in alloc; "bad input: specs: VirtualRoot {name}\n")
}

#[tactic(auto, unfolding(crate::specs::Refusals::platform_line))]
fn platform_line(alloc: Global, platform: &str) -> Result<String, AllocError>
    ensures { IfOk result (λ line. string_bytes line ≡ lines.platform_line platform.now) }
{
    format!(in alloc; "bad input: specs: WrongPlatform {platform}\n")
}

#[tactic(auto, unfolding(crate::specs::Refusals::too_large_line))]
fn too_large_line(alloc: Global, name: &str) -> Result<String, AllocError>
    ensures { IfOk result (λ line. string_bytes line ≡ lines.too_large_line name.now) }
{
    format!(in alloc; "too large: recipe {name}\n")
}

/// What a fault of a lock file is answered by: it is no lock file at all, or one that is refused.
fn lock_status(fault: &LockFault) -> Status
    ensures { result ≡ lines.lock_status fault.now }
{
    match fault {
        LockFault::NotJson | LockFault::WrongKind(_) | LockFault::OutOfMemory => Status::BadInput,
        LockFault::TwiceNamed(_) | LockFault::HashDiffers { .. } | LockFault::Dangling { .. } =>
            Status::Refused,
    }
}

/// What is said before the fault of a lock file.
fn lock_front(fault: &LockFault) -> &'static str
    ensures { result.now ≡ lines.lock_front fault.now }
{
    match fault {
        LockFault::NotJson | LockFault::WrongKind(_) | LockFault::OutOfMemory => {
            "bad input: lock: "
        }
        LockFault::TwiceNamed(_) | LockFault::HashDiffers { .. } | LockFault::Dangling { .. } =>
            "refused: lock ",
    }
}

#[tactic(auto, unfolding(crate::specs::Refusals::bad_lock_line))]
fn bad_lock_line(alloc: Global, fault: &LockFault) -> Result<String, AllocError>
    ensures { IfOk result (λ line. string_bytes line ≡ lines.bad_lock_line fault.now) }
{
    let front = lock_front(fault);
    let fault = lock_fault_text(alloc, fault)?;
    format!(in alloc; "{front}{fault}\n")
}

#[tactic(auto, unfolding(crate::specs::Refusals::broken_line))]
fn broken_line(alloc: Global, rule: Rule, node: &str, number: u64) -> Result<String, AllocError>
    ensures { IfOk result (λ line. string_bytes line ≡ lines.broken_line rule node.now number) }
{
    let rule = rule_name(rule);
    format!(in alloc; "refused: graph {rule} {node} {number}\n")
}

#[tactic(auto, unfolding(crate::specs::Refusals::bad_certificate_line))]
fn bad_certificate_line(alloc: Global, number: u64, fault: LineFault) -> Result<String, AllocError>
    ensures { IfOk result (λ line. string_bytes line ≡ lines.bad_certificate_line number fault) }
{
    let fault = line_fault_name(fault);
    format!(in alloc; "refused: certificate line {number} {fault}\n")
}
