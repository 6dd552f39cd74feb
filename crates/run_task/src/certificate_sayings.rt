//! What may be said of any certificate. The body is empty: what is proved is the contract.

ghost use Rattle.std.specs.Prelude.{ℕ, List, Option};
ghost use Rattle.outside_desk.specs.Files.{Files};
ghost use Rattle.problem.specs.Problems.{Problem};
ghost use Rattle.run_task.specs.CertificateVerdicts.{MayBeSaid};
ghost use Rattle.run_task.specs.Certificates.{certified_at};

/// A certificate is right, or it is missing, has a line that is refused, or is too large.
#[tactic(auto, using(crate::proofs::Sayings::may_be_said))]
pub fn certificate_laws()
    ensures { (files : Files) (path : List ℕ) (problem : Problem) (numbers : Option (List ℕ))
        → MayBeSaid path (certified_at files path problem numbers) }
{}
