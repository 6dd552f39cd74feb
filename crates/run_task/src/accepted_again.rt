//! What is said of the log of an answer. The body has laws alone: what is proved is the contract.

ghost use Rattle.run_task.specs.Again.{BestIsAccepted, EachIsAccepted, NothingIsAccepted};

use best_graph::verdict_laws;
use certified::text_laws;
use log_checker::checker_laws;

/// The log of a best graph is accepted as a certificate of the graph's costs, and that of a problem
/// without a graph as a refutation: the check of a file says yes to what a run wrote of an answer,
/// and that of many files to what one wrote of many.
pub fn again_laws()
    ensures best { BestIsAccepted }
    ensures nothing { NothingIsAccepted }
    ensures each { EachIsAccepted }
{
    checker_laws();
    text_laws();
    verdict_laws();
}
