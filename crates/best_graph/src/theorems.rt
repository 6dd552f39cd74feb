//! What logs over the encoding of a problem show. The body is empty: what is proved is the
//! contract.
ghost use Rattle.best_graph.specs.Verdicts.{ValuesAreAModels, LeastIsOptimal, NoModelNoGraph, CertifiedIsOptimal, RefutedHasNoGraph, BestIsCertified, NothingIsRefuted};

/// A model of a valid graph has, at the bits, the values that spell the graph's cost vector. Where
/// no model has smaller bits, the graph is optimal; where the rules have no model, no graph is
/// valid. A certificate of these values shows the one, and a refutation the other. The log of an
/// answer is such a certificate, or such a refutation.
pub fn verdict_laws()
    ensures values { ValuesAreAModels }
    ensures least { LeastIsOptimal }
    ensures none { NoModelNoGraph }
    ensures certified { CertifiedIsOptimal }
    ensures refuted { RefutedHasNoGraph }
    ensures best { BestIsCertified }
    ensures nothing { NothingIsRefuted }
{}
