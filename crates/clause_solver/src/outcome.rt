//! What a call of the solver ends with.

/// What a call of the solver ends with.
#[derive(Debug, Clone, Copy, PartialEq, Eq)]
pub enum Outcome {
    /// There is a model, and the solver has it.
    Model,
    /// There is none: the log's last line says so.
    Refuted,
    /// One clause more than the budget was learnt: the log has ended.
    Spent,
}
