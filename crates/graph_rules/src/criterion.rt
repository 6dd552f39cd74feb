//! The criteria: the one table that vectors, terms of sums and their laws go over.

/// In what the ends of an edge may differ.
#[derive(Debug, Clone, Copy, PartialEq, Eq)]
pub enum Attribute {
    Compiler,
    Os,
    Target,
}

/// What a node adds to a sum.
#[derive(Debug, Clone, Copy, PartialEq, Eq)]
pub enum Summed {
    /// 1 for the node.
    Node,
    /// 1 where its version is deprecated.
    Deprecated,
    /// The weight of its version.
    Version,
    /// Its values that are no default values.
    OtherValues,
    /// Its default values that are not used.
    UnusedDefaults,
    /// The weights of the virtuals whose provider it is.
    Providers,
    /// Its edges to nodes that differ from it.
    Edges(Attribute),
    /// The weight of its operating system.
    Os,
    /// The weight of its target.
    Target,
    /// The weight of its compiler.
    Compiler,
}

/// What is summed, and which nodes add to the sum.
#[derive(Debug, Clone, Copy, PartialEq, Eq)]
pub enum Criterion {
    /// All nodes do.
    All(Summed),
    /// The roots do: the nodes with the name of a requested spec.
    Roots(Summed),
    /// The nodes do that are no roots.
    Others(Summed),
}

/// The criteria, the first to compare first.
pub const CRITERIA: [Criterion; 15] = [
    Criterion::All(Summed::Deprecated),
    Criterion::Roots(Summed::Version),
    Criterion::Roots(Summed::OtherValues),
    Criterion::Roots(Summed::Providers),
    Criterion::Roots(Summed::UnusedDefaults),
    Criterion::Others(Summed::OtherValues),
    Criterion::Others(Summed::Providers),
    Criterion::All(Summed::Edges(Attribute::Compiler)),
    Criterion::All(Summed::Edges(Attribute::Os)),
    Criterion::All(Summed::Os),
    Criterion::Others(Summed::Version),
    Criterion::Others(Summed::UnusedDefaults),
    Criterion::All(Summed::Compiler),
    Criterion::All(Summed::Edges(Attribute::Target)),
    Criterion::All(Summed::Target),
];

/// How many numbers a vector has: one for each criterion over the nodes to build, the number of
/// these nodes, and one for each criterion over the others.
pub const NUMBERS: usize = 2 * CRITERIA.len() + 1;
