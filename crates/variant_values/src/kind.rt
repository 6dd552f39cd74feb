// Kinds of variants.
use plain_data::{Duplicate, Same};
use std::alloc::{AllocError, Global};

/// How many values a variant takes, and which.
#[derive(Debug, Clone, Copy, PartialEq, Eq)]
pub enum VariantKind {
    /// On or off.
    Bool,
    /// One text.
    Single,
    /// Any set of texts.
    Multi,
}

impl Duplicate for VariantKind {
    fn duplicate(&self, _: Global) -> Result<VariantKind, AllocError> {
        Ok(*self)
    }
}

impl Same for VariantKind {
    fn same(&self, other: &VariantKind) -> bool {
        *self == *other
    }
}
