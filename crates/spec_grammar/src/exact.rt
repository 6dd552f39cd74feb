//! Copies and comparisons of specs.

use crate::{Condition, Part, Spec, TargetItem};
use plain_data::{Duplicate, Same};
use std::alloc::{AllocError, Global};

impl Duplicate for TargetItem {
    fn duplicate(&self, alloc: Global) -> Result<TargetItem, AllocError> {
        Ok(TargetItem {
            low: self.low.duplicate(alloc)?,
            high: self.high.duplicate(alloc)?,
            range: self.range,
        })
    }
}

impl Same for TargetItem {
    fn same(&self, other: &TargetItem) -> bool {
        self.low.same(&other.low) && self.high.same(&other.high) && self.range == other.range
    }
}

impl Duplicate for Part {
    fn duplicate(&self, alloc: Global) -> Result<Part, AllocError> {
        Ok(Part {
            name: self.name.duplicate(alloc)?,
            versions: self.versions.duplicate(alloc)?,
            variants: self.variants.duplicate(alloc)?,
            compiler: self.compiler.duplicate(alloc)?,
            platform: self.platform.duplicate(alloc)?,
            os: self.os.duplicate(alloc)?,
            targets: self.targets.duplicate(alloc)?,
        })
    }
}

impl Same for Part {
    fn same(&self, other: &Part) -> bool {
        self.name.same(&other.name)
            && self.versions.same(&other.versions)
            && self.variants.same(&other.variants)
            && self.compiler.same(&other.compiler)
            && self.platform.same(&other.platform)
            && self.os.same(&other.os)
            && self.targets.same(&other.targets)
    }
}

impl Duplicate for Spec {
    fn duplicate(&self, alloc: Global) -> Result<Spec, AllocError> {
        Ok(Spec {
            top: self.top.duplicate(alloc)?,
            below: self.below.duplicate(alloc)?,
        })
    }
}

impl Same for Spec {
    fn same(&self, other: &Spec) -> bool {
        self.top.same(&other.top) && self.below.same(&other.below)
    }
}

impl Duplicate for Condition {
    fn duplicate(&self, alloc: Global) -> Result<Condition, AllocError> {
        Ok(Condition {
            specs: self.specs.duplicate(alloc)?,
        })
    }
}

impl Same for Condition {
    fn same(&self, other: &Condition) -> bool {
        self.specs.same(&other.specs)
    }
}
