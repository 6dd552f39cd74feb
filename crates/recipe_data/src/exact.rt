//! Copies and comparisons of rows.

use crate::{ConflictRow, DependRow, ProvideRow, Recipe, RequireRow, VariantRow, VersionRow};
use plain_data::{Duplicate, Same};
use std::alloc::{AllocError, Global};

impl Duplicate for VersionRow {
    fn duplicate(&self, alloc: Global) -> Result<VersionRow, AllocError> {
        Ok(VersionRow {
            version: self.version.duplicate(alloc)?,
            preferred: self.preferred,
            deprecated: self.deprecated,
            number: self.number,
        })
    }
}

impl Same for VersionRow {
    fn same(&self, other: &VersionRow) -> bool {
        self.version.same(&other.version)
            && self.preferred == other.preferred
            && self.deprecated == other.deprecated
            && self.number == other.number
    }
}

impl Duplicate for VariantRow {
    fn duplicate(&self, alloc: Global) -> Result<VariantRow, AllocError> {
        Ok(VariantRow {
            name: self.name.duplicate(alloc)?,
            kind: self.kind,
            values: self.values.duplicate(alloc)?,
            default: self.default.duplicate(alloc)?,
            when: self.when.duplicate(alloc)?,
            number: self.number,
        })
    }
}

impl Same for VariantRow {
    fn same(&self, other: &VariantRow) -> bool {
        self.name.same(&other.name)
            && self.kind.same(&other.kind)
            && self.values.same(&other.values)
            && self.default.same(&other.default)
            && self.when.same(&other.when)
            && self.number == other.number
    }
}

impl Duplicate for DependRow {
    fn duplicate(&self, alloc: Global) -> Result<DependRow, AllocError> {
        Ok(DependRow {
            part: self.part.duplicate(alloc)?,
            kinds: self.kinds,
            when: self.when.duplicate(alloc)?,
            number: self.number,
        })
    }
}

impl Same for DependRow {
    fn same(&self, other: &DependRow) -> bool {
        self.part.same(&other.part)
            && self.kinds.same(&other.kinds)
            && self.when.same(&other.when)
            && self.number == other.number
    }
}

impl Duplicate for ProvideRow {
    fn duplicate(&self, alloc: Global) -> Result<ProvideRow, AllocError> {
        Ok(ProvideRow {
            name: self.name.duplicate(alloc)?,
            versions: self.versions.duplicate(alloc)?,
            when: self.when.duplicate(alloc)?,
            number: self.number,
        })
    }
}

impl Same for ProvideRow {
    fn same(&self, other: &ProvideRow) -> bool {
        self.name.same(&other.name)
            && self.versions.same(&other.versions)
            && self.when.same(&other.when)
            && self.number == other.number
    }
}

impl Duplicate for ConflictRow {
    fn duplicate(&self, alloc: Global) -> Result<ConflictRow, AllocError> {
        Ok(ConflictRow {
            spec: self.spec.duplicate(alloc)?,
            when: self.when.duplicate(alloc)?,
            number: self.number,
        })
    }
}

impl Same for ConflictRow {
    fn same(&self, other: &ConflictRow) -> bool {
        self.spec.same(&other.spec) && self.when.same(&other.when) && self.number == other.number
    }
}

impl Duplicate for RequireRow {
    fn duplicate(&self, alloc: Global) -> Result<RequireRow, AllocError> {
        Ok(RequireRow {
            specs: self.specs.duplicate(alloc)?,
            one_of: self.one_of,
            when: self.when.duplicate(alloc)?,
            number: self.number,
        })
    }
}

impl Same for RequireRow {
    fn same(&self, other: &RequireRow) -> bool {
        self.specs.same(&other.specs)
            && self.one_of == other.one_of
            && self.when.same(&other.when)
            && self.number == other.number
    }
}

impl Duplicate for Recipe {
    fn duplicate(&self, alloc: Global) -> Result<Recipe, AllocError> {
        Ok(Recipe {
            name: self.name.duplicate(alloc)?,
            versions: self.versions.duplicate(alloc)?,
            variants: self.variants.duplicate(alloc)?,
            depends: self.depends.duplicate(alloc)?,
            provides: self.provides.duplicate(alloc)?,
            conflicts: self.conflicts.duplicate(alloc)?,
            requirements: self.requirements.duplicate(alloc)?,
        })
    }
}

impl Same for Recipe {
    fn same(&self, other: &Recipe) -> bool {
        self.name.same(&other.name)
            && self.versions.same(&other.versions)
            && self.variants.same(&other.variants)
            && self.depends.same(&other.depends)
            && self.provides.same(&other.provides)
            && self.conflicts.same(&other.conflicts)
            && self.requirements.same(&other.requirements)
    }
}
