//! Copies and comparisons of entries.

use crate::{CompilerEntry, ExternalEntry, PackageEntry, RequireEntry};
use plain_data::{Duplicate, Same};
use std::alloc::{AllocError, Global};

impl Duplicate for CompilerEntry {
    fn duplicate(&self, alloc: Global) -> Result<CompilerEntry, AllocError> {
        Ok(CompilerEntry {
            compiler: self.compiler.duplicate(alloc)?,
            os: self.os.duplicate(alloc)?,
            targets: self.targets.duplicate(alloc)?,
        })
    }
}

impl Same for CompilerEntry {
    fn same(&self, other: &CompilerEntry) -> bool {
        self.compiler.same(&other.compiler)
            && self.os.same(&other.os)
            && self.targets.same(&other.targets)
    }
}

impl Duplicate for ExternalEntry {
    fn duplicate(&self, alloc: Global) -> Result<ExternalEntry, AllocError> {
        Ok(ExternalEntry {
            version: self.version.duplicate(alloc)?,
            variants: self.variants.duplicate(alloc)?,
            compiler: self.compiler.duplicate(alloc)?,
            os: self.os.duplicate(alloc)?,
            target: self.target.duplicate(alloc)?,
            prefix: self.prefix.duplicate(alloc)?,
        })
    }
}

impl Same for ExternalEntry {
    fn same(&self, other: &ExternalEntry) -> bool {
        self.version.same(&other.version)
            && self.variants.same(&other.variants)
            && self.compiler.same(&other.compiler)
            && self.os.same(&other.os)
            && self.target.same(&other.target)
            && self.prefix.same(&other.prefix)
    }
}

impl Duplicate for RequireEntry {
    fn duplicate(&self, alloc: Global) -> Result<RequireEntry, AllocError> {
        Ok(RequireEntry {
            specs: self.specs.duplicate(alloc)?,
            one_of: self.one_of,
            when: self.when.duplicate(alloc)?,
        })
    }
}

impl Same for RequireEntry {
    fn same(&self, other: &RequireEntry) -> bool {
        self.specs.same(&other.specs) && self.one_of == other.one_of && self.when.same(&other.when)
    }
}

impl Duplicate for PackageEntry {
    fn duplicate(&self, alloc: Global) -> Result<PackageEntry, AllocError> {
        Ok(PackageEntry {
            name: self.name.duplicate(alloc)?,
            versions: self.versions.duplicate(alloc)?,
            buildable: self.buildable,
            externals: self.externals.duplicate(alloc)?,
            require: self.require.duplicate(alloc)?,
        })
    }
}

impl Same for PackageEntry {
    fn same(&self, other: &PackageEntry) -> bool {
        self.name.same(&other.name)
            && self.versions.same(&other.versions)
            && self.buildable == other.buildable
            && self.externals.same(&other.externals)
            && self.require.same(&other.require)
    }
}
