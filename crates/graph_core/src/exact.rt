//! Copies and comparisons of what a graph is made of.

use crate::{Compiler, Edge, Kinds, Node, Origin};
use plain_data::{Duplicate, Same};
use std::alloc::{AllocError, Global};

impl Duplicate for Compiler {
    fn duplicate(&self, alloc: Global) -> Result<Compiler, AllocError> {
        Ok(Compiler {
            name: self.name.duplicate(alloc)?,
            version: self.version.duplicate(alloc)?,
        })
    }
}

impl Same for Compiler {
    fn same(&self, other: &Compiler) -> bool {
        self.name.same(&other.name) && self.version.same(&other.version)
    }
}

impl Duplicate for Kinds {
    fn duplicate(&self, _: Global) -> Result<Kinds, AllocError> {
        Ok(*self)
    }
}

impl Same for Kinds {
    fn same(&self, other: &Kinds) -> bool {
        *self == *other
    }
}

impl Duplicate for Origin {
    fn duplicate(&self, _: Global) -> Result<Origin, AllocError> {
        Ok(*self)
    }
}

impl Same for Origin {
    fn same(&self, other: &Origin) -> bool {
        *self == *other
    }
}

impl Duplicate for Node {
    fn duplicate(&self, alloc: Global) -> Result<Node, AllocError> {
        Ok(Node {
            name: self.name.duplicate(alloc)?,
            version: self.version.duplicate(alloc)?,
            variants: self.variants.duplicate(alloc)?,
            compiler: self.compiler.duplicate(alloc)?,
            os: self.os.duplicate(alloc)?,
            target: self.target.duplicate(alloc)?,
            prefix: self.prefix.duplicate(alloc)?,
            origin: self.origin.duplicate(alloc)?,
        })
    }
}

impl Same for Node {
    fn same(&self, other: &Node) -> bool {
        self.name.same(&other.name)
            && self.version.same(&other.version)
            && self.variants.same(&other.variants)
            && self.compiler.same(&other.compiler)
            && self.os.same(&other.os)
            && self.target.same(&other.target)
            && self.prefix.same(&other.prefix)
            && self.origin.same(&other.origin)
    }
}

impl Duplicate for Edge {
    fn duplicate(&self, alloc: Global) -> Result<Edge, AllocError> {
        Ok(Edge {
            parent: self.parent.duplicate(alloc)?,
            child: self.child.duplicate(alloc)?,
            kinds: self.kinds,
            virtuals: self.virtuals.duplicate(alloc)?,
        })
    }
}

impl Same for Edge {
    fn same(&self, other: &Edge) -> bool {
        self.parent.same(&other.parent)
            && self.child.same(&other.child)
            && self.kinds.same(&other.kinds)
            && self.virtuals.same(&other.virtuals)
    }
}
