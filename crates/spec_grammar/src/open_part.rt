//! Parts while they are read.

ghost use Rattle.std.specs.Prelude.{◌≡◌, false, IfOk, OnOk};
ghost use Rattle.spec_grammar.specs.Meaning.{empty_part, has_variant, with_variant};

use crate::{Part, TargetItem};
use plain_data::{List, Word};
use std::alloc::{AllocError, Global};
use std::collections::BTreeMap;
use std::marker::Model;
use std::mem;
use variant_values::ValueSet;
use version_order::VersionSet;

/// A part while it is read, seen as the part that it is so far.
///
/// A variant is found and set in logarithmic time, however many there are.
#[derive(Drop)]
pub struct OpenPart {
    pub(crate) name: Option<Word>,
    pub(crate) versions: Option<VersionSet>,
    pub(crate) variants: BTreeMap<Word, ValueSet>,
    pub(crate) compiler: Option<(Word, Option<VersionSet>)>,
    pub(crate) platform: Option<Word>,
    pub(crate) os: Option<Word>,
    pub(crate) targets: Option<List<TargetItem>>,
}

impl Model for OpenPart {
    ghost use Rattle.spec_grammar.specs.declared.part.Part.{Part};

    ghost Value = { Part };

    ghost view = { λ p. record { name = p.name; versions = p.versions; variants = p.variants.entries; compiler = p.compiler; platform = p.platform; os = p.os; targets = p.targets } };
}

impl OpenPart {
    /// A part of which nothing is asked but its name.
    pub(crate) fn empty(alloc: Global, name: Option<Word>) -> OpenPart
        ensures { result ≡ empty_part name }
    {
        OpenPart {
            name,
            versions: None,
            variants: BTreeMap::new(alloc),
            compiler: None,
            platform: None,
            os: None,
            targets: None,
        }
    }

    /// Whether a variant of this name is set.
    pub(crate) fn has_variant(&self, name: &Word) -> bool
        ensures { result ≡ has_variant name.now self.now.variants }
    {
        self.variants.contains_key(name)
    }

    /// Sets a variant that is not set.
    pub(crate) fn put_variant(&mut self, name: Word, values: ValueSet) -> Result<(), AllocError>
        requires { has_variant name self.old.variants ≡ false }
        ensures { OnOk result (self.new ≡ record self.old {
          variants =
              with_variant (name, values) self.old.variants;
        }) }
    {
        self.variants.insert(name, values)?;
        Ok(())
    }

    /// The part, now that it is over.
    pub(crate) fn close(mut self, alloc: Global) -> Result<Part, AllocError>
        ensures { IfOk result (λ part. part ≡ self) }
    {
        let variants = mem::replace(&mut self.variants, BTreeMap::new(alloc));
        let variants = match in_order(alloc, variants) {
            Ok(variants) => variants,
            Err(error) => {
                drop(self);
                return Err(error);
            }
        };
        let OpenPart {
            name,
            versions,
            compiler,
            platform,
            os,
            targets,
            ..
        } = self;
        Ok(Part {
            name,
            versions,
            variants,
            compiler,
            platform,
            os,
            targets,
        })
    }
}

/// The variants in byte order of their names.
fn in_order(
    alloc: Global,
    variants: BTreeMap<Word, ValueSet>,
) -> Result<List<(Word, ValueSet)>, AllocError>
    ensures { IfOk result (λ all. all ≡ variants.entries) }
{
    let mut all = List::from_vec(Vec::with_capacity(alloc, variants.len())?);
    for variant in variants {
        all.push(variant)?;
    }
    Ok(all)
}
