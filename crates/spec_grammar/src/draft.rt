//! Specs while they are read.

ghost use Rattle.std.specs.Prelude.{◌≡◌, IfOk, OnOk};

use crate::constrain::add;
use crate::item::SpecItem;
use crate::mode::Mode;
use crate::open_part::OpenPart;
use crate::{Part, Spec};
use plain_data::{List, Word};
use std::alloc::{AllocError, Global};
use std::mem;

/// Specs while they are read, changed in place. A part is put by `Option::insert`: an assignment
/// would be proved once for each way to drop what stood there before.
#[derive(Drop)]
pub struct Draft {
    /// The specs that are over.
    pub specs: List<Spec>,
    /// The first part of the spec at hand, once that is over.
    pub top: Option<Part>,
    /// Its further parts that are over.
    pub below: List<Part>,
    /// The part at hand. `None` where a NAME is needed.
    pub part: Option<OpenPart>,
}

impl Draft {
    ghost use Rattle.std.specs.Prelude.{None, option_map};
    ghost use Rattle.spec_grammar.specs.Reading.{first_draft};
    ghost use Rattle.spec_grammar.specs.Meaning.{Becomes, nest, finished_specs, end_spec, begin_part, constrain, take_item};

    /// What stands before the first item.
    pub(crate) fn begin(alloc: Global, mode: Mode) -> Draft
        ensures { result ≡ first_draft mode }
    {
        let part = if mode.needs_name() {
            None
        } else {
            Some(OpenPart::empty(alloc, None))
        };
        Draft {
            specs: List::new(alloc),
            top: None,
            below: List::new(alloc),
            part,
        }
    }

    /// A part of the spec at hand is over, and `^` stands behind it.
    fn nest(&mut self, alloc: Global, part: OpenPart) -> Result<(), AllocError>
        requires { self.old.part ≡ None }
        ensures { OnOk result (self.new ≡ nest self.old part) }
    {
        let part = part.close(alloc)?;
        if self.top.is_none() {
            self.top.insert(part);
            Ok(())
        } else {
            self.below.push(part)
        }
    }

    /// The spec at hand is over, and this is its last part.
    fn end_spec(&mut self, alloc: Global, part: OpenPart) -> Result<(), AllocError>
        requires { self.old.part ≡ None }
        ensures { OnOk result (self.new ≡ end_spec self.old part) }
    {
        self.nest(alloc, part)?;
        let below = mem::replace(&mut self.below, List::new(alloc));
        match self.top.take() {
            Some(top) => self.specs.push(Spec { top, below }),
            None => unreachable!(),
        }
    }

    /// A NAME names the part at hand, begins one behind `^`, or begins another spec.
    fn begin_part(&mut self, alloc: Global, name: Word) -> Result<(), AllocError>
        ensures { OnOk result (self.new ≡ begin_part name self.old self.old.part) }
    {
        if let Some(part) = &mut self.part
            && part.name.is_none()
        {
            part.name = Some(name);
            return Ok(());
        }
        if let Some(part) = self.part.take() {
            self.end_spec(alloc, part)?;
        }
        self.part.insert(OpenPart::empty(alloc, Some(name)));
        Ok(())
    }

    /// A constraint belongs to the part at hand.
    fn constrain(&mut self, alloc: Global, item: SpecItem) -> Result<bool, AllocError>
        ensures { IfOk result (λ done. Becomes (constrain item self.old self.old.part)
            done self.new) }
    {
        match &mut self.part {
            Some(part) => add(alloc, part, item),
            None => {
                drop(item);
                Ok(false)
            }
        }
    }

    /// `^` stands behind the part at hand.
    fn take_caret(&mut self, alloc: Global) -> Result<bool, AllocError>
        ensures { IfOk result (λ done. Becomes (take_item SpecItem.Caret self.old) done self.new) }
    {
        match self.part.take() {
            Some(part) => {
                self.nest(alloc, part)?;
                Ok(true)
            }
            None => Ok(false),
        }
    }

    /// Takes an item more, and is `false` where it sets the same again.
    pub(crate) fn take(&mut self, alloc: Global, item: SpecItem) -> Result<bool, AllocError>
        ensures { IfOk result (λ done. Becomes (take_item item self.old) done self.new) }
    {
        match item {
            SpecItem::Name(name) => {
                self.begin_part(alloc, name)?;
                Ok(true)
            }
            SpecItem::Caret => self.take_caret(alloc),
            item => self.constrain(alloc, item),
        }
    }

    /// Takes the specs out, where a part is at hand.
    pub(crate) fn take_specs(&mut self, alloc: Global) -> Result<Option<List<Spec>>, AllocError>
        ensures { IfOk result (λ specs. specs ≡ option_map (finished_specs self.old)
            self.old.part) }
    {
        match self.part.take() {
            Some(part) => {
                self.end_spec(alloc, part)?;
                Ok(Some(mem::replace(&mut self.specs, List::new(alloc))))
            }
            None => Ok(None),
        }
    }
}
