//! Specs of packages, read from their texts and written as canonical ones.
//!
//! What it is: the readers of the four kinds of spec texts, and the writer of a spec.
//! What it promises: a text is read as what it spells, or refused at the first item that is not right.
//! What it stands on: `version_order` for LIST, `variant_values` for sets of values, `plain_data`.
//! What it must not know: which packages, versions and variants there are, and files.
//!
//! Spack's documentation of the spec syntax has the rules.
#![tactic(auto)]

mod constrain;
mod draft;
mod exact;
mod fault;
mod forms;
mod item;
mod key;
mod mode;
mod open_part;
mod part;
mod read;
mod read_item;
mod reading;
mod signs;
mod theorems;
mod values;
mod values_set;
mod write;

pub use fault::{Form, SpecFault};
pub use part::{Condition, Part, Spec, TargetItem};
pub use read::{
    read_condition, read_condition_bytes, read_dependency, read_dependency_bytes,
    read_local_condition_bytes, read_provision, read_provision_bytes, read_specs, read_specs_bytes,
};
pub use signs::{is_name, is_name_byte, is_white};
pub use theorems::{reading_is_total, reading_laws, writing_laws};
pub use write::{write_spec, write_variants};
