//! The text of items.

ghost use Rattle.std.specs.Prelude.{◌≡◌, ◌++◌, ◌∷◌, [], OnOk, OnErr, is_ok, if◌then◌else◌};
ghost use Rattle.version_order.specs.Items.{written, spell, spell_more, spelling, IsFront};

use crate::{Item, Version};
use std::alloc::AllocError;

fn write_byte(byte: u8, out: &mut Vec<u8>) -> Result<(), AllocError>
    ensures { out.new.items ≡ (if is_ok result then out.old.items ++ byte ∷ [] else out.old.items) }
{
    out.push(byte)?;
    Ok(())
}

fn write_version(version: &Version, out: &mut Vec<u8>) -> Result<(), AllocError>
    ensures { out.new.items ≡ (if is_ok result then out.old.items
        ++ version.now else out.old.items) }
{
    out.extend_from_slice(version.text().as_bytes())
}

fn write_end(end: &Option<Version>, out: &mut Vec<u8>) -> Result<(), AllocError>
    ensures { out.new.items ≡ (if is_ok result then out.old.items
        ++ written end.now else out.old.items) }
{
    match end {
        Some(version) => write_version(version, out),
        None => Ok(()),
    }
}

/// Appends the text of an item, or some of it after an error.
fn write_item(item: &Item, out: &mut Vec<u8>) -> Result<(), AllocError>
    ensures written { OnOk result (out.new.items ≡ out.old.items ++ spell item.now) }
    ensures kept { OnErr result (IsFront out.old.items out.new.items) }
{
    match item {
        Item::Exact(version) => {
            write_byte(b'=', out)?;
            write_version(version, out)
        }
        Item::Prefix(version) => write_version(version, out),
        Item::Range(low, high) => {
            write_end(low, out)?;
            write_byte(b':', out)?;
            write_end(high, out)
        }
    }
}

/// Appends a comma and the text of an item for each item, or some of it after an error.
fn write_more(items: &[Item], out: &mut Vec<u8>) -> Result<(), AllocError>
    ensures written { OnOk result (out.new.items ≡ out.old.items ++ spell_more items.now) }
    ensures kept { OnErr result (IsFront out.old.items out.new.items) }
{
    for item in items {
        write_byte(b',', out)?;
        write_item(item, out)?;
    }
    Ok(())
}

/// Appends the text of the items, or some of it after an error.
pub(crate) fn write_items(items: &[Item], out: &mut Vec<u8>) -> Result<(), AllocError>
    ensures written { OnOk result (out.new.items ≡ out.old.items ++ spelling items.now) }
    ensures kept { OnErr result (IsFront out.old.items out.new.items) }
{
    let Some((first, others)) = items.split_first() else {
        return Ok(());
    };
    write_item(first, out)?;
    write_more(others, out)
}
