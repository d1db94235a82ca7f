//! The items of lists, which are numbers or names.
ghost use Rattle.std.specs.Prelude.{◌≡◌, ◌++◌, OnOk};
ghost use Rattle.std.specs.List.{flat_map};
ghost use Rattle.edit_frame.specs.Fields.{items_at};
ghost use Rattle.edit_frame.specs.Gives.{Gives, MayGiveItems};

use crate::fail::{Bad, FieldFail};
use crate::reading::{name_of, short_of};
use crate::writing::{put_name, put_short};
use element_name::Name;
use std::alloc::{AllocError, Global};

pub trait Item: Copy {
    ghost use Rattle.std.specs.Prelude.{ℕ, List};
    ghost use Rattle.edit_frame.specs.Fields.{Reader};

    /// How it is read.
    ghost item_at: { Reader Self };

    /// How it is spelled.
    ghost item_bytes: { Self → List ℕ };

    fn read(rest: &mut &[u8]) -> Result<Self, Bad>
        ensures { Gives result rest.new.now (item_at rest.old.now) };

    fn put(self, out: &mut Vec<u8>) -> Result<(), AllocError>
        ensures { OnOk result (out.new.items ≡ out.old.items ++ item_bytes self) };
}

impl Item for u16 {
    ghost use Rattle.edit_frame.specs.Fields.{short_at};
    ghost use Rattle.edit_frame.specs.Spelling.{short_bytes};

    ghost item_at = { short_at };

    ghost item_bytes = { short_bytes };

    fn read(rest: &mut &[u8]) -> Result<u16, Bad> {
        short_of(rest)
    }

    fn put(self, out: &mut Vec<u8>) -> Result<(), AllocError> {
        put_short(out, self)
    }
}

impl Item for Name {
    ghost use Rattle.edit_frame.specs.Fields.{name_at};
    ghost use Rattle.edit_frame.specs.Spelling.{name_bytes};

    ghost item_at = { name_at };

    ghost item_bytes = { name_bytes };

    fn read(rest: &mut &[u8]) -> Result<Name, Bad> {
        name_of(rest)
    }

    fn put(self, out: &mut Vec<u8>) -> Result<(), AllocError> {
        put_name(out, self)
    }
}

/// So many items.
pub fn items_of<T: Item>(alloc: Global, count: u8, rest: &mut &[u8]) -> Result<Vec<T>, FieldFail>
    ensures { MayGiveItems result rest.new.now (items_at T.item_at count rest.old.now) }
{
    let mut items = Vec::new(alloc);
    for _ in 0..count {
        let item = T::read(rest)?;
        items.push(item)?;
    }
    Ok(items)
}

pub fn put_items<T: Item>(out: &mut Vec<u8>, items: &[T]) -> Result<(), AllocError>
    ensures { OnOk result (out.new.items ≡ out.old.items ++ flat_map T.item_bytes items.now) }
{
    for item in items {
        item.put(out)?;
    }
    Ok(())
}
