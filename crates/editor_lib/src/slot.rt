//! A place for a desk, as a pointer that C keeps.
//!
//! What C keeps can hold a pointer, but neither a `Box` nor an `Option` of one, and the borrow checker doesn't follow what a
//! pointer owns. So `empty`, `of_parts`, `into_parts` and the two functions of `Parts` are proved by hand: no derive of the kit
//! writes them, and its own `futures` keeps a box behind a pointer by the same functions.
ghost use Rattle.std.specs.Prelude.{◌≡◌, Option, Some, None};
ghost use Rattle.editor_lib.specs.Desk.{Desk};
ghost use Rattle.editor_lib.specs.Slot.{maybe_owns};

mod parts;

use crate::desk::Desk;
use parts::Parts;
use std::alloc::Global;
use std::marker::Model;

/// A pointer to a desk that it owns, or a null pointer. C keeps it, and begins with the null pointer.
#[repr(C)]
#[derive(Drop)]
pub struct DeskSlot {
    ptr: *mut u8,
    alloc: Global,
    pub ghost value: { Option Desk },
}

impl Model for DeskSlot {
    ghost also_owns = { λ s. maybe_owns s.alloc s.ptr s.value };
}

impl DeskSlot {
    /// The slot of a desk.
    pub fn of(desk: Box<Desk, Global>) -> DeskSlot
        ensures { result.value ≡ Some desk.value }
    {
        DeskSlot::of_parts(Parts::of(desk))
    }

    /// A slot without a desk.
    pub fn empty(alloc: Global) -> DeskSlot
        ensures { result.value ≡ None }
    {
        DeskSlot {
            ptr: std::ptr::null_mut(),
            alloc,
        }
    }

    /// The desk of a slot that has one.
    pub fn into_box(self) -> Box<Desk, Global>
        ghost value: { Desk }
        requires { self.value ≡ Some value }
        ensures { result.value ≡ value }
    {
        self.into_parts().into_box()
    }

    fn of_parts(parts: Parts<Desk, Global>) -> DeskSlot
        ensures { result.value ≡ Some parts.value }
    {
        let Parts { ptr, alloc } = parts;
        DeskSlot {
            ptr: ptr as *mut u8,
            alloc,
        }
    }

    fn into_parts(self) -> Parts<Desk, Global>
        ghost value: { Desk }
        requires { self.value ≡ Some value }
        ensures { result.value ≡ value }
    {
        let DeskSlot { ptr, alloc } = self;
        Parts {
            ptr: ptr as *mut Desk,
            alloc,
        }
    }
}
