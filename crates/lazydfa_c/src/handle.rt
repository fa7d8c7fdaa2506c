//! Handles, through which C owns objects on the heap.
ghost use Rattle.std.specs.Prelude.{◌≡◌, ◌↔◌, IfSome, IsFalse, IsSome, None, Option, Some};
ghost use Rattle.lazydfa_c.specs.Held.{held};
ghost use Rattle.lazydfa_c.specs.Handles.{is_open};
ghost use Rattle.lazydfa_c.specs.contracts.object.Object.{the_row as object_row};
ghost use Rattle.lazydfa_c.specs.declared.object.Object.{Object};

use crate::loose::Loose;
use crate::object::Object;
use std::alloc::Global;
use std::marker::Model;
use std::mem;
use std::ptr::null_mut;

/// A pointer that owns an object, or is unused. It has no `Drop`, and so a handle has none either: code that drops an
/// object together with its handle does not compile.
#[repr(C)]
pub struct Slot {
    at: *mut u8,
    ghost value: { Option Object },
}

impl Model for Slot {
    ghost also_owns = { λ s. held object_row s.at s.value };
}

impl Slot {
    /// Returns a slot that owns nothing and holds this pointer.
    fn closed(at: *mut u8) -> Slot
        ensures { result.value ≡ None }
    {
        Slot { at }
    }

    /// Returns a slot that owns the object at this pointer.
    fn of(object: Loose<Object, Global>) -> Slot
        ensures { result.value ≡ Some object.value }
    {
        let Loose { at, alloc: _ } = object;
        Slot { at: at as *mut u8 }
    }

    /// Returns the pointer to the object that a slot owns.
    fn open(self, alloc: Global) -> Loose<Object, Global>
        requires { IsSome self.value }
        ensures { self.value ≡ Some result.value }
    {
        let Slot { at } = self;
        Loose {
            at: at as *mut Object,
            alloc,
        }
    }

    /// Consumes a slot that owns nothing.
    fn end(self)
        requires { self.value ≡ None }
    {
        let Slot { at: _ } = self;
    }

    /// Returns a slot that owns nothing and holds a null pointer.
    fn empty() -> Slot
        ensures { result.value ≡ None }
    {
        let at: *mut u8 = null_mut();
        Slot::closed(at)
    }
}

/// What C holds: a pointer, and whether the handle is open. C initially sets both to zero, and never changes them.
#[repr(C)]
pub struct Handle {
    slot: Slot,
    live: u64,
    ghost full: { live ≡ 1 → IsSome slot.value },
    ghost empty: { (live ≡ 1 → ⊥) → slot.value ≡ None },
}

impl Handle {
    /// Returns an open handle that owns the object.
    pub fn of(object: Box<Object>) -> Handle
        ensures live { result.live ≡ 1 }
        ensures value { result.slot.value ≡ Some object.value }
    {
        Handle {
            slot: Slot::of(Loose::of(object)),
            live: 1,
        }
    }

    /// Whether the handle owns an object.
    pub fn is_open(&self) -> bool
        ensures live { result ≡ is_open self.now.live }
        ensures empty { IsFalse result → self.now.slot.value ≡ None }
    {
        self.live != 0
    }

    /// Takes the object out of a handle, if it owns one, and leaves the handle closed.
    pub fn take(&mut self, alloc: Global) -> Option<Box<Object>>
        ensures empty { self.new.slot.value ≡ None }
        ensures live { self.new.live ≡ 0 }
        ensures value { IfSome result (λ b. self.old.slot.value ≡ Some b.value) }
        ensures opened { IsSome result ↔ (self.old.live ≡ 1) }
    {
        let live = mem::replace(&mut self.live, 0);
        let slot = mem::replace(&mut self.slot, Slot::empty());
        if live != 1 {
            slot.end();
            return None;
        }
        Some(slot.open(alloc).into_box())
    }

    /// Puts an object into a handle that owns nothing, and opens the handle.
    pub fn put(&mut self, object: Box<Object>)
        requires { self.now.slot.value ≡ None }
        ensures live { self.new.live ≡ 1 }
        ensures value { self.new.slot.value ≡ Some object.value }
    {
        let Handle { slot, live: _ } = mem::replace(self, Handle::of(object));
        slot.end();
    }
}
