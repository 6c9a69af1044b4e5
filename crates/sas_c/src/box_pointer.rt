// A box, taken apart.
ghost use Rattle.std.specs.Prelude.{◌≡◌};
ghost use Rattle.std.specs.Box.Ownership.{box_owns};

use std::alloc::Allocator;
use std::marker::Model;

/// A box as its pointer and its allocator. It owns what the box owns; `value` is what the pointer points to.
pub struct BoxPointer<T, A: Allocator> {
    pub(crate) at: *mut T,
    pub(crate) alloc: A,
    pub ghost value: { T },
}

impl<T, A: Allocator> Model for BoxPointer<T, A> {
    ghost also_owns = { λ b. box_owns (A.dealloc_token b.alloc) T.row b.at b.value };
}

impl<T: Drop, A: Allocator> BoxPointer<T, A> {
    /// Takes a box apart.
    pub fn of(value: Box<T, A>) -> BoxPointer<T, A>
        ensures { result.value ≡ value.value }
    {
        let (at, alloc) = Box::into_raw_with_allocator(value);
        BoxPointer { at, alloc }
    }

    /// Turns it back into the box.
    pub fn into_box(self) -> Box<T, A>
        ensures { result.value ≡ self.value }
    {
        let BoxPointer { at, alloc } = self;
        unsafe { Box::from_raw(alloc, at) }
    }
}
