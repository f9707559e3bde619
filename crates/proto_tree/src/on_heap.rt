// A value on the heap that contracts see as the value itself.

ghost use Rattle.std.specs.Prelude.{◌≡◌, IfOk};

use proto_base::NoMemory;
use std::alloc::Global;
use std::marker::Model;

/// A value on the heap: a pointer, where it is held.
#[derive(Drop)]
pub struct OnHeap<T: Drop> {
    inner: Box<T>,
}

impl<T: Drop> Model for OnHeap<T> {
    ghost Value = { T };

    ghost coded = { T.code };

    ghost view = { λ b. b.inner.value };
}

impl<T: Drop> OnHeap<T> {
    /// Puts the value on the heap. Fails only when out of memory.
    pub fn new(alloc: Global, value: T) -> Result<Self, NoMemory>
        ensures { IfOk result (λ made. made ≡ value) }
    {
        Ok(OnHeap {
            inner: Box::new(alloc, value)?,
        })
    }

    /// The value.
    pub fn get(&self) -> &T
        ensures { result.now ≡ self.now }
    {
        &self.inner
    }
}
