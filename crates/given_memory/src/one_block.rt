//! An allocator of one block: memory that was given.
ghost use Rattle.std.specs.Prelude.{◌≡◌, ◌%◌, ◌^◌, ◌<◌, ◌≤◌, IfSome};
ghost use base.Fml.{ftrue};
ghost use Rattle.linked_list_allocator.specs.Ownership.{bytes_at};

use std::alloc::{AllocError, Allocator};
use std::cell::Cell;
use std::marker::Model;

/// Memory begins at a multiple of so many bytes, and has a multiple of them.
const UNIT: usize = 16;

/// So many bytes from a place on, which the caller gives up. Place and size are multiples of 16.
#[repr(C)]
#[derive(Drop)]
pub struct GivenMemory {
    at: *mut u8,
    size: usize,
}

impl Model for GivenMemory {
    ghost also_owns = { λ memory. bytes_at memory.at memory.size };
}

impl GivenMemory {
    /// How many bytes it has, and the memory again.
    pub(crate) fn with_size(self) -> (usize, GivenMemory)
        ensures { (result.0 ≡ self.size) × (result.1 ≡ self) }
    {
        let GivenMemory { at, size } = self;
        (size, GivenMemory { at, size })
    }
}

/// Gives all its memory as one block, once. A block that is freed is not given again.
#[derive(Drop)]
pub struct OneBlock {
    left: Cell<Option<GivenMemory>>,
}

impl OneBlock {
    /// Of this memory.
    pub fn new(memory: GivenMemory) -> OneBlock {
        OneBlock {
            left: Cell::new(Some(memory)),
        }
    }

    /// The memory, where it is left and serves a block of this layout.
    fn take(&self, size: usize, align: usize) -> Option<GivenMemory>
        ensures { IfSome result (λ memory. (size ≤ memory.size) × (memory.size % 16 ≡ 0)
            × (size < 2 ^ 63) × (align ≤ 16)) }
    {
        if align > UNIT || size > isize::MAX as usize {
            return None;
        }
        let (whole, memory) = self.left.replace(None)?.with_size();
        if whole < size || whole % UNIT != 0 {
            return None;
        }
        Some(memory)
    }
}

unsafe impl Allocator for OneBlock {
    ghost dealloc_token = { λ _ _ _. ftrue };

    fn allocate(&self, size: usize, align: usize) -> Result<*mut u8, AllocError> {
        match self.take(size, align) {
            Some(GivenMemory { at, size: _ }) => Ok(at),
            None => Err(AllocError),
        }
    }

    unsafe fn deallocate(&self, _ptr: *mut u8, _size: usize, _align: usize) {}
}
