//! The allocator of a call.

use crate::one_block::{GivenMemory, OneBlock};
use bumpalo::Bump;

/// Takes blocks one below the other from memory that was given. The last one is freed, grows and
/// shrinks in place.
pub type Heap = Bump<OneBlock>;

/// An arena asks for whole pages, with what it keeps beside them.
const ROUNDING: usize = 8192;

/// An allocator over memory. Where that is too small it refuses all requests.
pub fn heap_over(memory: GivenMemory) -> Heap {
    let (size, memory) = memory.with_size();
    let most = size.saturating_sub(ROUNDING);
    let heap = Bump::new(OneBlock::new(memory));
    // The first block is nearly all, and is freed at once: so there is one piece of memory, from
    // which all other blocks come.
    drop(Vec::<u8, &Heap>::with_capacity(&heap, most));
    heap
}
