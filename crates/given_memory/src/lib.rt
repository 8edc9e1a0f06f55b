//! An allocator over memory that the caller of a module gives.
#![tactic(auto)]

mod heap;
mod one_block;

pub use heap::{Heap, heap_over};
pub use one_block::{GivenMemory, OneBlock};
