use std::alloc::Global;

/// Reads statements whose expressions have at most so many levels less one.
#[derive(Clone, Copy)]
pub struct Parser {
    pub alloc: Global,
    pub depth: usize,
}
