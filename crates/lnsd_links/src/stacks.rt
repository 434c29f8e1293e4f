// The stacks of a life's threads.

/// The stack of each thread of a life, in bytes. With the default, which may be 8 MiB, 96 links
/// would take more than a gibibyte of address space.
pub const STACK: usize = 262_144;
