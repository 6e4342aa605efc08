//! Scripts over streams in memory.
mod memory;
