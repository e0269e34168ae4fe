// Sketch files: a head, the buckets that are not all zero in rising index, each once, an end. Read and written.
#![tactic(auto)]

pub mod reading; // a sketch file in place of a lent sketch's content
pub mod writing; // the one file of a sketch
