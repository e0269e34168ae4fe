// The intake: what is held of an input that comes in reads. The desk takes its records, and what they leave stays in front.
#![tactic(auto)]

pub mod opening; // the first head
pub mod moving; // bytes to the front
pub mod turning; // one turn: records taken, the rest to the front
