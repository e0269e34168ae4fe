// The desk: records of an upstream and a downstream stream, taken as they come.
#![tactic(auto)]

pub mod states; // where the reading stands, from the first head to the end of the input
pub mod heads; // the two heads of the input
pub mod stages; // what is due, one after the other
pub mod feeding; // records as they come
