// Peeling: a sketch is taken apart into a table of flows and what remains. What the walk is stands in the crate `walk`; here
// it is done over lent slices: a ring of waiting buckets with a mark for each, and a table in the order of first takes,
// with chains of slots by which a flow is looked up.
#![tactic(auto)]

pub mod queue; // the ring of waiting buckets
pub mod table; // the table of flows
pub mod take; // one take
pub mod walking; // the walk
pub mod peeling; // the refusals, the walk and the close

pub use peeling::Figures;
