// Settling: the downstream's sketch taken from the upstream's, and the difference peeled, in one call.
#![tactic(auto)]

pub mod settling; // subtract, then peel

pub use settling::settle;
