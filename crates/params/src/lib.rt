// The parameters of a Fermat sketch and where a flow stands under them, and the refusals that a call of the library may give.
// Every public function takes every input. What cannot be done is refused by number; a function that has no refusal says what it
// gives in its place.
#![tactic(auto)]

pub mod answers; // the refusals of a call
pub mod params; // the parameters, and where a flow stands

pub use answers::{Refusal, Refused};
pub use params::{PRIME, Params};
