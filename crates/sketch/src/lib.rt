// Fermat sketches over lent slices: d arrays of m buckets, each bucket a signed count and an idsum modulo a prime.
// A sketch is lent as one slice of counts and one of idsums. Every public function takes every input. What cannot be done is
// refused by number, and a refusal alters nothing; a function that has no refusal says what it gives in its place.
#![tactic(auto)]

pub mod arrays; // an array's own stretch of a sketch
pub mod packets; // fresh sketches, and packets put in and taken out
