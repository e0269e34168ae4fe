// The lines of the report, written into lent bytes.
#![tactic(auto)]

mod text; // words and numbers
pub mod lines; // loss, left, end and refused
pub mod reports; // a whole report, its lines in order
