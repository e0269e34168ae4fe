// Stream files: a head, any number of packet records, an end. Read into a lent sketch, and written from flows and numbers.
#![tactic(auto)]

pub mod reading; // a stream's packets inserted in turn
pub mod writing; // a stream of flows and numbers
