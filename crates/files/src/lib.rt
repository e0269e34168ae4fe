// What stream files and sketch files are made of, byte by byte: what stands at an offset, a record's body as a part of the lent
// bytes, the head, the fields of each record and the end, read and written.
#![tactic(auto)]

pub mod records; // what stands at an offset, and its body
pub mod heads; // the parameters in a head, and what is judged first of a file
pub mod fields; // what the body of packets, of a bucket or of an end says
pub mod ends; // what is due after the records
pub mod writing; // records written into lent bytes
