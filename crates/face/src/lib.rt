// The library as C calls it: numbers, arrays and lent slices, and no type of our own. Every call takes every input, answers with
// the number of the refusal, or 0 where it is done, and writes the place that goes with it. The crate face_c exports these calls, and
// include/gabunlitik.h is their header.
#![tactic(auto)]

mod returned; // parameters from fourteen numbers, and answers as numbers
pub mod filing; // stream files and sketch files, read and written, and the head of a file
pub mod positions; // positions and indexes
pub mod sketches; // fresh sketches, packets, sums, differences and folds
pub mod walks; // peeling
