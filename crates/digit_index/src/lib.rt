//! Numbers by their digits in mixed bases, the lowest digit first.
//!
//! Equality coding keeps one bitmap for each value of a digit: the rows with that value. Range coding keeps one fewer
//! than the base (Chan and Ioannidis, "Bitmap Index Design and Evaluation", 1998): for each value but the highest, the
//! rows whose digit is at most that value; for the highest they are all rows that have a key. One bitmap more has the
//! rows that have a key.
//!
//! `Eq` and `Ne` read one bitmap of each digit under equality coding, and at most two under range coding. The orders
//! read at most two bitmaps of each digit under range coding, and under equality coding those of all values up to the
//! digit, twice. Each digit costs two or three operations more.
#![tactic(auto)]

mod bases;
mod coding;
mod digits;
mod index;

pub use bases::Bases;
pub use coding::Coding;
pub use index::DigitIndex;
