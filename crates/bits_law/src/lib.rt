//! Bitmaps as lists of bools, whichever way they are kept, and what indexes over them share.
//!
//! [`Bits`] is the law of a bitmap. [`slices_ask`] compares numbers that are kept one bit to a slice. [`Table`]
//! keeps, for a list of keys of which some are missing, one bitmap for each bit that a key sets.
#![tactic(auto)]

mod answers;
mod bits;
mod head;
mod packed;
mod row_bits;
mod slices;
mod store;
mod table;

pub use bits::{Bits, BitsEnd, LONGEST};
pub use row_bits::RowBits;
pub use slices::{Order, slices_ask};
pub use table::Table;
