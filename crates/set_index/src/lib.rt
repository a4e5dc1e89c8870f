//! Containers by 64 buckets: one bitmap for each bucket, of the rows that take it.
//!
//! A bucket is answered by a copy of its bitmap.
#![tactic(auto)]

mod index;

pub use index::SetIndex;
