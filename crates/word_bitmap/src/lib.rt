//! Bitmaps as words of 64 bits: many equal neighbours are kept once, as a fill, and others one by one, as literals. An
//! operation costs the fills and the literals, and not the bits.
#![tactic(auto)]

mod bitmap;
mod combine;
mod kernels;
mod piece;
mod pieces;
mod reads;
mod words;

pub use bitmap::WordBitmap;

#[cfg(test)]
mod tests;
