//! Worked rows of the indexes over bitmaps of runs and of words: tests alone.
#![tactic(auto)]

#[cfg(test)]
mod tests;
