/// Ones from `start` up to `end`, which is the place of the next bit.
#[derive(Clone, Copy, Debug, PartialEq, Eq)]
pub struct Run {
    pub start: u64,
    pub end: u64,
}
