//! Where a value's text stands.

/// Where a value's text stands.
#[derive(Clone, Copy, Debug, PartialEq, Eq)]
pub enum Place {
    /// It is a whole cell.
    Whole,
    /// It is an element of a container, between commas.
    Element,
}
