//! The literals of queries.
#![tactic(auto)]

mod laws;
mod literal;
mod moment;

pub use laws::literals_have_one_form;
pub use literal::read_literal;
pub use moment::read_moment;

#[cfg(test)]
mod tests;
