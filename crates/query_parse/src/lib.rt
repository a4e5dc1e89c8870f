//! The texts of queries.
#![tactic(auto)]

mod fault;
mod laws;
mod lexeme;
mod parser;
mod query;
mod texts;
mod tokens;
mod words;

pub use fault::{ParseEnd, QueryFault, QueryWhat};
pub use laws::{
    blanks_are_skipped, faults_are_one, literals_are_read, parsed_is_the_grammar, queries_are_read,
    reversed_is_turned, texts_are_read, tokens_are_read, words_are_read,
};
pub use query::parse;

#[cfg(test)]
mod tests;
