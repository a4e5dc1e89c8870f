//! What the tokens of a query are.
use query_meaning::{Literal, Pick, Rel};

/// What a token of a query is.
#[derive(Drop)]
pub enum Lexeme {
    Pick(Pick),
    Rel(Rel),
    Literal(Literal),
    /// `&&`
    And,
    /// `||`
    Or,
    /// `!`
    Not,
    Open,
    Close,
    /// A word or a text that begins like a literal and is none.
    Bad,
    /// A word that is nothing, or a byte of no token.
    Unknown,
    /// The end of the text.
    End,
}
