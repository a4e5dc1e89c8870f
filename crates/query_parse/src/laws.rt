//! Laws of queries.
ghost use Rattle.query_parse.specs.Laws.{BlankSkipped, ReversedIsTurned, ParsedReads, ParsedFaults, OneFault, WordsAreRead, TextsAreRead, LiteralsAreRead, TokensAreRead, QueriesAreRead, QueriesParse};

/// A blank before tokens changes none of them, so blanks between tokens change nothing.
pub fn blanks_are_skipped()
    ensures { BlankSkipped }
{}

/// The reversed form is the test with the relation turned, and turning twice is none.
pub fn reversed_is_turned()
    ensures { ReversedIsTurned }
{}

/// What a text parses to is the grammar: an expression exactly where its tokens are a query that stands for it, and a
/// fault exactly where this is the leftmost one.
pub fn parsed_is_the_grammar()
    ensures reads { ParsedReads }
    ensures faults { ParsedFaults }
{}

/// No text has two faults.
pub fn faults_are_one()
    ensures { OneFault }
{}

/// Words with blanks between them are read one by one, and each as far as it goes.
pub fn words_are_read()
    ensures { WordsAreRead }
{}

/// Each text of bytes can be written between quotes, each byte as `\xHH`.
pub fn texts_are_read()
    ensures { TextsAreRead }
{}

/// The text of each value with the mark of its kind is one word, which is that literal.
pub fn literals_are_read()
    ensures { LiteralsAreRead }
{}

/// Each token that can be written has a spelling, and such tokens with a blank behind each are read as they are.
pub fn tokens_are_read()
    ensures { TokensAreRead }
{}

/// Each query of the grammar whose names and literals can be written has a text with its tokens, and that parses to
/// what it stands for where it is not too long, not too deep and no test clashes.
pub fn queries_are_read()
    ensures tokens { QueriesAreRead }
    ensures parsed { QueriesParse }
{}
