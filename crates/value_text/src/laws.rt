//! Laws of texts.
ghost use Rattle.value_text.specs.LiteralTexts.{ReadsAgain};

/// The text of each value, with the mark of its kind, reads as that literal.
pub fn literals_read_again()
    ensures { ReadsAgain }
{}
