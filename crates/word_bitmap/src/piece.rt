ghost use Rattle.std.specs.Prelude.{◌≡◌, ◌+◌, ◌≤◌, true};
ghost use Rattle.word_bitmap.specs.declared.piece.Kind.TheVariants.{Literal};
ghost use Rattle.word_bitmap.specs.Words.{need};

/// The words of a piece: one word again and again, or literal words. Word `w` of a literal piece is literal
/// `w - skipped`.
#[derive(Clone, Copy, Debug, PartialEq, Eq)]
pub enum Kind {
    Fill(u64),
    Literal(u64),
}

/// Words up to word `end`, which is the place of the next one. They begin where the piece before ends.
#[derive(Clone, Copy, Debug, PartialEq, Eq)]
pub struct Piece {
    pub kind: Kind,
    pub end: u64,
}

impl Kind {
    /// Whether these are literals, and so many words before aren't.
    pub fn is_literal(self, skipped: u64) -> bool
        ensures { result ≡ true → self ≡ Literal skipped }
    {
        match self {
            Kind::Fill(_) => false,
            Kind::Literal(of) => of == skipped,
        }
    }

    /// How many literals it takes at most to append `n` of these words at any place.
    pub fn literals_needed(self, n: u64) -> usize
        ensures value { result ≡ need self n }
        ensures bounded { result ≤ 8 + n }
    {
        match self {
            Kind::Fill(_) => 8,
            Kind::Literal(_) => n as usize,
        }
    }
}
