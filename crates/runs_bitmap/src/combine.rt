ghost use Rattle.std.specs.Prelude.{◌≡◌, Bool};
ghost use Rattle.runs_bitmap.specs.Runs.{joins};

/// Which ones are kept of two bitmaps.
#[derive(Clone, Copy, Debug, PartialEq, Eq)]
pub enum Ones {
    OfBoth,
    OfEither,
    OfFirstAlone,
    OfNotFirst,
}

impl Ones {
    /// Whether two bits give a one.
    pub fn join(self, first: bool, second: bool) -> bool
        ensures { result ≡ joins self first second }
    {
        match self {
            Ones::OfBoth => first && second,
            Ones::OfEither => first || second,
            Ones::OfFirstAlone => first && !second,
            Ones::OfNotFirst => !first,
        }
    }
}
