//! The formats of a batch's bytes.
ghost use Rattle.std.specs.Prelude.{◌≡◌};
ghost use Rattle.event_batch.specs.Reading.{format_coded};
ghost use Rattle.event_batch.specs.Spelling.{format_code};

/// A format of a batch's bytes.
#[derive(Clone, Copy, Debug, PartialEq, Eq)]
pub enum Format {
    /// A port is its number alone, so it has no transport.
    First,
    /// A port is its number and its transport.
    Second,
}

impl Format {
    /// The first byte of a batch in this format.
    pub(crate) fn code(self) -> u8
        ensures { result ≡ format_code self }
    {
        match self {
            Format::First => 1,
            Format::Second => 2,
        }
    }

    /// The format with this first byte, which is 1 or 2.
    #[tactic(auto, unfolding(crate::specs::Reading::format_coded))]
    pub(crate) fn coded(code: u8) -> Option<Format>
        ensures { result ≡ format_coded code }
    {
        match code {
            1 => Some(Format::First),
            2 => Some(Format::Second),
            _ => None,
        }
    }
}
