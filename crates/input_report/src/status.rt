//! How a command ended.
ghost use Rattle.std.specs.Prelude.{◌≡◌};
ghost use Rattle.input_report.specs.Numbers.{number_of};

/// The status of a command, whose number is the program's exit status.
#[derive(Clone, Copy, Debug, PartialEq, Eq)]
pub enum Status {
    /// All went well.
    Done,
    /// The words are no command.
    Usage,
    /// A query could not be read.
    QueryRefused,
    /// A name could not be opened.
    OpenFault,
    /// The sink failed.
    WriteFault,
    /// A source failed.
    ReadFault,
    /// A source is not in its form.
    InputFault,
    /// A store was full.
    Full,
    /// A script's line could not be read.
    ScriptFault,
    /// No memory was left.
    Memory,
    /// A source went on past the bound.
    TooLong,
}

impl Status {
    /// The program's exit status.
    pub fn number(self) -> u8
        ensures { result ≡ number_of self }
    {
        match self {
            Status::Done => 0,
            Status::Usage => 1,
            Status::QueryRefused => 2,
            Status::OpenFault => 3,
            Status::WriteFault => 4,
            Status::ReadFault => 5,
            Status::InputFault => 6,
            Status::Full => 7,
            Status::ScriptFault => 8,
            Status::Memory => 9,
            Status::TooLong => 10,
        }
    }
}
