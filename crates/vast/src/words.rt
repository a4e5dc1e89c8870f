//! The words of a command.
ghost use Rattle.std.specs.Prelude.{◌≡◌, map, MatchOption, Some, None};
ghost use Rattle.std.specs.String.{string_bytes};
ghost use Rattle.vast.specs.Words.{command_of, file_words, scan_words, wanted_of};

/// A command.
#[derive(Clone, Copy)]
pub enum Command<'a> {
    /// The rows of a file that match a query.
    Scan { file: &'a str, query: &'a str },
    /// The layouts of a file.
    Check { file: &'a str },
    /// The replies of a script.
    Steps { script: &'a str },
}

/// The command that the words are, if they are one.
pub fn read_words(words: &[String]) -> Option<Command<'_>>
    ensures { MatchOption result (command_of (map string_bytes words.now) ≡ None) (λ command. command_of (map string_bytes words.now) ≡ Some (wanted_of command)) }
{
    match words {
        [command, file] => read_file(command, file),
        [command, file, query] => read_scan(command, file, query),
        _ => None,
    }
}

fn read_file<'a>(command: &str, file: &'a str) -> Option<Command<'a>>
    ensures { MatchOption result (file_words command.now file.now ≡ None) (λ wanted. file_words command.now file.now ≡ Some (wanted_of wanted)) }
{
    if command.as_bytes() == b"check".as_slice() {
        Some(Command::Check { file })
    } else if command.as_bytes() == b"steps".as_slice() {
        Some(Command::Steps { script: file })
    } else {
        None
    }
}

fn read_scan<'a>(command: &str, file: &'a str, query: &'a str) -> Option<Command<'a>>
    ensures { MatchOption result (scan_words command.now file.now query.now ≡ None) (λ wanted. scan_words command.now file.now query.now ≡ Some (wanted_of wanted)) }
{
    if command.as_bytes() == b"scan".as_slice() {
        Some(Command::Scan { file, query })
    } else {
        None
    }
}
