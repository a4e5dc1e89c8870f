//! The texts of replies.
ghost use Rattle.std.specs.Prelude.{◌≡◌, ◌++◌, ◌∷◌, [], OnOk};
ghost use Rattle.std.specs.Fmt.{decimal};
ghost use Rattle.script_desk.specs.Texts.{refused_text, told, told_both, what_text};

use itoa::Buffer as Digits;
use query_parse::{QueryFault, QueryWhat};
use std::alloc::AllocError;
use vast_value::Bytes;

/// Puts a number behind what `out` holds.
pub fn push_number(number: u64, out: &mut Bytes) -> Result<(), AllocError>
    ensures { OnOk result (out.new ≡ out.old ++ decimal number) }
{
    let mut digits = Digits::new();
    out.append(digits.format(number).as_bytes())
}

/// Puts words and a number behind what `out` holds.
pub fn push_told(words: &[u8], number: u64, out: &mut Bytes) -> Result<(), AllocError>
    ensures { OnOk result (out.new ≡ out.old ++ told words.now number) }
{
    out.append(words)?;
    push_number(number, out)
}

/// Puts words and a number, and a newline, behind what `out` holds.
pub fn push_line(words: &[u8], number: u64, out: &mut Bytes) -> Result<(), AllocError>
    ensures { OnOk result (out.new ≡ out.old ++ (told words.now number ++ 10 ∷ [])) }
{
    push_told(words, number, out)?;
    out.push(b'\n')
}

/// Puts two of these with a newline behind what `out` holds.
pub fn push_both(
    words: &[u8],
    number: u64,
    more: &[u8],
    other: u64,
    out: &mut Bytes,
) -> Result<(), AllocError>
    ensures { OnOk result (out.new ≡ out.old ++ (told_both words.now number more.now other ++ 10 ∷ [])) }
{
    push_told(words, number, out)?;
    push_line(more, other, out)
}

/// Puts words and a newline behind what `out` holds.
pub fn push_words(words: &[u8], out: &mut Bytes) -> Result<(), AllocError>
    ensures { OnOk result (out.new ≡ out.old ++ (words.now ++ 10 ∷ [])) }
{
    out.append(words)?;
    out.push(b'\n')
}

/// Puts the reply to a query that is refused behind what `out` holds.
pub fn push_refused(fault: QueryFault, out: &mut Bytes) -> Result<(), AllocError>
    ensures { OnOk result (out.new ≡ out.old ++ (refused_text fault ++ 10 ∷ [])) }
{
    push_told(b"query refused ", u64::from(fault.at), out)?;
    push_words(what_text(fault.what), out)
}

fn what_text(what: QueryWhat) -> &'static [u8]
    ensures { result.now ≡ what_text what }
{
    match what {
        QueryWhat::Unexpected => b" Unexpected",
        QueryWhat::BadLiteral => b" BadLiteral",
        QueryWhat::KindClash => b" KindClash",
        QueryWhat::TooDeep => b" TooDeep",
        QueryWhat::TooLong => b" TooLong",
    }
}
