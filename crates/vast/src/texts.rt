//! The lines of commands.
ghost use Rattle.std.specs.Prelude.{◌≡◌, ◌++◌, OnOk, IfOk};
ghost use Rattle.std.specs.Fmt.{decimal};
ghost use Rattle.vast.specs.Texts.{open_line, query_fault_name, refused_line};

use itoa::Buffer as Digits;
use query_parse::{QueryFault, QueryWhat};
use std::alloc::{AllocError, Global};
use value_text::write_escaped;
use vast_value::Bytes;

/// The line of a name that could not be opened, by the plain escape.
pub fn open_line(alloc: Global, name: &str) -> Result<Bytes, AllocError>
    ensures { IfOk result (λ text. text ≡ open_line name.now) }
{
    let mut text = Bytes::new(alloc);
    text.append(b"open ")?;
    write_escaped(name.as_bytes(), &mut text)?;
    text.push(b'\n')?;
    Ok(text)
}

/// The line of a query that is refused.
pub fn refused_line(alloc: Global, fault: QueryFault) -> Result<Bytes, AllocError>
    ensures { IfOk result (λ text. text ≡ refused_line fault) }
{
    let mut text = Bytes::new(alloc);
    text.append(b"query p1 at ")?;
    push_number(u64::from(fault.at), &mut text)?;
    text.push(b' ')?;
    text.append(query_fault_name(fault.what))?;
    text.push(b'\n')?;
    Ok(text)
}

fn push_number(number: u64, out: &mut Bytes) -> Result<(), AllocError>
    ensures { OnOk result (out.new ≡ out.old ++ decimal number) }
{
    let mut digits = Digits::new();
    out.append(digits.format(number).as_bytes())
}

fn query_fault_name(what: QueryWhat) -> &'static [u8]
    ensures { result.now ≡ query_fault_name what }
{
    match what {
        QueryWhat::Unexpected => b"Unexpected",
        QueryWhat::BadLiteral => b"BadLiteral",
        QueryWhat::KindClash => b"KindClash",
        QueryWhat::TooDeep => b"TooDeep",
        QueryWhat::TooLong => b"TooLong",
    }
}
