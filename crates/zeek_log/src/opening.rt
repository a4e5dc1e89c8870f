//! What is known before any line.
ghost use Rattle.std.specs.Prelude.{◌≡◌, IfOk};
ghost use Rattle.zeek_log.specs.Answers.{told_of};
ghost use Rattle.zeek_log.specs.Heads.{opened};

use crate::known::Known;
use crate::names::Names;
use std::alloc::{AllocError, Global};
use value_text::Marks;
use vast_value::Bytes;

/// Nothing but a separator: the opening state, where it is a tab.
pub fn opened(alloc: Global, separator: u8) -> Result<Known, AllocError>
    ensures { IfOk result (λ known. told_of known ≡ opened separator) }
{
    let marks = Marks::usual(alloc)?;
    Ok(Known {
        separator,
        marks,
        path: Bytes::new(alloc),
        names: Names::none(alloc),
        layout: None,
    })
}
