//! A script that a source gives.
ghost use Rattle.std.specs.Prelude.{◌≡◌, ℕ, List, Option, [], map, None, IfSome, IsSome};
ghost use Rattle.input_report.specs.Causes.{Rest};
ghost use Rattle.step_script.specs.Feeds.{Outward};
ghost use Rattle.step_script.specs.Runs.{Agree};
ghost use Rattle.step_script.specs.Told.{Outside, end_of};
ghost use Rattle.step_script.specs.Wholes.{IsReadSo, IsSmall, PlaysRead, PlaysSource, SaysLine, TookSo};

use crate::ended::{Ended, Ends, Numbers};
use crate::running::run_steps;
use event_batch::Steps;
use input_report::Status;
use std::alloc::{AllocError, Global};
use std::sync::ledger::Ledger;
use vast_io::{Opener, Sink, Source, write_all};
use vast_value::Bytes;

/// The most bytes of a script.
const MOST: usize = 1 << 20;

/// How many bytes are asked of a source at once.
const PIECE: usize = 16_384;

/// Why a script was not read whole.
#[derive(Clone, Copy)]
pub enum Unread {
    /// A read failed.
    Failed,
    /// It has more than 1,048,576 bytes.
    TooLong,
    /// No memory was left.
    Memory,
}

/// Reads a script whole, and plays it. The source of the script is handed back.
pub fn steps_source<O: Opener, K: Sink, L: Ledger>(
    alloc: Global,
    source: O::Src,
    opener: &mut O,
    sink: &mut K,
    steps: &mut Steps<L>,
) -> Ended<O>
    ensures plays { (told : List ℕ → Option (List ℕ)) → Agree (O.bytes_of opener.old) told → IfSome result.script (λ rest. PlaysSource told (O.Src.left source) (O.Src.faults source) (record { left = O.Src.left rest; faults = O.Src.faults rest }) (record { opens = O.faults opener.old; written = K.written sink.old; writes = K.faults sink.old }) (record { opens = O.faults opener.new; written = K.written sink.new; writes = K.faults sink.new }) steps.old steps.new result.status result.store (map (end_of (record { left = O.Src.left; faults = O.Src.faults })) result.ends)) }
    ensures script { IsSome result.script }
    ensures queries { result.queries ≡ [] }
{
    let mut source = source;
    let read = read_whole(alloc, &mut source);
    let mut ended = play_read(alloc, read, opener, sink, steps);
    ended.script = Some(source);
    ended
}

// Plays a script that was read, or tells why it wasn't.
fn play_read<O: Opener, K: Sink, L: Ledger>(
    alloc: Global,
    read: Result<Bytes, Unread>,
    opener: &mut O,
    sink: &mut K,
    steps: &mut Steps<L>,
) -> Ended<O>
    requires { IsSmall read }
    ensures plays { (told : List ℕ → Option (List ℕ)) → Agree (O.bytes_of opener.old) told → PlaysRead read told (record { opens = O.faults opener.old; written = K.written sink.old; writes = K.faults sink.old }) (record { opens = O.faults opener.new; written = K.written sink.new; writes = K.faults sink.new }) steps.old steps.new result.status result.store (map (end_of (record { left = O.Src.left; faults = O.Src.faults })) result.ends) }
    ensures queries { result.queries ≡ [] }
{
    match read {
        Ok(script) => run_steps(alloc, script.as_slice(), opener, sink, steps),
        Err(Unread::Failed) => say(alloc, b"read fault\n", Status::ReadFault, sink),
        Err(Unread::TooLong) => say(alloc, b"too long\n", Status::TooLong, sink),
        Err(Unread::Memory) => Ended::out_of_memory(alloc),
    }
}

// A script that was not read is told by this line.
fn say<O: Opener, K: Sink>(alloc: Global, line: &[u8], status: Status, sink: &mut K) -> Ended<O>
    ensures says { SaysLine status line.now result.status (record { written = K.written sink.old; writes = K.faults sink.old }) (record { written = K.written sink.new; writes = K.faults sink.new }) }
    ensures store { result.store ≡ None }
    ensures ends { result.ends ≡ [] }
    ensures queries { result.queries ≡ [] }
{
    let status = match write_all(sink, line) {
        Ok(()) => status,
        Err(_) => Status::WriteFault,
    };
    Ended {
        status,
        store: None,
        ends: Ends::new(alloc),
        script: None,
        queries: Numbers::new(alloc),
    }
}

// All that a source gives, if that is a script's size.
fn read_whole<S: Source>(alloc: Global, source: &mut S) -> Result<Bytes, Unread>
    ensures { IsReadSo result (S.left source.old) (S.left source.new) (S.faults source.old) (S.faults source.new) }
{
    let mut bytes = Bytes::new(alloc);
    loop {
        match read_piece(source, &mut bytes) {
            Ok(0) => return Ok(bytes),
            Ok(_) => {}
            Err(why) => return Err(why),
        }
        if bytes.as_slice().len() > MOST {
            return Err(Unread::TooLong);
        }
    }
}

// Puts what the source gives next behind the bytes, and answers how many that are.
fn read_piece<S: Source>(source: &mut S, bytes: &mut Bytes) -> Result<usize, Unread>
    ensures { TookSo result bytes.old bytes.new (S.left source.old) (S.left source.new) (S.faults source.old) (S.faults source.new) }
{
    let mut piece = [0; PIECE];
    match source.read(&mut piece) {
        Ok(count) => match bytes.append(&piece[..count]) {
            Ok(()) => Ok(count),
            Err(AllocError) => Err(Unread::Memory),
        },
        Err(_) => Err(Unread::Failed),
    }
}
