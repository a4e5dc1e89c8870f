//! The top call: from the words of a command and the outside to the text that is written.
ghost use Rattle.std.specs.Prelude.{map};
ghost use Rattle.std.specs.String.{string_bytes};
ghost use Rattle.std.specs.Option.{option_map};
ghost use Rattle.input_report.specs.Causes.{rest_of};
ghost use Rattle.step_script.specs.Feeds.{Outward};
ghost use Rattle.step_script.specs.Told.{end_of};
ghost use Rattle.vast.specs.Causes.{outside};
ghost use Rattle.vast.specs.Steps.{CompletesWords, DoesWords, Left};
ghost use Rattle.vast.specs.Words.{command_of};

use crate::files::{check_file, refuse_words, scan_file};
use crate::steps::{leave, steps_file};
use crate::words::{Command, read_words};
use std::alloc::Global;
use std::sync::Wait;
use std::thread::Threads;
use step_script::Ended;
use vast_io::{Gate, Opener, Sink};

/// Does the command that the words are, on any schedule.
///
/// `does` says, by the outside before and after, when each status comes and what was then written. `complete` says when a
/// command is done. No command has need of threads or of the gate yet.
pub fn run<R: Threads + Wait + Sync, O: Opener, K: Sink, G: Gate + Sync>(
    _rt: &R,
    alloc: Global,
    words: &[String],
    opener: &mut O,
    sink: &mut K,
    _gate: &G,
) -> Ended<O>
    ensures does { DoesWords (command_of (map string_bytes words.now)) (outside (O.bytes_of opener.old) (O.faults opener.old) (K.written sink.old) (K.faults sink.old)) (outside (O.bytes_of opener.new) (O.faults opener.new) (K.written sink.new) (K.faults sink.new)) (record { status = result.status; store = result.store; ends = map (end_of (record { left = O.Src.left; faults = O.Src.faults })) result.ends; script = option_map (rest_of O.Src.left O.Src.faults) result.script }) }
    ensures complete { CompletesWords (command_of (map string_bytes words.now)) (outside (O.bytes_of opener.old) (O.faults opener.old) (K.written sink.old) (K.faults sink.old)) (outside (O.bytes_of opener.new) (O.faults opener.new) (K.written sink.new) (K.faults sink.new)) (record { status = result.status; store = result.store; ends = map (end_of (record { left = O.Src.left; faults = O.Src.faults })) result.ends; script = option_map (rest_of O.Src.left O.Src.faults) result.script }) }
{
    run_still(alloc, words, opener, sink)
}

/// Does the command that the words are. It waits for nobody and returns.
pub fn run_still<O: Opener, K: Sink>(
    alloc: Global,
    words: &[String],
    opener: &mut O,
    sink: &mut K,
) -> Ended<O>
    ensures does { DoesWords (command_of (map string_bytes words.now)) (outside (O.bytes_of opener.old) (O.faults opener.old) (K.written sink.old) (K.faults sink.old)) (outside (O.bytes_of opener.new) (O.faults opener.new) (K.written sink.new) (K.faults sink.new)) (record { status = result.status; store = result.store; ends = map (end_of (record { left = O.Src.left; faults = O.Src.faults })) result.ends; script = option_map (rest_of O.Src.left O.Src.faults) result.script }) }
    ensures complete { CompletesWords (command_of (map string_bytes words.now)) (outside (O.bytes_of opener.old) (O.faults opener.old) (K.written sink.old) (K.faults sink.old)) (outside (O.bytes_of opener.new) (O.faults opener.new) (K.written sink.new) (K.faults sink.new)) (record { status = result.status; store = result.store; ends = map (end_of (record { left = O.Src.left; faults = O.Src.faults })) result.ends; script = option_map (rest_of O.Src.left O.Src.faults) result.script }) }
{
    run_words(alloc, words, opener, sink)
}

fn run_words<O: Opener, K: Sink>(
    alloc: Global,
    words: &[String],
    opener: &mut O,
    sink: &mut K,
) -> Ended<O>
    ensures does { DoesWords (command_of (map string_bytes words.now)) (outside (O.bytes_of opener.old) (O.faults opener.old) (K.written sink.old) (K.faults sink.old)) (outside (O.bytes_of opener.new) (O.faults opener.new) (K.written sink.new) (K.faults sink.new)) (record { status = result.status; store = result.store; ends = map (end_of (record { left = O.Src.left; faults = O.Src.faults })) result.ends; script = option_map (rest_of O.Src.left O.Src.faults) result.script }) }
{
    let Ok(room) = Vec::with_capacity(alloc, 1) else {
        return Ended::out_of_memory(alloc);
    };
    match read_words(words) {
        None => leave(alloc, room, refuse_words(opener, sink)),
        Some(Command::Scan { file, query }) => {
            leave(alloc, room, scan_file(alloc, file, query, opener, sink))
        }
        Some(Command::Check { file }) => leave(alloc, room, check_file(alloc, file, opener, sink)),
        Some(Command::Steps { script }) => steps_file(alloc, script, opener, sink),
    }
}
