//! A whole script.
ghost use Rattle.std.specs.Prelude.{◌≡◌, ℕ, ◌≤◌, ◌^◌, [], length, map, None, List, Option};
ghost use Rattle.step_script.specs.Feeds.{Outward};
ghost use Rattle.step_script.specs.Finishing.{Closes};
ghost use Rattle.step_script.specs.Runs.{Agree};
ghost use Rattle.step_script.specs.Scripts.{script_of};
ghost use Rattle.step_script.specs.Told.{CompletesScript, Outside, PlaysScript, end_of};

use crate::ended::{Ended, Ends, Numbers};
use crate::feed::Feed;
use crate::finish::{ends_of, finish};
use crate::player::{Player, Stop};
use crate::script::read_script;
use event_batch::Steps;
use input_report::Status;
use std::alloc::Global;
use std::sync::ledger::Ledger;
use vast_io::{Opener, Sink, Source};
use vast_value::Bytes;

/// Plays a script of at most 1,048,576 bytes on a store of its own, and writes its replies.
///
/// `plays` says which of its lines were played and what they made of the store and the sources, what was written, how it
/// ended, and how many batches were decoded. `complete` says when it is done.
pub fn run_steps<O: Opener, K: Sink, L: Ledger>(
    alloc: Global,
    script: &[u8],
    opener: &mut O,
    sink: &mut K,
    steps: &mut Steps<L>,
) -> Ended<O>
    requires { length script.now ≤ 2 ^ 20 }
    ensures plays { (told : List ℕ → Option (List ℕ)) → Agree (O.bytes_of opener.old) told → PlaysScript told (script_of script.now) (record { opens = O.faults opener.old; written = K.written sink.old; writes = K.faults sink.old }) (record { opens = O.faults opener.new; written = K.written sink.new; writes = K.faults sink.new }) steps.old steps.new result.status result.store (map (end_of (record { left = O.Src.left; faults = O.Src.faults })) result.ends) }
    ensures complete { (told : List ℕ → Option (List ℕ)) → Agree (O.bytes_of opener.old) told → CompletesScript told (script_of script.now) (record { opens = O.faults opener.old; written = K.written sink.old; writes = K.faults sink.old }) (record { opens = O.faults opener.new; written = K.written sink.new; writes = K.faults sink.new }) result.status (map (end_of (record { left = O.Src.left; faults = O.Src.faults })) result.ends) }
    ensures script { result.script ≡ None }
    ensures queries { result.queries ≡ [] }
{
    play_script(alloc, script, opener, sink, steps)
}

// Plays a script.
fn play_script<O: Opener, K: Sink, L: Ledger>(
    alloc: Global,
    script: &[u8],
    opener: &mut O,
    sink: &mut K,
    steps: &mut Steps<L>,
) -> Ended<O>
    requires { length script.now ≤ 2 ^ 20 }
    ensures plays { (told : List ℕ → Option (List ℕ)) → Agree (O.bytes_of opener.old) told → PlaysScript told (script_of script.now) (record { opens = O.faults opener.old; written = K.written sink.old; writes = K.faults sink.old }) (record { opens = O.faults opener.new; written = K.written sink.new; writes = K.faults sink.new }) steps.old steps.new result.status result.store (map (end_of (record { left = O.Src.left; faults = O.Src.faults })) result.ends) }
    ensures script { result.script ≡ None }
    ensures queries { result.queries ≡ [] }
{
    let Ok(script) = read_script(alloc, script) else {
        return Ended::out_of_memory(alloc);
    };
    let Ok(mut player) = Player::new(alloc, &script.settings) else {
        return Ended::out_of_memory(alloc);
    };
    let stop = player.play_all(&script.lines, opener, sink, steps);
    let (store, feeds, text) = player.into_parts();
    let (status, ends) = close(alloc, feeds, text, stop, script.bad, sink);
    Ended {
        status,
        store: Some(store),
        ends,
        script: None,
        queries: Numbers::new(alloc),
    }
}

// Ends the sources and the script.
fn close<'a, S: Source, K: Sink>(
    alloc: Global,
    feeds: Vec<Feed<S>>,
    text: Bytes,
    stop: Result<(), Stop<'a>>,
    bad: Option<u64>,
    sink: &mut K,
) -> (Status, Ends<S>)
    ensures { Closes (record { left = S.left; faults = S.faults }) feeds.items stop.entry result.0 bad result.1 text (record { written = K.written sink.old; writes = K.faults sink.old }) (record { written = K.written sink.new; writes = K.faults sink.new }) }
{
    match ends_of(alloc, feeds) {
        Ok(ends) => (finish(text, ends.as_slice(), stop, bad, sink), ends),
        Err(_) => (Status::Memory, Ends::new(alloc)),
    }
}
