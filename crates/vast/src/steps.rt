//! The command of a script, and what every command leaves.
ghost use Rattle.std.specs.Prelude.{◌≡◌, ℕ, ◌<◌, ◌≤◌, List, [], ◌∷◌, map, Option, None, IfSome, IsSome, MatchOption, vec_len, vec_capacity};
ghost use Rattle.std.specs.Option.{option_map};
ghost use Rattle.input_report.specs.Causes.{rest_of};
ghost use Rattle.step_script.specs.Feeds.{Outward};
ghost use Rattle.step_script.specs.Runs.{Agree};
ghost use Rattle.step_script.specs.Told.{Outside, end_of};
ghost use Rattle.vast.specs.Causes.{outside, rest_in};
ghost use Rattle.vast.specs.Steps.{Left, PlaysFile, PlaysHere, first_rest};

use crate::files::{Reported, open_file};
use event_batch::Steps;
use importer::SourceEnd;
use input_report::Status;
use std::alloc::Global;
use std::marker::Brand;
use std::sync::ledger::{Blank, Ledger};
use step_script::{Ended, Ends, Numbers, steps_source};
use vast_io::{Opener, Sink, Source};

/// Plays the script in a file.
pub fn steps_file<O: Opener, K: Sink>(
    alloc: Global,
    script: &str,
    opener: &mut O,
    sink: &mut K,
) -> Ended<O>
    ensures { PlaysFile script.now (outside (O.bytes_of opener.old) (O.faults opener.old) (K.written sink.old) (K.faults sink.old)) (outside (O.bytes_of opener.new) (O.faults opener.new) (K.written sink.new) (K.faults sink.new)) (record { status = result.status; store = result.store; ends = map (end_of (record { left = O.Src.left; faults = O.Src.faults })) result.ends; script = option_map (rest_of O.Src.left O.Src.faults) result.script }) }
{
    match open_file(alloc, script, opener, sink) {
        Ok((_, source)) => play::<O, K, Brand>(alloc, source, opener, sink, Blank::new(1)),
        Err(status) => ended(alloc, status, Ends::new(alloc)),
    }
}

// Plays the script that a source gives, its decodings being counted in a ledger of its own.
fn play<O: Opener, K: Sink, L: Ledger>(
    alloc: Global,
    source: O::Src,
    opener: &mut O,
    sink: &mut K,
    blank: Blank,
) -> Ended<O>
    requires name { blank.name ≡ L.name }
    requires parts { blank.parts ≡ L.parts }
    requires some { 0 < L.parts }
    ensures plays { (told : List ℕ → Option (List ℕ)) → Agree (O.bytes_of opener.old) told → IfSome result.script (λ rest. PlaysHere told (O.Src.left source) (O.Src.faults source) (rest_of O.Src.left O.Src.faults rest) (record { opens = O.faults opener.old; written = K.written sink.old; writes = K.faults sink.old }) (record { opens = O.faults opener.new; written = K.written sink.new; writes = K.faults sink.new }) result.status result.store (map (end_of (record { left = O.Src.left; faults = O.Src.faults })) result.ends)) }
    ensures script { IsSome result.script }
{
    let mut steps = Steps::<L>::new(blank);
    steps_source(alloc, source, opener, sink, &mut steps)
}

/// What a command on one file leaves. `room` has room for an end.
pub fn leave<O: Opener>(
    alloc: Global,
    room: Vec<SourceEnd<O::Src>>,
    reported: Reported<O>,
) -> Ended<O>
    requires empty { room.items ≡ [] }
    requires none { vec_len room ≡ 0 }
    requires room { 1 ≤ vec_capacity room }
    ensures status { result.status ≡ reported.status }
    ensures source { first_rest (map (end_of (record { left = O.Src.left; faults = O.Src.faults })) result.ends) ≡ option_map (rest_of O.Src.left O.Src.faults) (rest_in reported.end) }
    ensures store { result.store ≡ None }
    ensures script { result.script ≡ None }
{
    let Reported { status, end } = reported;
    ended(alloc, status, ends_in(room, end))
}

// The end, if there is one, in the room for it.
fn ends_in<S: Source>(room: Vec<SourceEnd<S>>, end: Option<SourceEnd<S>>) -> Ends<S>
    requires empty { room.items ≡ [] }
    requires none { vec_len room ≡ 0 }
    requires room { 1 ≤ vec_capacity room }
    ensures { MatchOption end (result ≡ []) (λ e. result ≡ e ∷ []) }
{
    let mut room = room;
    match end {
        None => Ends::of(room),
        Some(end) => {
            room.push_reserved(end);
            Ends::of(room)
        }
    }
}

// A command that has neither a store nor a script.
fn ended<O: Opener>(alloc: Global, status: Status, ends: Ends<O::Src>) -> Ended<O>
    ensures status { result.status ≡ status }
    ensures ends { result.ends ≡ ends }
    ensures store { result.store ≡ None }
    ensures script { result.script ≡ None }
{
    Ended {
        status,
        store: None,
        ends,
        script: None,
        queries: Numbers::new(alloc),
    }
}
