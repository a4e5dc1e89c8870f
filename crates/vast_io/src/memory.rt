//! Sources, sinks and openers in memory, which fail where they are told to.
ghost use Rattle.std.specs.Prelude.{◌≡◌, ℕ, ◌+◌, ◌<◌, ◌≤◌, ◌^◌, ◌↔◌, ◌||◌, List, Option, Some, Ok, [], length, min, take, drop, is_some, is_none, is_err, IfOk, OnOk, IsErr, IsErrOf, IsTrue, vec_len, vec_capacity};
ghost use Rattle.std.specs.Option.{option_copied};
ghost use Rattle.std.specs.List.{find};
ghost use Rattle.std.specs.Str.{bytes_eq};
ghost use Rattle.vast_io.specs.Causes.{HasCause, Rose};
ghost use Rattle.vast_io.specs.Told.{Reads, Writes, IsAtEnd};
ghost use Rattle.vast_io.specs.Memory.{fails_at, next_number, given_count, taken_count, refuses, faults_after, held, failing_reads};

use crate::outside::{Failed, Gate, OpenEnd, Opener, Place, Sink, Source};
use std::alloc::{AllocError, Global};
use std::marker::Model;
use vast_value::{Bytes, Seq};

/// A source in memory.
#[derive(Drop)]
pub struct MemSource {
    bytes: Bytes,
    at: usize,
    piece: u32,
    fails: Vec<u64>,
    calls: u64,
    faults: u64,
}

impl Model for MemSource {
    ghost use Rattle.std.specs.Prelude.{◌≤◌, length, drop};
    ghost use Rattle.vast_io.specs.Memory.{Supply};

    ghost Value = { Supply };

    ghost view = { λ s. record { left = drop s.at s.bytes; piece = s.piece; fails = s.fails.items; calls = s.calls; faults = s.faults } };

    ghost invariant = { λ s. (s.at ≤ length s.bytes) × (1 ≤ s.piece) };
}

impl MemSource {
    /// A source with these bytes. A call gives at most `piece` of them, at least 1. The calls numbered in `fails`, from
    /// 0, fail and leave the bytes.
    pub fn new(bytes: Bytes, piece: u32, fails: Vec<u64>) -> Self
        requires { 1 ≤ piece }
        ensures { result ≡ record { left = bytes; piece = piece; fails = fails.items; calls = 0; faults = 0 } }
    {
        MemSource {
            bytes,
            at: 0,
            piece,
            fails,
            calls: 0,
            faults: 0,
        }
    }
}

impl Source for MemSource {
    ghost left = { λ s. Some s.left };

    ghost faults = { λ s. s.faults };

    fn read(&mut self, into: &mut [u8]) -> Result<usize, Failed>
        ensures bound { IfOk result (λ count. count ≤ length into.new) }
        ensures tells { is_some (Some self.new.left) ≡ is_some (Some self.old.left) }
        ensures bytes { Reads (Some self.old.left) (Some self.new.left) into.new result }
        ensures end { result ≡ Ok 0 → 0 < length into.new → IsAtEnd (Some self.new.left) }
        ensures cause { HasCause self.old.faults self.new.faults result }
        ensures told { IsErr result ↔ IsTrue (fails_at self.old.fails self.old.calls) }
        ensures count { IfOk result (λ count. count ≡ given_count self.old (length into.new)) }
        ensures calls { self.new.calls ≡ next_number self.old.calls }
        ensures same { (self.new.piece ≡ self.old.piece) × (self.new.fails ≡ self.old.fails) }
    {
        let fails = fails_at(&self.fails, self.calls);
        self.calls = self.calls.saturating_add(1);
        if fails {
            self.faults = self.faults.saturating_add(1);
            return Err(Failed);
        }
        let (_, left) = self.bytes.as_slice().split_at(self.at);
        let count = copy_front(left, self.piece as usize, into);
        self.at += count;
        Ok(count)
    }
}

// Copies at most so many of the first bytes, as many as there are and fit, and answers how many.
pub(crate) fn copy_front(from: &[u8], most: usize, into: &mut [u8]) -> usize
    ensures count { result ≡ min (length into.old) (min most (length from.now)) }
    ensures front { take result into.new ≡ take result from.now }
{
    let count = into.len().min(most.min(from.len()));
    let (front, _) = from.split_at(count);
    into[..count].copy_from_slice(front);
    count
}

fn fails_at(fails: &Vec<u64>, call: u64) -> bool
    ensures { result ≡ fails_at fails.now.items call }
{
    fails.iter().any(|number| *number == call)
}

/// A sink in memory.
#[derive(Drop)]
pub struct MemSink {
    bytes: Vec<u8>,
    room: u64,
    piece: u32,
    fails: Vec<u64>,
    calls: u64,
    faults: u64,
}

impl Model for MemSink {
    ghost use Rattle.std.specs.Prelude.{◌≤◌, ◌^◌, vec_len, vec_capacity};
    ghost use Rattle.vast_io.specs.Memory.{Intake};

    ghost Value = { Intake };

    ghost view = { λ s. record { written = s.bytes.items; room = s.room; piece = s.piece; fails = s.fails.items; calls = s.calls; faults = s.faults } };

    ghost invariant = { λ s. (vec_len s.bytes ≤ s.room) × (s.room ≤ vec_capacity s.bytes) × (s.room ≤ 2 ^ 32) };
}

impl MemSink {
    /// A sink with memory for `room` bytes, at most 2^32, which takes at most `piece` of them a call. A write of a piece
    /// that is not empty fails exactly where its number, from 0, is in `fails`, `piece` is 0 or the room is used up.
    pub fn new(alloc: Global, room: u64, piece: u32, fails: Vec<u64>) -> Result<Self, AllocError>
        requires { room ≤ 2 ^ 32 }
        ensures { IfOk result (λ sink. sink ≡ record { written = []; room = room; piece = piece; fails = fails.items; calls = 0; faults = 0 }) }
    {
        let bytes = Vec::with_capacity(alloc, room as usize)?;
        Ok(MemSink {
            bytes,
            room,
            piece,
            fails,
            calls: 0,
            faults: 0,
        })
    }

    /// What was written.
    pub fn bytes(&self) -> &[u8]
        ensures { result.now ≡ self.now.written }
    {
        self.bytes.as_slice()
    }
}

impl Sink for MemSink {
    ghost written = { λ s. Some s.written };

    ghost faults = { λ s. s.faults };

    fn write(&mut self, piece: &[u8]) -> Result<usize, Failed>
        ensures bound { IfOk result (λ count. count ≤ length piece.now) }
        ensures some { 0 < length piece.now → IfOk result (λ count. 0 < count) }
        ensures tells { is_some (Some self.new.written) ≡ is_some (Some self.old.written) }
        ensures bytes { Writes (Some self.old.written) (Some self.new.written) piece.now result }
        ensures cause { HasCause self.old.faults self.new.faults result }
        ensures told { IsErr result ↔ IsTrue (refuses self.old piece.now) }
        ensures count { IfOk result (λ count. count ≡ taken_count self.old (length piece.now)) }
        ensures calls { self.new.calls ≡ next_number self.old.calls }
        ensures same { (self.new.room ≡ self.old.room) × (self.new.piece ≡ self.old.piece) × (self.new.fails ≡ self.old.fails) }
    {
        let fails = fails_at(&self.fails, self.calls);
        self.calls = self.calls.saturating_add(1);
        if piece.is_empty() {
            return Ok(0);
        }
        let room = self.room as usize - self.bytes.len();
        if fails || self.piece == 0 || room == 0 {
            self.faults = self.faults.saturating_add(1);
            return Err(Failed);
        }
        let count = piece.len().min(room).min(self.piece as usize);
        self.bytes.extend_from_slice(&piece[..count]).unwrap();
        Ok(count)
    }
}

/// A file in memory: its name, its bytes, and the numbers of the reads of its source that fail.
#[derive(Drop)]
pub struct File {
    pub name: Bytes,
    pub bytes: Bytes,
    pub fails: Vec<u64>,
}

/// Files in memory. Of two with one name the first counts.
pub type Files = Seq<File>;

/// An opener of files in memory.
#[derive(Drop)]
pub struct MemOpener {
    files: Files,
    piece: u32,
    fails: Vec<u64>,
    openings: u64,
    faults: u64,
    ghost some: { 1 ≤ piece },
}

impl MemOpener {
    /// An opener of these files, whose sources give at most `piece` bytes a call, at least 1. An opening fails exactly
    /// where the name is not held or the opening's number, from 0, is in `fails`.
    pub fn new(files: Files, piece: u32, fails: Vec<u64>) -> Self
        requires { 1 ≤ piece }
        ensures files { result.files ≡ files }
        ensures piece { result.piece ≡ piece }
        ensures fails { result.fails.items ≡ fails.items }
        ensures counts { (result.openings ≡ 0) × (result.faults ≡ 0) }
    {
        MemOpener {
            files,
            piece,
            fails,
            openings: 0,
            faults: 0,
        }
    }
}

impl Opener for MemOpener {
    type Src = MemSource;

    ghost bytes_of = { λ o name. held o.files name };

    ghost faults = { λ o. o.faults };

    fn open_one(&mut self, alloc: Global, name: &str) -> Result<MemSource, OpenEnd>
        ensures left { IfOk result (λ source. Some source.left ≡ held self.old.files name.now) }
        ensures fresh { IfOk result (λ source. source.faults ≡ 0) }
        ensures pieces { IfOk result (λ source. source.piece ≡ self.old.piece) }
        ensures fails { IfOk result (λ source. Some source.fails ≡ failing_reads self.old.files name.now) }
        ensures same { (any : List ℕ) → held self.new.files any ≡ held self.old.files any }
        ensures unchanged { (self.new.files ≡ self.old.files) × (self.new.piece ≡ self.old.piece) × (self.new.fails ≡ self.old.fails) }
        ensures later { self.old.faults ≤ self.new.faults }
        ensures failed { IsErrOf result OpenEnd.Failed → Rose self.old.faults self.new.faults }
        ensures kept { OnOk result (self.new.faults ≡ self.old.faults) }
        ensures memory { IsErrOf result OpenEnd.Memory → self.new.faults ≡ self.old.faults }
        ensures told { IsErrOf result OpenEnd.Failed ↔ IsTrue (fails_at self.old.fails.items self.old.openings || is_none (held self.old.files name.now)) }
        ensures openings { self.new.openings ≡ next_number self.old.openings }
    {
        let fails = fails_at(&self.fails, self.openings);
        self.openings = self.openings.saturating_add(1);
        if fails {
            self.faults = self.faults.saturating_add(1);
            return Err(OpenEnd::Failed);
        }
        let Some(file) = find_file(&self.files, name) else {
            self.faults = self.faults.saturating_add(1);
            return Err(OpenEnd::Failed);
        };
        match source_of(alloc, file, self.piece) {
            Ok(source) => Ok(source),
            Err(_) => Err(OpenEnd::Memory),
        }
    }
}

fn find_file<'a>(files: &'a Files, name: &str) -> Option<&'a File>
    ensures { option_copied result ≡ find (λ file. bytes_eq file.name name.now) files.now }
{
    files
        .as_slice()
        .iter()
        .find(|file| file.name.as_slice() == name.as_bytes())
}

fn source_of(alloc: Global, file: &File, piece: u32) -> Result<MemSource, AllocError>
    requires { 1 ≤ piece }
    ensures { IfOk result (λ source. source ≡ record { left = file.now.bytes; piece = piece; fails = file.now.fails.items; calls = 0; faults = 0 }) }
{
    let bytes = file.bytes.duplicate(alloc)?;
    let fails = Vec::from_slice(alloc, file.fails.as_slice())?;
    Ok(MemSource::new(bytes, piece, fails))
}

/// A gate that waits for nothing.
#[derive(Clone, Copy, Debug)]
pub struct OpenGate;

impl Gate for OpenGate {
    fn before(&self, _worker: u32, _turn: u64, _place: Place) {}
}

#[cfg(test)]
mod tests {
    use super::*;
    use std::test::Fail;

    #[test]
    fn a_named_file_is_read_in_pieces_around_a_failing_call(rt: HostRuntime) -> Result<(), Fail> {
        let alloc = rt.alloc();
        let mut files = Files::new(alloc);
        files.push(File {
            name: Bytes::copy(alloc, b"f")?,
            bytes: Bytes::copy(alloc, b"abcde")?,
            fails: vec![in alloc; 1]?,
        })?;
        let mut opener = MemOpener::new(files, 3, vec![in alloc; 0]?);
        assert_eq!(rt; opener.open_one(alloc, "f").err(), Some(OpenEnd::Failed));
        assert_eq!(rt; opener.open_one(alloc, "g").err(), Some(OpenEnd::Failed));
        let Ok(mut source) = opener.open_one(alloc, "f") else {
            return Err("not opened".into());
        };
        let mut into = [0u8; 8];
        assert_eq!(rt; source.read(&mut into), Ok(3));
        assert_eq!(rt; source.read(&mut into), Err(Failed));
        assert_eq!(rt; source.read(&mut into), Ok(2));
        assert_eq!(rt; into, *b"dec\0\0\0\0\0");
        assert_eq!(rt; source.read(&mut into), Ok(0));
        Ok(())
    }

    #[test]
    fn a_sink_takes_what_its_room_allows(rt: HostRuntime) -> Result<(), Fail> {
        let mut sink = MemSink::new(rt.alloc(), 5, 4, vec![in rt.alloc(); 1]?)?;
        assert_eq!(rt; sink.write(b"abcdef"), Ok(4));
        assert_eq!(rt; sink.write(b"ef"), Err(Failed));
        assert_eq!(rt; sink.write(b"ef"), Ok(1));
        assert_eq!(rt; sink.write(b"f"), Err(Failed));
        assert_eq!(rt; sink.bytes(), b"abcde".as_slice());
        Ok(())
    }
}
