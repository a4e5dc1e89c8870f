//! Sources, sinks and openers over the machine: the trusted edge. They tell no bytes, and raise their count at each error
//! and at each write that took nothing.
ghost use Rattle.std.specs.Prelude.{◌≡◌, None};

use crate::outside::{Failed, OpenEnd, Opener, Sink, Source};
use std::alloc::Global;
use std::fs::{self, File};
use std::io::{ErrorKind, Read, Write};
use std::rt::Files;

/// A source over an opened file, or over any reader.
#[derive(Drop)]
pub struct FileSource<F: Read + Drop + Send> {
    file: F,
    faults: u64,
}

impl<F: Read + Drop + Send> FileSource<F> {
    /// A source that gives what the reader gives, without a fault.
    pub fn new(file: F) -> Self
        ensures { result.faults ≡ 0 }
    {
        FileSource { file, faults: 0 }
    }
}

impl<F: Read + Drop + Send> Source for FileSource<F> {
    ghost left = { λ _. None };

    ghost faults = { λ s. s.faults };

    fn read(&mut self, into: &mut [u8]) -> Result<usize, Failed> {
        match self.file.read(into) {
            Ok(count) => Ok(count),
            Err(_) => {
                self.faults = self.faults.saturating_add(1);
                Err(Failed)
            }
        }
    }
}

/// A sink over standard output, or over any writer.
#[derive(Drop)]
pub struct OutSink<W: Write + Drop> {
    out: W,
    faults: u64,
}

impl<W: Write + Drop> OutSink<W> {
    /// A sink that writes to the writer, without a fault.
    pub fn new(out: W) -> Self
        ensures { result.faults ≡ 0 }
    {
        OutSink { out, faults: 0 }
    }
}

impl<W: Write + Drop> Sink for OutSink<W> {
    ghost written = { λ _. None };

    ghost faults = { λ s. s.faults };

    fn write(&mut self, piece: &[u8]) -> Result<usize, Failed> {
        match self.out.write(piece) {
            Ok(count) if count > 0 || piece.is_empty() => Ok(count),
            _ => {
                self.faults = self.faults.saturating_add(1);
                Err(Failed)
            }
        }
    }
}

/// An opener of the machine's files.
#[derive(Drop)]
pub struct DiskOpener<'a, R: Files> {
    rt: &'a R,
    faults: u64,
}

impl<'a, R: Files> DiskOpener<'a, R> {
    /// An opener of the files that the runtime reaches, without a fault.
    pub fn new(rt: &'a R) -> Self
        ensures { result.faults ≡ 0 }
    {
        DiskOpener { rt, faults: 0 }
    }
}

impl<R: Files<File = File>> Opener for DiskOpener<'_, R> {
    type Src = FileSource<File>;

    ghost bytes_of = { λ _ _. None };

    ghost faults = { λ o. o.faults };

    fn open_one(&mut self, _alloc: Global, name: &str) -> Result<FileSource<File>, OpenEnd> {
        match fs::open(self.rt, name) {
            Ok(file) => Ok(FileSource::new(file)),
            Err(error) if error.kind() == ErrorKind::OutOfMemory => Err(OpenEnd::Memory),
            Err(_) => {
                self.faults = self.faults.saturating_add(1);
                Err(OpenEnd::Failed)
            }
        }
    }
}
