//! The objects over the machine, over a reader and a writer that fail.
use crate::{Failed, FileSource, Front, MemSource, OutSink, Sink, Source};
use std::alloc::Global;
use std::io::{self, Read, Write};
use std::test::Fail;
use vast_value::Bytes;

/// Gives one byte, then an error, then the end.
#[derive(Drop)]
struct OneByte {
    calls: u32,
}

impl Read for OneByte {
    fn read(&mut self, buf: &mut [u8]) -> io::Result<usize> {
        let call = self.calls;
        self.calls = self.calls.saturating_add(1);
        if call == 1 {
            return Err(io::ErrorKind::Other.into());
        }
        if call > 1 || buf.is_empty() {
            return Ok(0);
        }
        buf[0] = b'x';
        Ok(1)
    }
}

#[test]
fn a_failed_read_of_the_machine_is_no_end(rt: HostRuntime) {
    let mut source = FileSource::new(OneByte { calls: 0 });
    let mut into = [0u8; 4];
    assert_eq!(rt; source.read(&mut into), Ok(1));
    assert_eq!(rt; into[0], b'x');
    assert_eq!(rt; source.read(&mut into), Err(Failed));
    assert_eq!(rt; source.read(&mut into), Ok(0));
}

/// Takes one byte, then none, then fails.
#[derive(Drop)]
struct Narrow {
    calls: u32,
}

impl Write for Narrow {
    fn write(&mut self, buf: &[u8]) -> io::Result<usize> {
        let call = self.calls;
        self.calls = self.calls.saturating_add(1);
        if call > 1 {
            return Err(io::ErrorKind::Other.into());
        }
        Ok(if call == 0 && !buf.is_empty() { 1 } else { 0 })
    }

    fn flush(&mut self) -> io::Result<()> {
        Ok(())
    }
}

#[test]
fn a_short_write_of_the_machine_is_told_and_none_is_a_fault(rt: HostRuntime) {
    let mut sink = OutSink::new(Narrow { calls: 0 });
    assert_eq!(rt; sink.write(b"ab"), Ok(1));
    assert_eq!(rt; sink.write(b"b"), Err(Failed));
    assert_eq!(rt; sink.write(b"b"), Err(Failed));
}

fn fronted(alloc: Global) -> Result<Front<MemSource>, Fail> {
    let rest = MemSource::new(Bytes::copy(alloc, b"cd")?, 8, vec![in alloc; 0]?);
    Ok(Front::new(Bytes::copy(alloc, b"ab")?, rest))
}

#[test]
fn the_front_is_given_before_the_rest(rt: HostRuntime) -> Result<(), Fail> {
    let mut source = fronted(rt.alloc())?;
    let mut into = [0u8; 8];
    assert_eq!(rt; source.read(&mut into), Ok(2));
    assert_eq!(rt; source.read(&mut into), Err(Failed));
    assert_eq!(rt; source.read(&mut into), Ok(2));
    assert_eq!(rt; into, *b"cd\0\0\0\0\0\0");
    Ok(())
}
