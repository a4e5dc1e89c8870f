//! Imports of logs by hand.
ghost use Rattle.std.specs.Prelude.{◌≤◌};

use crate::{Import, ImportEnd, Input, InputFault};
use std::alloc::{AllocError, Global};
use std::test::Fail;
use vast_io::{FileSource, MemSource};
use vast_value::{Bytes, Cell, RowView, Transport, Value};
use zeek_log::{Moved, Step, ZeekFault};

// Two heads of one layout. The rows of the first are three, and the last line has no newline.
const LOG: &[u8] = b"#path\td\n#fields\tn\n#types\tcount\n1\n2\n3\n#types\tcount\n4";

// The second row is wrong.
const WRONG: &[u8] = b"#path\td\n#fields\tn\n#types\tcount\n1\nx\n3\n";

// The second port has a transport.
const CONN: &[u8] =
    b"#path\tc\n#fields\ta\tb\tproto\n#types\tport\tport\tenum\n7\t8/tcp\tudp\n7\t8/tcp\t-\n";

fn source(alloc: Global, bytes: &[u8], piece: u32, fails: Vec<u64>) -> Result<MemSource, AllocError>
    requires { 1 ≤ piece }
{
    let mut copy = Bytes::new(alloc);
    copy.append(bytes)?;
    Ok(MemSource::new(copy, piece, fails))
}

/// How many rows each batch has, and the end behind them, or `None` where all was given.
fn import_all(
    alloc: Global,
    from: MemSource,
    rows: u32,
) -> Result<(Vec<u64>, Option<ImportEnd>), AllocError>
    requires some { 1 ≤ rows }
    requires few { rows ≤ 4096 }
{
    let mut import = Import::start(alloc, 3, rows, from);
    let mut sizes = Vec::new(alloc);
    let mut end = Some(ImportEnd::Memory);
    for _ in 0..6u32 {
        match import.next_batch() {
            Ok(Some(batch)) => sizes.push(batch.rows().len() as u64)?,
            Ok(None) => end = None,
            Err(why) => end = Some(why),
        }
    }
    Ok((sizes, end))
}

#[test]
fn batches_close_at_their_rows_before_a_head_and_at_the_end(rt: HostRuntime) -> Result<(), Fail> {
    for (rows, sizes) in [
        (1u32, [1u64, 1, 1, 1].as_slice()),
        (2, [2, 1, 1].as_slice()),
        (3, [3, 1].as_slice()),
        (4096, [3, 1].as_slice()),
    ] {
        let from = source(rt.alloc(), LOG, 5, Vec::new(rt.alloc()))?;
        let (told, end) = import_all(rt.alloc(), from, rows)?;
        assert_eq!(rt; told.as_slice(), sizes);
        assert_eq!(rt; end, None);
    }
    Ok(())
}

/// A log of six rows, each one text of so many bytes.
fn log_of_texts(alloc: Global, length: usize) -> Result<Bytes, AllocError> {
    let text = vec![in alloc; b'x'; length]?;
    let mut log = Bytes::copy(alloc, b"#path\td\n#fields\tt\n#types\tstring\n")?;
    for _ in 0..6u32 {
        log.append(&text)?;
        log.push(b'\n')?;
    }
    Ok(log)
}

// A text takes five bytes more in a batch, so four of the longer ones are 4,194,304 bytes, and of the shorter four less.
#[test]
fn a_batch_closes_at_its_cell_bytes(rt: HostRuntime) -> Result<(), Fail> {
    for (length, sizes) in [
        (1_048_571usize, [4u64, 2].as_slice()),
        (1_048_570, [5, 1].as_slice()),
    ] {
        let log = log_of_texts(rt.alloc(), length)?;
        let from = MemSource::new(log, 1_000_000, Vec::new(rt.alloc()));
        let (told, end) = import_all(rt.alloc(), from, 4096)?;
        assert_eq!(rt; told.as_slice(), sizes);
        assert_eq!(rt; end, None);
    }
    Ok(())
}

#[test]
fn rows_before_a_fault_or_a_failed_read_come_first(rt: HostRuntime) -> Result<(), Fail> {
    let wrong = source(rt.alloc(), WRONG, 1000, Vec::new(rt.alloc()))?;
    let (told, end) = import_all(rt.alloc(), wrong, 9)?;
    assert_eq!(rt; told.as_slice(), [1u64].as_slice());
    let fault = InputFault::Line {
        line: 5,
        column: 1,
        what: ZeekFault::BadCell,
    };
    assert_eq!(rt; end, Some(ImportEnd::Fault(fault)));
    let failing = source(rt.alloc(), LOG, 35, vec![in rt.alloc(); 1]?)?;
    let (told, end) = import_all(rt.alloc(), failing, 9)?;
    assert_eq!(rt; told.as_slice(), [2u64].as_slice());
    assert_eq!(rt; end, Some(ImportEnd::ReadFault));
    Ok(())
}

#[test]
fn a_source_that_tells_nothing_gives_its_number(rt: HostRuntime) -> Result<(), Fail> {
    let mut import = Import::start(rt.alloc(), 3, 9, FileSource::new(LOG));
    match import.next_batch() {
        Ok(Some(batch)) => {
            assert_eq!(rt; batch.source(), 3);
            assert_eq!(rt; batch.rows().len(), 3);
        }
        _ => return Err("no batch".into()),
    }
    let _ = import.into_source();
    Ok(())
}

/// The transport of each port of the rows, none for an unset cell.
fn transports(cells: &[Cell], out: &mut Vec<Transport>) -> Result<(), AllocError> {
    for cell in cells {
        if let Cell::One(Value::Port { over, .. }) = cell {
            out.push(*over)?;
        }
    }
    Ok(())
}

#[test]
fn ports_get_the_transport_of_their_protocol(rt: HostRuntime) -> Result<(), Fail> {
    let from = source(rt.alloc(), CONN, 1000, Vec::new(rt.alloc()))?;
    let mut input = Input::start(rt.alloc(), from);
    let mut all = Vec::new(rt.alloc());
    for _ in 0..4u32 {
        if let Ok(Some(Step::Line(row))) = input.next() {
            transports(row.as_slice(), &mut all)?;
        }
    }
    let want = [
        Transport::Udp,
        Transport::Tcp,
        Transport::Unknown,
        Transport::Tcp,
    ];
    assert_eq!(rt; all.as_slice(), want.as_slice());
    let _ = input.into_source();
    Ok(())
}

#[test]
fn a_row_is_written_carried_where_the_input_stands(rt: HostRuntime) -> Result<(), Fail> {
    let from = source(rt.alloc(), CONN, 1000, Vec::new(rt.alloc()))?;
    let mut input = Input::start(rt.alloc(), from);
    let mut text = Bytes::new(rt.alloc());
    for _ in 0..2u32 {
        if let Ok(Some(Moved::Line)) = input.advance() {
            input.place().write_row(&mut text)?;
        }
    }
    assert_eq!(rt; text.as_slice(), b"\t7/udp\t8/tcp\tudp".as_slice());
    let _ = input.into_source();
    Ok(())
}
