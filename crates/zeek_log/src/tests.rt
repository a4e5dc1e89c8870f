//! Logs by hand.
ghost use Rattle.std.specs.Prelude.{◌≤◌};

use crate::{Moved, Step, ZeekEnd, ZeekFault, ZeekReader};
use std::alloc::{AllocError, Global};
use std::test::Fail;
use vast_io::MemSource;
use vast_value::Bytes;

// Two heads, comments and an empty line; the last line has no newline.
const LOG: &[u8] =
    b"#separator \\x09\n#set_separator\t,\n#\n\n#path\td\n#fields\tname\tn\n#types\tstring\tcount\nann\t3\nbob\t-\n#close\tx\n#fields\tn\n#types\tcount\n7";

/// What a reader gave of some bytes: how many heads and rows, the cells of all rows together, and its end.
#[derive(Clone, Copy, Debug, PartialEq, Eq)]
struct Told {
    heads: u32,
    rows: u32,
    cells: u64,
    end: ZeekEnd,
}

fn read_all(alloc: Global, bytes: &[u8], piece: u32, fails: Vec<u64>) -> Result<Told, AllocError>
    requires { 1 ≤ piece }
{
    let mut copy = Bytes::new(alloc);
    copy.append(bytes)?;
    let mut source = MemSource::new(copy, piece, fails);
    let mut reader = ZeekReader::new(alloc)?;
    let mut told = Told {
        heads: 0,
        rows: 0,
        cells: 0,
        end: ZeekEnd::Memory,
    };
    for _ in 0..9u32 {
        match reader.next(alloc, &mut source) {
            Ok(Step::Head(_layout)) => told.heads = told.heads.wrapping_add(1),
            Ok(Step::Line(row)) => {
                told.rows = told.rows.wrapping_add(1);
                told.cells = told.cells.wrapping_add(row.as_slice().len() as u64);
            }
            Err(end) => told.end = end,
        }
    }
    Ok(told)
}

fn fault(line: u64, column: u32, what: ZeekFault) -> ZeekEnd {
    ZeekEnd::Fault { line, column, what }
}

#[test]
fn a_log_in_pieces_of_any_size_gives_the_same(rt: HostRuntime) -> Result<(), Fail> {
    let want = Told {
        heads: 2,
        rows: 3,
        cells: 5,
        end: ZeekEnd::Done,
    };
    for piece in [1u32, 7, 1000] {
        let told = read_all(rt.alloc(), LOG, piece, Vec::new(rt.alloc()))?;
        assert_eq!(rt; told, want);
    }
    let bars = b"#separator \\x7C\n#path|d\n#fields|a|b\n#types|count|set[addr]\n-|1.2.3.4,::1\n";
    let told = read_all(rt.alloc(), bars, 1000, Vec::new(rt.alloc()))?;
    assert_eq!(rt; (told.heads, told.rows, told.cells), (1, 1, 2));
    assert_eq!(rt; told.end, ZeekEnd::Done);
    Ok(())
}

/// Puts the same bytes behind a text, so many times.
fn append_times(text: &mut Bytes, piece: &[u8], times: u32) -> Result<(), AllocError> {
    for _ in 0..times {
        text.append(piece)?;
    }
    Ok(())
}

/// A log of so many columns, whose names are `b`, `ab`, `aab` and so on, and a row.
fn wide_log(alloc: Global, columns: u32) -> Result<Bytes, AllocError> {
    let mut text = Bytes::copy(alloc, b"#path\td\n#fields")?;
    for number in 0..columns {
        text.push(b'\t')?;
        append_times(&mut text, b"a", number)?;
        text.push(b'b')?;
    }
    text.append(b"\n#types")?;
    append_times(&mut text, b"\tcount", columns)?;
    text.append(b"\n1")?;
    append_times(&mut text, b"\t1", columns.saturating_sub(1))?;
    Ok(text)
}

#[test]
fn a_row_has_at_most_256_cells(rt: HostRuntime) -> Result<(), Fail> {
    for (columns, steps, end) in [
        (256u32, (1u32, 1u32, 256u64), ZeekEnd::Done),
        (257, (0, 0, 0), fault(2, 257, ZeekFault::TooManyColumns)),
    ] {
        let text = wide_log(rt.alloc(), columns)?;
        let told = read_all(rt.alloc(), text.as_slice(), 1000, Vec::new(rt.alloc()))?;
        assert_eq!(rt; (told.heads, told.rows, told.cells), steps);
        assert_eq!(rt; told.end, end);
    }
    Ok(())
}

#[test]
fn a_line_has_at_most_1048576_bytes(rt: HostRuntime) -> Result<(), Fail> {
    for (length, rows, end) in [
        (1_048_576usize, 1u32, ZeekEnd::Done),
        (1_048_577, 0, fault(4, 0, ZeekFault::LineTooLong)),
    ] {
        let mut text = Bytes::copy(rt.alloc(), b"#path\td\n#fields\tn\n#types\tstring\n")?;
        text.append(&vec![in rt.alloc(); b'x'; length]?)?;
        let told = read_all(rt.alloc(), text.as_slice(), 100_000, Vec::new(rt.alloc()))?;
        assert_eq!(rt; (told.heads, told.rows, told.end), (1, rows, end));
    }
    Ok(())
}

#[test]
fn a_failed_read_in_a_line_is_the_end_behind_the_lines_before(rt: HostRuntime) -> Result<(), Fail> {
    // Eight bytes a read: read 11 would give the bytes from 88 on, in the second row.
    let fails = vec![in rt.alloc(); 11]?;
    let told = read_all(rt.alloc(), LOG, 8, fails)?;
    assert_eq!(rt; (told.heads, told.rows), (1, 1));
    assert_eq!(rt; told.end, ZeekEnd::ReadFault);
    Ok(())
}

// A reader in place tells numbers and makes rows: no clause says that it does the first.
#[test]
fn a_line_in_place_tells_its_numbers_and_its_row(rt: HostRuntime) -> Result<(), Fail> {
    let mut copy = Bytes::new(rt.alloc());
    copy.append(
        b"#path\td\n#fields\tp\tn\ts\n#types\tport\tcount\tset[string]\n53\t7\ta,b\n5/udp\t-\t-\n",
    )?;
    copy.append(&[b'#'; 80])?;
    let mut source = MemSource::new(copy, 1000, Vec::new(rt.alloc()));
    let mut reader = ZeekReader::new(rt.alloc())?;
    assert!(rt; reader.advance(rt.alloc(), &mut source) == Ok(Moved::Head));
    assert!(rt; reader.number(0).is_none());
    assert!(rt; reader.advance_in_place());
    assert!(rt; reader.number(0) == Some(53) && reader.number(1) == Some(7));
    assert!(rt; reader.number(2).is_none() && reader.number(3).is_none());
    assert_eq!(rt; reader.row(rt.alloc())?.as_slice().len(), 3);
    assert!(rt; reader.advance(rt.alloc(), &mut source) == Ok(Moved::Line));
    assert!(rt; reader.number(0).is_none() && reader.number(1).is_none());
    assert_eq!(rt; reader.row(rt.alloc())?.as_slice().len(), 3);
    Ok(())
}
