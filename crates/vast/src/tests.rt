//! The commands over files and sinks in memory.
use crate::top::run_still;
use input_report::Status;
use itoa::Buffer as Digits;
use std::alloc::{AllocError, Global};
use std::test::Fail;
use vast_io::{File, Files, MemOpener, MemSink, Source};
use vast_value::Bytes;

// A log of three columns and one row.
const ANN: &[u8] =
    b"#separator \\x09\n#path\td\n#fields\tname\tkind\tn\n#types\tstring\tenum\tcount\nann\tA\t3\n";

const ANN_AND_BOB: &[u8] =
    b"#separator \\x09\n#path\td\n#fields\tname\tkind\tn\n#types\tstring\tenum\tcount\nann\tA\t3\nbob\tB\t4\n";

// The same without its types and its row.
const NO_TYPES: &[u8] = b"#separator \\x09\n#path\td\n#fields\tname\tkind\tn\n";

const CLOSED: &[u8] = b"#path\td\n#fields\ta\n#types\tcount\n#close\tx\n";

const FLOATING: &[u8] = b"#path\td\n#fields\ta\tb\n#types\tcount\tdouble\n";

const DASHES: &[u8] = b"#path\td\n#fields\ts\n#types\tstring\n\\x2d\n-\n";

const ADDRESSES: &[u8] =
    b"#path\ta\n#fields\th\n#types\taddr\n10.255.255.255\n11.0.0.0\n::ffff:10.0.0.1\n";

const TWO_LAYOUTS: &[u8] =
    b"#path\td\n#fields\ta\n#types\tcount\n1\n2\n#path\te\n#types\tint\n3\n4\n5\nx\n6\n";

// A connection log of 21 columns.
const CONNECTIONS: &[u8] =
    b"#separator \\x09\n#set_separator\t,\n#empty_field\t(empty)\n#unset_field\t-\n#path\tconn\n#open\t2011-03-18-19-06-08\n#fields\tts\tuid\tid.orig_h\tid.orig_p\tid.resp_h\tid.resp_p\tproto\tservice\tduration\torig_bytes\tresp_bytes\tconn_state\tlocal_orig\tlocal_resp\tmissed_bytes\thistory\torig_pkts\torig_ip_bytes\tresp_pkts\tresp_ip_bytes\ttunnel_parents\n#types\ttime\tstring\taddr\tport\taddr\tport\tenum\tstring\tinterval\tcount\tcount\tstring\tbool\tbool\tcount\tstring\tcount\tcount\tcount\tcount\tset[string]\n1300475167.096535\tCHhAvVGS1DHFjwGM9\t141.142.220.202\t5353\t224.0.0.251\t5353\tudp\tdns\t-\t-\t-\tS0\t-\t-\t0\tD\t1\t73\t0\t0\t(empty)\n1300475168.853899\tC4J4Th3PJpwUYZZ6gc\t141.142.220.118\t43927\t141.142.2.2\t53\tudp\t-\t0.000435\t38\t89\tSF\t-\t-\t0\tDd\t1\t66\t1\t117\t(empty)\n#close\t2011-03-18-19-06-25\n";

// Big-endian nanoseconds of Ethernet: 50 bytes of UDP behind two tags, 42 bytes of a fragment, 20 of 60 bytes, and
// five bytes of a record's head.
const CAPTURE: [u8; 189] = [
    0xa1, 0xb2, 0x3c, 0x4d, 0, 2, 0, 4, 0, 0, 0, 0, 0, 0, 0, 0, 0, 4, 0, 0, 0, 0, 0, 1, //
    0, 0, 0, 0x0a, 0, 0, 0, 5, 0, 0, 0, 0x32, 0, 0, 0, 0x32, //
    2, 0, 0, 0, 0, 2, 2, 0, 0, 0, 0, 1, 0x81, 0, 0, 1, 0x81, 0, 0, 2, 8, 0, //
    0x45, 0, 0, 0x1c, 0, 0, 0, 0, 0x40, 0x11, 0, 0, 0x0a, 0, 0, 1, 0x0a, 0, 0, 2, 3, 0xe8, 0, 0x35,
    0, 8, 0, 0, //
    0, 0, 0, 0x0b, 0, 0, 0, 0, 0, 0, 0, 0x2a, 0, 0, 0, 0x2a, //
    2, 0, 0, 0, 0, 2, 2, 0, 0, 0, 0, 1, 8, 0, //
    0x45, 0, 0, 0x1c, 0, 0, 0, 1, 0x40, 0x11, 0, 0, 0x0a, 0, 0, 1, 0x0a, 0, 0, 2, 0, 0, 0, 0, 0, 0,
    0, 0, //
    0, 0, 0, 0x0c, 0, 0, 0, 0, 0, 0, 0, 0x14, 0, 0, 0, 0x3c, //
    2, 0, 0, 0, 0, 2, 2, 0, 0, 0, 0, 1, 8, 0, 0x45, 0, 0, 0x3c, 0, 0, //
    0, 0, 0, 0x0d, 0,
];

// How the outside is: how many bytes a read gives, and the numbers of its failing openings, reads and writes.
#[derive(Clone, Copy)]
struct Outside {
    piece: u32,
    opening: u64,
    read: u64,
    write: u64,
}

const NEVER: u64 = 1000;

const CALM: Outside = Outside {
    piece: 7,
    opening: NEVER,
    read: NEVER,
    write: NEVER,
};

fn copy(alloc: Global, bytes: &[u8]) -> Result<Bytes, AllocError> {
    let mut copy = Bytes::new(alloc);
    copy.append(bytes)?;
    Ok(copy)
}

// An opener that holds this file as `log`, a capture as `cap` and a log as `ann`.
fn opener(alloc: Global, bytes: &[u8], outside: &Outside) -> Result<MemOpener, AllocError> {
    let mut files = Files::new(alloc);
    let all: [(&[u8], &[u8]); 3] = [(b"log", bytes), (b"cap", CAPTURE.as_slice()), (b"ann", ANN)];
    for (name, bytes) in all {
        files.push(File {
            name: copy(alloc, name)?,
            bytes: copy(alloc, bytes)?,
            fails: vec![in alloc; outside.read]?,
        })?;
    }
    let fails = vec![in alloc; outside.opening]?;
    Ok(MemOpener::new(files, outside.piece.max(1), fails))
}

// The status of the command, and what it wrote to a sink of 5 bytes a call.
fn done(
    alloc: Global,
    words: &[&str],
    bytes: &[u8],
    outside: &Outside,
) -> Result<(Status, MemSink), AllocError> {
    let mut all = Vec::new(alloc);
    for word in words {
        all.push(String::from_str(alloc, word)?)?;
    }
    let mut opener = opener(alloc, bytes, outside)?;
    let mut sink = MemSink::new(alloc, 500, 5, vec![in alloc; outside.write]?)?;
    let ended = run_still(alloc, &all, &mut opener, &mut sink);
    Ok((ended.status, sink))
}

#[test]
fn scan_writes_the_rows_that_match(rt: HostRuntime) -> Result<(), Fail> {
    let rows: [(&[u8], &str, Status, &[u8]); 9] = [
        (ANN, "name == \"ann\"", Status::Done, b"d\tann\tA\t3\n"),
        (ANN, "n == 3", Status::Done, b"d\tann\tA\t3\n"),
        (ANN, "n == 4", Status::Done, b""),
        (ANN, "! (uid == \"a\")", Status::Done, b"d\tann\tA\t3\n"),
        (NO_TYPES, "n == 3", Status::Done, b""),
        (DASHES, "s == nil", Status::Done, b"d\t-\n"),
        (DASHES, "s == \"-\"", Status::Done, b"d\t\\x2d\n"),
        (
            ADDRESSES,
            "h in 10.0.0.0/8",
            Status::Done,
            b"a\t10.255.255.255\na\t10.0.0.1\n",
        ),
        (
            CONNECTIONS,
            "id.resp_p == 53/udp",
            Status::Done,
            b"conn\t1300475168.853899\tC4J4Th3PJpwUYZZ6gc\t141.142.220.118\t43927/udp\t141.142.2.2\t53/udp\tudp\t-\t0.000435\t38\t89\tSF\t-\t-\t0\tDd\t1\t66\t1\t117\t(empty)\n",
        ),
    ];
    for (bytes, query, status, text) in rows {
        let (ended, sink) = done(rt.alloc(), &["scan", "log", query], bytes, &CALM)?;
        assert_eq!(rt; ended, status);
        assert_eq!(rt; sink.bytes(), text);
    }
    Ok(())
}

#[test]
fn check_writes_the_layouts_and_the_end(rt: HostRuntime) -> Result<(), Fail> {
    let rows: [(&[u8], u32, Status, &[u8]); 5] = [
        (
            CLOSED,
            7,
            Status::Done,
            b"layout d columns 1 rows 0\nend done\n",
        ),
        (
            FLOATING,
            7,
            Status::InputFault,
            b"end fault line 3 column 2 Floating\n",
        ),
        (
            TWO_LAYOUTS,
            7,
            Status::InputFault,
            b"layout d columns 1 rows 2\nlayout e columns 1 rows 3\nend fault line 11 column 1 BadCell\n",
        ),
        (
            CONNECTIONS,
            100,
            Status::Done,
            b"layout conn columns 21 rows 2\nend done\n",
        ),
        (
            CONNECTIONS,
            1,
            Status::Done,
            b"layout conn columns 21 rows 2\nend done\n",
        ),
    ];
    for (bytes, piece, status, text) in rows {
        let outside = Outside { piece, ..CALM };
        let (ended, sink) = done(rt.alloc(), &["check", "log"], bytes, &outside)?;
        assert_eq!(rt; ended, status);
        assert_eq!(rt; sink.bytes(), text);
    }
    Ok(())
}

const USAGE: &[u8] =
    b"usage: vast scan FILE QUERY, steps SCRIPT, check FILE, load SEED ROWS, run FILE..\n";

#[test]
fn words_and_queries_are_refused_by_a_line(rt: HostRuntime) -> Result<(), Fail> {
    let rows: [(&[&str], Status, &[u8]); 6] = [
        (&[], Status::Usage, USAGE),
        (&["check", "log", "x"], Status::Usage, USAGE),
        (
            &["scan", "nosuch", "a == 1"],
            Status::OpenFault,
            b"open nosuch\n",
        ),
        (
            &["scan", "log", "a =="],
            Status::QueryRefused,
            b"query p1 at 4 Unexpected\n",
        ),
        (
            &["scan", "log", "a < \"x\""],
            Status::QueryRefused,
            b"query p1 at 4 KindClash\n",
        ),
        (
            &["scan", "log", "a == 1.2.3"],
            Status::QueryRefused,
            b"query p1 at 5 BadLiteral\n",
        ),
    ];
    for (words, status, text) in rows {
        let (ended, sink) = done(rt.alloc(), words, ANN, &CALM)?;
        assert_eq!(rt; ended, status);
        assert_eq!(rt; sink.bytes(), text);
    }
    Ok(())
}

#[test]
fn steps_writes_the_replies_of_a_script(rt: HostRuntime) -> Result<(), Fail> {
    let rows: [(&[u8], Status, &[u8]); 3] = [
        (b"rows\n", Status::Done, b"rows 0\n"),
        (b"source log\nrows", Status::Done, b"source 1\nrows 0\n"),
        (
            b"rows\nrow\nrows\n",
            Status::ScriptFault,
            b"rows 0\nscript line 2\n",
        ),
    ];
    for (script, status, text) in rows {
        let (ended, sink) = done(rt.alloc(), &["steps", "log"], script, &CALM)?;
        assert_eq!(rt; ended, status);
        assert_eq!(rt; sink.bytes(), text);
    }
    Ok(())
}

#[test]
fn a_call_that_fails_is_told_by_its_status(rt: HostRuntime) -> Result<(), Fail> {
    let rows: [(u64, u64, u64, Status, &[u8]); 5] = [
        (0, NEVER, NEVER, Status::OpenFault, b"open log\n"),
        (NEVER, 1, NEVER, Status::ReadFault, b"read fault\n"),
        (
            NEVER,
            5,
            NEVER,
            Status::ReadFault,
            b"d\tann\tA\t3\nread fault\n",
        ),
        (NEVER, NEVER, 0, Status::WriteFault, b""),
        (NEVER, NEVER, 1, Status::WriteFault, b"d\tann"),
    ];
    for (opening, read, write, status, text) in rows {
        let outside = Outside {
            piece: 16,
            opening,
            read,
            write,
        };
        let (ended, sink) = done(rt.alloc(), &["scan", "log", "n > 2"], ANN_AND_BOB, &outside)?;
        assert_eq!(rt; ended, status);
        assert_eq!(rt; sink.bytes(), text);
    }
    Ok(())
}

// A log whose first row has a comment and a row behind it.
const ANN_CLOSED: &[u8] =
    b"#separator \\x09\n#path\td\n#fields\tname\tkind\tn\n#types\tstring\tenum\tcount\nann\tA\t3\n#close\tx\nbob\tB\t4\n";

// What was not read yet when the first match was written, where a read gives `piece` bytes: the sink fails there.
fn left_at_the_first_match(alloc: Global, bytes: &[u8], piece: u32) -> Result<Vec<u8>, AllocError> {
    let words = vec![in alloc;
        String::from_str(alloc, "scan")?,
        String::from_str(alloc, "log")?,
        String::from_str(alloc, "n > 2")?,
    ]?;
    let outside = Outside {
        piece,
        write: 0,
        ..CALM
    };
    let mut opener = opener(alloc, bytes, &outside)?;
    let mut sink = MemSink::new(alloc, 200, 5, vec![in alloc; outside.write]?)?;
    let ended = run_still(alloc, &words, &mut opener, &mut sink);
    let mut left = Vec::new(alloc);
    let mut ends = ended.ends.into_items();
    if let Some(source) = ends.pop().and_then(|end| end.rest) {
        let mut source = source;
        for _ in 0..bytes.len() {
            let mut into = [0; 100];
            if let Ok(count) = source.read(&mut into) {
                left.extend_from_slice(&into[..count])?;
            }
        }
    }
    Ok(left)
}

#[test]
fn a_match_is_written_before_the_source_is_read_again(rt: HostRuntime) -> Result<(), Fail> {
    let rows: [(u32, &[u8]); 3] = [
        (1, b"#close\tx\nbob\tB\t4\n"),
        (80, b"ose\tx\nbob\tB\t4\n"),
        (86, b"bob\tB\t4\n"),
    ];
    for (piece, left) in rows {
        let seen = left_at_the_first_match(rt.alloc(), ANN_CLOSED, piece)?;
        assert_eq!(rt; seen.as_slice(), left);
    }
    Ok(())
}

const WORKED: &[u8] =
    b"packet\t10.000000005\t50\t50\t10.0.0.1\t1000/udp\t10.0.0.2\t53/udp\tudp\npacket\t11.000000\t42\t42\t10.0.0.1\t-\t10.0.0.2\t-\tudp\npacket\t12.000000\t20\t60\t-\t-\t-\t-\t-\nflow\t10.000000005\t10.0.0.1\t1000/udp\t10.0.0.2\t53/udp\tudp\t0.000000\t1\t50\t0\t0\nfault offset 184 ShortRecord\n";

// The two packets and the flow that speak from an address, where the fourth read of 50 bytes fails.
const FAILED: &[u8] =
    b"packet\t10.000000005\t50\t50\t10.0.0.1\t1000/udp\t10.0.0.2\t53/udp\tudp\npacket\t11.000000\t42\t42\t10.0.0.1\t-\t10.0.0.2\t-\tudp\nflow\t10.000000005\t10.0.0.1\t1000/udp\t10.0.0.2\t53/udp\tudp\t0.000000\t1\t50\t0\t0\nread fault\n";

#[test]
fn scan_writes_packets_and_behind_them_their_flows(rt: HostRuntime) -> Result<(), Fail> {
    let rows: [(&str, u32, u64, Status, &[u8]); 4] = [
        ("! (x == nil)", 1, NEVER, Status::InputFault, WORKED),
        ("! (x == nil)", 1000, NEVER, Status::InputFault, WORKED),
        ("proto != nil", 50, 3, Status::ReadFault, FAILED),
        (
            "id.resp_p == 53/udp",
            7,
            NEVER,
            Status::InputFault,
            b"flow\t10.000000005\t10.0.0.1\t1000/udp\t10.0.0.2\t53/udp\tudp\t0.000000\t1\t50\t0\t0\nfault offset 184 ShortRecord\n",
        ),
    ];
    for (query, piece, read, status, text) in rows {
        let outside = Outside {
            piece,
            read,
            ..CALM
        };
        let (ended, sink) = done(
            rt.alloc(),
            &["scan", "log", query],
            CAPTURE.as_slice(),
            &outside,
        )?;
        assert_eq!(rt; ended, status);
        assert_eq!(rt; sink.bytes(), text);
    }
    Ok(())
}

// What `check` writes of the first bytes of the capture, by the lengths at which its text changes.
const CUTS: [(usize, Status, &[u8], &[u8]); 11] = [
    (0, Status::Done, b"end done\n", b""),
    (
        1,
        Status::InputFault,
        b"end fault line 1 column 0 NoHead\n",
        b"",
    ),
    (4, Status::InputFault, b"end fault offset ", b" ShortHead\n"),
    (
        24,
        Status::Done,
        b"layout packet columns 8 rows 0\nlayout flow columns 11 rows 0\nend done\n",
        b"",
    ),
    (
        25,
        Status::InputFault,
        b"layout packet columns 8 rows 0\nlayout flow columns 11 rows 0\nend fault offset 24 ShortRecord\n",
        b"",
    ),
    (
        90,
        Status::Done,
        b"layout packet columns 8 rows 1\nlayout flow columns 11 rows 1\nend done\n",
        b"",
    ),
    (
        91,
        Status::InputFault,
        b"layout packet columns 8 rows 1\nlayout flow columns 11 rows 1\nend fault offset 90 ShortRecord\n",
        b"",
    ),
    (
        148,
        Status::Done,
        b"layout packet columns 8 rows 2\nlayout flow columns 11 rows 1\nend done\n",
        b"",
    ),
    (
        149,
        Status::InputFault,
        b"layout packet columns 8 rows 2\nlayout flow columns 11 rows 1\nend fault offset 148 ShortRecord\n",
        b"",
    ),
    (
        184,
        Status::Done,
        b"layout packet columns 8 rows 3\nlayout flow columns 11 rows 1\nend done\n",
        b"",
    ),
    (
        185,
        Status::InputFault,
        b"layout packet columns 8 rows 3\nlayout flow columns 11 rows 1\nend fault offset 184 ShortRecord\n",
        b"",
    ),
];

#[test]
fn a_capture_cut_at_any_length_tells_its_packets_and_where_it_ends(
    rt: HostRuntime,
) -> Result<(), Fail> {
    for length in 0..=CAPTURE.len() {
        let mut cut = CUTS[0];
        for row in CUTS {
            if row.0 <= length {
                cut = row;
            }
        }
        let (_, status, text, behind) = cut;
        let mut wanted = copy(rt.alloc(), text)?;
        if !behind.is_empty() {
            wanted.append(Digits::new().format(length as u64).as_bytes())?;
            wanted.append(behind)?;
        }
        let (ended, sink) = done(
            rt.alloc(),
            &["check", "log"],
            &CAPTURE.as_slice()[..length],
            &CALM,
        )?;
        assert_eq!(rt; ended, status, "{length} bytes");
        assert_eq!(rt; sink.bytes(), wanted.as_slice(), "{length} bytes");
    }
    Ok(())
}

#[test]
fn the_first_bytes_tell_the_form(rt: HostRuntime) -> Result<(), Fail> {
    let rows: [(&[u8], Status, &[u8]); 10] = [
        (b"\n", Status::Done, b"end done\n"),
        (
            b"\x1f",
            Status::InputFault,
            b"end fault line 1 column 0 NoHead\n",
        ),
        (
            b"\x1f\x8b\x08",
            Status::InputFault,
            b"end fault offset 0 Compressed\n",
        ),
        (
            b"\n\r\r",
            Status::InputFault,
            b"end fault line 2 column 0 NoHead\n",
        ),
        (
            b"\n\r\r\n",
            Status::InputFault,
            b"end fault offset 0 Pcapng\n",
        ),
        (
            b"\xd4\xc3\xb2\xa1",
            Status::InputFault,
            b"end fault offset 4 ShortHead\n",
        ),
        (
            b"\x4d\x3c\xb2\xa1\0\0\0\0\0\0\0\0\0\0\0\0\0\0\0\0\0\0\0\0",
            Status::InputFault,
            b"end fault offset 4 VersionUnknown\n",
        ),
        // logs that begin as a capture, or as one that isn't read
        (
            b"\xa1\xb2\xc3\xd5\n",
            Status::InputFault,
            b"end fault line 1 column 0 NoHead\n",
        ),
        (
            b"\n#path\td\n#fields\ta\n#types\tcount\n1\n",
            Status::Done,
            b"layout d columns 1 rows 1\nend done\n",
        ),
        (b"\n\n#path\td\n", Status::Done, b"end done\n"),
    ];
    for (bytes, status, text) in rows {
        for piece in [1u32, 100] {
            let outside = Outside { piece, ..CALM };
            let (ended, sink) = done(rt.alloc(), &["check", "log"], bytes, &outside)?;
            assert_eq!(rt; ended, status);
            assert_eq!(rt; sink.bytes(), text);
        }
    }
    Ok(())
}

#[test]
fn a_capture_and_a_log_stand_in_one_history(rt: HostRuntime) -> Result<(), Fail> {
    let script: &[u8] =
        b"source cap\nsource ann\nquery both proto == \"udp\" || n == 3\naccept 1\naccept 2\naccept 1\naccept 1\ndrain 1\n";
    let text: &[u8] =
        b"source 1\nsource 2\nquery 1 from 0\nbatch 0 first 0 rows 3\nbatch 1 first 3 rows 1\nbatch 2 first 4 rows 1\nend 1 fault offset 184 ShortRecord\npage 1 past 0 live 5 found 4 checked 5 touched 3 again none\n0\tpacket\t10.000000005\t50\t50\t10.0.0.1\t1000/udp\t10.0.0.2\t53/udp\tudp\n1\tpacket\t11.000000\t42\t42\t10.0.0.1\t-\t10.0.0.2\t-\tudp\n3\td\tann\tA\t3\n4\tflow\t10.000000005\t10.0.0.1\t1000/udp\t10.0.0.2\t53/udp\tudp\t0.000000\t1\t50\t0\t0\n";
    let (ended, sink) = done(rt.alloc(), &["steps", "log"], script, &CALM)?;
    assert_eq!(rt; ended, Status::InputFault);
    assert_eq!(rt; sink.bytes(), text);
    Ok(())
}
