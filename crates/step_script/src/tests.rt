//! Scripts on files in memory.
ghost use Rattle.std.specs.Prelude.{◌≡◌, ◌<◌, ◌≤◌, ◌^◌, length};

use super::*;
use event_batch::Steps;
use std::alloc::{AllocError, Global};
use std::marker::Brand;
use std::sync::ledger::{Blank, Ledger};
use std::test::Fail;
use vast_io::{File, Files, MemOpener, MemSink};
use vast_value::Bytes;

const TIMES: &[u8] = b"#path\tt\n#fields\tts\n#types\ttime\n10.4\n10.5\n10.6\n";

const PEOPLE: &[u8] =
    b"#separator \\x09\n#path\td\n#fields\tname\tkind\tn\n#types\tstring\tenum\tcount\nann\tA\t3\nbob\tB\t4\n";

const TEXTS: &[u8] = b"#path\ts\n#fields\ts\n#types\tstring\nabcdefgh\nabcdefghi\nabcdefghj\n";

const FOUR: &[u8] = b"#path\tf\n#fields\ta\n#types\tcount\n1\n2\n3\n4\n";

const FIVE: &[u8] = b"#path\tf\n#fields\ta\n#types\tcount\n1\n2\n3\n4\n5\n";

const BROKEN: &[u8] = b"#path\tf\n#fields\ta\n#types\tcount\n1\nx\n";

const FILES: [(&[u8], &[u8]); 6] = [
    (b"t", TIMES),
    (b"d2", PEOPLE),
    (b"s", TEXTS),
    (b"four", FOUR),
    (b"five", FIVE),
    (b"broken", BROKEN),
];

fn bytes(alloc: Global, from: &[u8]) -> Result<Bytes, AllocError> {
    let mut copy = Bytes::new(alloc);
    copy.append(from)?;
    Ok(copy)
}

fn files(alloc: Global) -> Result<Files, AllocError> {
    let mut files = Files::new(alloc);
    for (name, from) in FILES {
        files.push(File {
            name: bytes(alloc, name)?,
            bytes: bytes(alloc, from)?,
            fails: Vec::new(alloc),
        })?;
    }
    Ok(files)
}

// How a script ends on these files, and what it writes.
fn played<L: Ledger>(alloc: Global, script: &[u8], blank: Blank) -> Result<(Status, MemSink), Fail>
    requires name { blank.name ≡ L.name }
    requires parts { blank.parts ≡ L.parts }
    requires some { 0 < L.parts }
{
    if script.len() > 1 << 20 {
        return Err("a long script".into());
    }
    let mut steps = Steps::<L>::new(blank);
    let mut opener = MemOpener::new(files(alloc)?, 7, Vec::new(alloc));
    let mut sink = MemSink::new(alloc, 4096, 7, Vec::new(alloc))?;
    let ended = run_steps(alloc, script, &mut opener, &mut sink, &mut steps);
    Ok((ended.status, sink))
}

fn plays(alloc: Global, script: &[u8], text: &[u8], status: Status) -> Result<(), Fail> {
    let (ended, sink) = played::<Brand>(alloc, script, Blank::new(1))?;
    if ended != status {
        return Err("another status".into());
    }
    if sink.bytes() != text {
        return Err("another text".into());
    }
    Ok(())
}

#[test]
fn a_page_waits_for_its_index(rt: HostRuntime) -> Result<(), Fail> {
    plays(
        rt.alloc(),
        b"source t\naccept 1\nquery past ts < @10.5\ndrain 1\nindex 0\ndrain 1\n",
        b"source 1\nbatch 0 first 0 rows 3\nquery 1 from 3\npage 1 past 0 live 3 found 0 checked 0 touched 0 again 0\nindexed 0\npage 1 past 3 live 3 found 1 checked 3 touched 1 again none\n0\tt\t10.400000\n",
        Status::Done,
    )
}

#[test]
fn a_full_store_refuses_a_batch_again_and_again(rt: HostRuntime) -> Result<(), Fail> {
    let rows: [(&[u8], &[u8], Status); 2] = [
        (
            b"limit rows 4\nlimit batch 3\nsource five\naccept 1\naccept 1\naccept 1\nrows\n",
            b"source 1\nbatch 0 first 0 rows 3\nfull 3 4\nfull 3 4\nrows 3\n",
            Status::Full,
        ),
        (
            b"limit rows 4\nlimit batch 3\nsource four\naccept 1\naccept 1\naccept 1\n",
            b"source 1\nbatch 0 first 0 rows 3\nbatch 1 first 3 rows 1\nend 1 done\n",
            Status::Done,
        ),
    ];
    for (script, text, status) in rows {
        plays(rt.alloc(), script, text, status)?;
    }
    Ok(())
}

#[test]
fn a_line_or_a_name_that_is_none_ends_the_script(rt: HostRuntime) -> Result<(), Fail> {
    let rows: [(&[u8], &[u8], Status); 3] = [
        (b"foo", b"script line 1\n", Status::ScriptFault),
        (
            b"# limits\n\nlimit queries 1\nquery past a == 1\nquery past a == 1\nquery past a ==\nlimit queries 2\nrows\n",
            b"query 1 from 0\ntoo many 1\nquery refused 4 Unexpected\nscript line 7\n",
            Status::ScriptFault,
        ),
        (
            b"source broken\naccept 1\naccept 1\naccept 1\naccept 2\nsource no\there\nrows\n",
            b"source 1\nbatch 0 first 0 rows 1\nend 1 fault line 5 column 1 BadCell\nend 1 fault line 5 column 1 BadCell\nno source 2\nopen no\\x09here\n",
            Status::OpenFault,
        ),
    ];
    for (script, text, status) in rows {
        plays(rt.alloc(), script, text, status)?;
    }
    Ok(())
}
