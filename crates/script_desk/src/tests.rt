//! Lines of scripts, and what they reply.
ghost use Rattle.std.specs.Prelude.{◌≡◌, ◌<◌, ◌≤◌, ◌^◌, length};

use super::*;
use event_batch::{Packed, Steps};
use event_history::Mode;
use history_core::Limits;
use std::alloc::Global;
use std::marker::Brand;
use std::sync::ledger::{Blank, Ledger};
use std::test::Fail;
use vast_value::Bytes;

const LIMITS: Limits = Limits {
    rows: 8,
    queries: 8,
    group: 2,
    inbox: 8,
};

// Batches of the path `t` with a column `ts` of times.
#[derive(Clone, Copy)]
enum Batch {
    /// The seconds 10.4, 10.5 and 10.6.
    Three,
    /// The second 10.4.
    First,
    /// The second 10.5.
    Second,
}

#[derive(Clone, Copy)]
enum Line {
    Accept(Batch),
    Claim,
    Unclaim(u64),
    Lose(u64),
    Index(u64),
    Group,
    Seal,
    Query(Mode, &'static str),
    Take(u64),
    Page(u64),
    Drain(u64),
    Leave(u64),
}

fn bytes(batch: Batch) -> &'static [u8]
    ensures { length result.now ≤ 2 ^ 24 }
{
    match batch {
        Batch::Three => {
            b"\x02\x01\0\0\0\x01\0\0\0t\x01\0\x03\x02\0\0\0ts\x03\0\0\0\x01\0h\xe3k\x02\0\0\0\x01\0I\xd9q\x02\0\0\0\x01\0*\xcfw\x02\0\0\0"
        }
        Batch::First => {
            b"\x02\x01\0\0\0\x01\0\0\0t\x01\0\x03\x02\0\0\0ts\x01\0\0\0\x01\0h\xe3k\x02\0\0\0"
        }
        Batch::Second => {
            b"\x02\x01\0\0\0\x01\0\0\0t\x01\0\x03\x02\0\0\0ts\x01\0\0\0\x01\0I\xd9q\x02\0\0\0"
        }
    }
}

fn accept(alloc: Global, desk: &mut Desk, batch: Batch, out: &mut Bytes) -> Result<(), Fail> {
    let Ok(packed) = Packed::read(alloc, Bytes::copy(alloc, bytes(batch))?) else {
        return Err("not read".into());
    };
    let _ = desk.accept(packed, out)?;
    Ok(())
}

fn play<L: Ledger>(
    alloc: Global,
    desk: &mut Desk,
    line: Line,
    out: &mut Bytes,
    blank: Blank,
) -> Result<(), Fail>
    requires name { blank.name ≡ L.name }
    requires parts { blank.parts ≡ L.parts }
    requires some { 0 < L.parts }
{
    let mut steps = Steps::<L>::new(blank);
    let played = match line {
        Line::Accept(batch) => return accept(alloc, desk, batch, out),
        Line::Claim => desk.claim(out),
        Line::Unclaim(batch) => desk.unclaim(batch, out),
        Line::Lose(batch) => desk.lose(batch, out),
        Line::Index(batch) => desk.index(batch, &mut steps, out),
        Line::Group => desk.group(out),
        Line::Seal => desk.seal(out),
        Line::Query(mode, text) => desk.query(mode, text, out),
        Line::Take(query) => desk.take(query, out),
        Line::Page(query) => desk.page(query, &mut steps, out),
        Line::Drain(query) => desk.drain(query, &mut steps, out),
        Line::Leave(query) => desk.leave(query, out),
    };
    match played {
        Ok(()) => Ok(()),
        Err(_) => Err("no memory".into()),
    }
}

fn play_one(alloc: Global, desk: &mut Desk, line: Line, out: &mut Bytes) -> Result<(), Fail> {
    play::<Brand>(alloc, desk, line, out, Blank::new(1))
}

fn replies(alloc: Global, lines: &[(Line, &str)]) -> Result<(), Fail> {
    let mut desk = Desk::new(alloc, LIMITS, 2)?;
    for (line, reply) in lines {
        let mut out = Bytes::new(alloc);
        play_one(alloc, &mut desk, *line, &mut out)?;
        if out.as_slice() != reply.as_bytes() {
            return Err("another reply".into());
        }
    }
    Ok(())
}

#[test]
fn claims_are_given_back_and_lost(rt: HostRuntime) -> Result<(), Fail> {
    replies(
        rt.alloc(),
        &[
            (Line::Accept(Batch::Three), "batch 0 first 0 rows 3\n"),
            (Line::Claim, "claim 0\n"),
            (Line::Claim, "claim none\n"),
            (Line::Unclaim(0), "unclaimed 0\n"),
            (Line::Claim, "claim 0\n"),
            (Line::Lose(0), "lost 0\n"),
            (Line::Index(0), "indexed 0\n"),
            (Line::Index(0), "already 0\n"),
            (Line::Index(5), "no batch 5\n"),
            (Line::Unclaim(0), "no claim 0\n"),
        ],
    )
}

#[test]
fn a_page_stops_at_the_batch_without_an_index(rt: HostRuntime) -> Result<(), Fail> {
    replies(
        rt.alloc(),
        &[
            (Line::Accept(Batch::Three), "batch 0 first 0 rows 3\n"),
            (Line::Query(Mode::Past, "ts < @10.5"), "query 1 from 3\n"),
            (
                Line::Drain(1),
                "page 1 past 0 live 3 found 0 checked 0 touched 0 again 0\n",
            ),
            (Line::Index(0), "indexed 0\n"),
            (
                Line::Drain(1),
                "page 1 past 3 live 3 found 1 checked 3 touched 1 again none\n0\tt\t10.400000\n",
            ),
        ],
    )
}

#[test]
fn a_held_take_is_printed_as_it_was_taken(rt: HostRuntime) -> Result<(), Fail> {
    replies(
        rt.alloc(),
        &[
            (Line::Accept(Batch::First), "batch 0 first 0 rows 1\n"),
            (Line::Query(Mode::Both, "ts < @11"), "query 1 from 1\n"),
            (Line::Page(1), "no page 1\n"),
            (Line::Take(1), "taken 1\n"),
            (Line::Take(1), "no session 1\n"),
            (Line::Index(0), "indexed 0\n"),
            (Line::Accept(Batch::Second), "batch 1 first 1 rows 1\n"),
            (
                Line::Page(1),
                "page 1 past 0 live 1 found 0 checked 0 touched 0 again 0\n",
            ),
            (
                Line::Drain(1),
                "page 1 past 1 live 2 found 2 checked 1 touched 2 again none\n0\tt\t10.400000\n1\tt\t10.500000\n",
            ),
            (Line::Leave(1), "left 1\n"),
            (Line::Drain(1), "already left 1\n"),
            (Line::Leave(7), "no query 7\n"),
        ],
    )
}

#[test]
fn groups_are_sealed_in_order(rt: HostRuntime) -> Result<(), Fail> {
    replies(
        rt.alloc(),
        &[
            (Line::Accept(Batch::First), "batch 0 first 0 rows 1\n"),
            (Line::Accept(Batch::Second), "batch 1 first 1 rows 1\n"),
            (Line::Index(0), "indexed 0\n"),
            (Line::Group, "group none\n"),
            (Line::Index(1), "indexed 1\n"),
            (Line::Group, "group 0\n"),
            (Line::Group, "group 0\n"),
            (Line::Seal, "sealed 0\n"),
            (Line::Seal, "already sealed 0\n"),
            (Line::Seal, "seal none\n"),
        ],
    )
}
