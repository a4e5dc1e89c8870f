//! Measures parts of the program, for the scripts of bench/. It is no part of the product.
#![tactic(auto)]

mod batches;
mod bitmaps;
mod indexes;
mod packets;
mod pages;
mod parts;
mod stores;
mod turns;

use bitmaps::Spent;
use bits_law::Order;
use indexes::{Plan, Work};
use pages::{Asking, Stage};
use runs_bitmap::RunsBitmap;
use std::alloc::Global;
use std::process::ExitCode;
use std::{env, io};
use vast_io::{DiskOpener, Opener};
use word_bitmap::WordBitmap;

const USAGE: &str =
    "measure turns THREADS TURNS, decode PACKETS, bitmaps BITS ONE_IN, batches ROWS ENCODES UNPACKS, indexes WORK RELATION COLUMN END ROWS PART TIMES, parts WORK GROUPS [TIMES QUERY], store BATCHES QUERIES, pages FILE STAGE CACHE TIMES QUERY";

fn main(rt: HostRuntime) -> anyhow::Result<ExitCode> {
    let mut words = env::args(&rt)?;
    let _program = words.next();
    let what = words.next();
    let what = what.as_ref().map(|word| word.as_str());
    if what == Some("turns") {
        let threads = words.next().and_then(|word| word.parse().ok());
        let turns = words.next().and_then(|word| word.parse().ok());
        if let (Some(threads), Some(turns)) = (threads, turns) {
            let spent = turns::measure(&rt, rt.alloc(), threads, turns)?;
            println!(rt; "book {}", spent.book.as_nanos())?;
            println!(rt; "mutex {}", spent.mutex.as_nanos())?;
            return Ok(ExitCode::SUCCESS);
        }
    }
    if what == Some("decode") {
        let packets = words.next().and_then(|word| word.parse().ok());
        if let Some(packets) = packets {
            let with_ports = packets::decode_all(packets);
            println!(rt; "ports {with_ports}")?;
            return Ok(ExitCode::SUCCESS);
        }
    }
    if what == Some("bitmaps") {
        let bits = words.next().and_then(|word| word.parse().ok());
        let one_in = words.next().and_then(|word| word.parse().ok());
        if let (Some(bits), Some(one_in)) = (bits, one_in) {
            let alloc = rt.alloc();
            let runs = bitmaps::measure::<RunsBitmap, HostRuntime>(&rt, alloc, bits, one_in)?;
            let words = bitmaps::measure::<WordBitmap, HostRuntime>(&rt, alloc, bits, one_in)?;
            if let (Some(runs), Some(words)) = (runs, words) {
                told(&rt, "runs", &runs)?;
                told(&rt, "words", &words)?;
                return Ok(ExitCode::SUCCESS);
            }
        }
    }
    if what == Some("batches") {
        let rows = words.next().and_then(|word| word.parse().ok());
        let encodes = words.next().and_then(|word| word.parse().ok());
        let unpacks = words.next().and_then(|word| word.parse().ok());
        if let (Some(rows), Some(encodes), Some(unpacks)) = (rows, encodes, unpacks) {
            if let Some(size) = batches::measure(rt.alloc(), rows, encodes, unpacks)? {
                println!(rt; "bytes {size}")?;
                return Ok(ExitCode::SUCCESS);
            }
        }
    }
    if what == Some("pages") && measured_pages(&rt, &mut words)? {
        return Ok(ExitCode::SUCCESS);
    }
    if what == Some("store") && measured_store(&rt, &mut words)? {
        return Ok(ExitCode::SUCCESS);
    }
    if what == Some("indexes") && measured_indexes(&rt, &mut words)? {
        return Ok(ExitCode::SUCCESS);
    }
    if what == Some("parts") && measured_parts(&rt, &mut words)? {
        return Ok(ExitCode::SUCCESS);
    }
    println!(rt; "usage: {USAGE}")?;
    Ok(ExitCode::from(1))
}

// The work on parts that the words name, done, with its number told; or false where they name none.
fn measured_parts(rt: &HostRuntime, words: &mut env::Args<Global>) -> anyhow::Result<bool> {
    let word = words.next();
    let groups = words.next().and_then(|word| word.parse().ok());
    let times = words.next().and_then(|word| word.parse().ok());
    let query = words.next();
    let (Some(word), Some(groups)) = (word, groups) else {
        return Ok(false);
    };
    let query = query.as_ref().map(|word| word.as_str());
    let Some(work) = work_on_parts(word.as_str(), times, query) else {
        return Ok(false);
    };
    let Some(rows) = parts::measure(rt.alloc(), work, groups)? else {
        return Ok(false);
    };
    println!(rt; "rows {rows}")?;
    Ok(true)
}

// The work on parts that a word names; one that asks wants a query, and how often it is asked.
fn work_on_parts<'a>(
    word: &str,
    times: Option<u64>,
    query: Option<&'a str>,
) -> Option<parts::Work<'a>> {
    match word {
        "make" => Some(parts::Work::Make),
        "build" => Some(parts::Work::Build),
        "merge" => Some(parts::Work::Merge),
        "ask" => Some(parts::Work::Ask {
            query: query?,
            times: times?,
        }),
        _ => None,
    }
}

// The work on indexes that the words name, done, with a line for each column; or false where they name none.
fn measured_indexes(rt: &HostRuntime, words: &mut env::Args<Global>) -> anyhow::Result<bool> {
    let work = words.next().and_then(|word| work(word.as_str()));
    let rel = words.next().and_then(|word| relation(word.as_str()));
    let first = words.next().and_then(|word| word.parse().ok());
    let end = words.next().and_then(|word| word.parse().ok());
    let rows = words.next().and_then(|word| word.parse().ok());
    let part = words.next().and_then(|word| word.parse().ok());
    let times = words.next().and_then(|word| word.parse().ok());
    let (Some(work), Some(rel), Some(first), Some(end)) = (work, rel, first, end) else {
        return Ok(false);
    };
    let (Some(rows), Some(part), Some(times)) = (rows, part, times) else {
        return Ok(false);
    };
    let plan = Plan {
        rows,
        part,
        work,
        times,
        rel,
    };
    for column in first..end {
        if let Ok(told) = indexes::measure::<WordBitmap>(rt.alloc(), column, &plan) {
            println!(rt; "column {column} {told}")?;
        }
    }
    Ok(true)
}

// A log imported as far as the words say, with a line for the last page of the query; or false where the words name none.
fn measured_pages(rt: &HostRuntime, words: &mut env::Args<Global>) -> anyhow::Result<bool> {
    let Some(name) = words.next() else {
        return Ok(false);
    };
    let stage = words.next().and_then(|word| stage(word.as_str()));
    let cache = words.next().and_then(|word| word.parse().ok());
    let times = words.next().and_then(|word| word.parse().ok());
    let query = words.next();
    let (Some(stage), Some(cache), Some(times), Some(query)) = (stage, cache, times, query) else {
        return Ok(false);
    };
    let alloc = rt.alloc();
    let mut opener = DiskOpener::new(rt);
    let Ok(source) = opener.open_one(alloc, name.as_str()) else {
        return Ok(false);
    };
    let asking = Asking {
        text: query.as_str(),
        times,
        cache,
    };
    let Some((rows, page)) = pages::measure(alloc, source, stage, asking)? else {
        return Ok(false);
    };
    println!(rt; "rows {rows}")?;
    if let Some(page) = page {
        println!(rt;
            "found {} checked {} touched {} loads {}",
            page.found, page.checked, page.touched, page.loads
        )?;
    }
    Ok(true)
}

// The stage that a word names.
fn stage(word: &str) -> Option<Stage> {
    match word {
        "read" => Some(Stage::Read),
        "accept" => Some(Stage::Accept),
        "index" => Some(Stage::Index),
        "seal" => Some(Stage::Seal),
        _ => None,
    }
}

// The nanoseconds that the calls on a store took for the first tenth of so many batches and for the last, a line each; or
// false where the words name none.
fn measured_store(rt: &HostRuntime, words: &mut env::Args<Global>) -> anyhow::Result<bool> {
    let batches = words.next().and_then(|word| word.parse().ok());
    let queries = words.next().and_then(|word| word.parse().ok());
    let (Some(batches), Some(queries)) = (batches, queries) else {
        return Ok(false);
    };
    let Some((first, last)) = stores::measure(rt, rt.alloc(), batches, queries)? else {
        return Ok(false);
    };
    for (part, spent) in [("first", first), ("last", last)] {
        println!(rt; "{part}-accept {}", spent.accept)?;
        println!(rt; "{part}-claim {}", spent.claim)?;
        println!(rt; "{part}-publish {}", spent.publish)?;
        println!(rt; "{part}-take {}", spent.take)?;
    }
    Ok(true)
}

// The work that a word names.
fn work(word: &str) -> Option<Work> {
    match word {
        "make" => Some(Work::Make),
        "put" => Some(Work::Put),
        "append" => Some(Work::Append),
        "ask" => Some(Work::AskWhole),
        "ask-parts" => Some(Work::AskParts),
        _ => None,
    }
}

// The relation that a word names.
fn relation(word: &str) -> Option<Order> {
    match word {
        "eq" => Some(Order::Eq),
        "ge" => Some(Order::Ge),
        _ => None,
    }
}

// The lines of one form.
fn told<R: Print>(rt: &R, form: &str, spent: &Spent) -> io::Result<()> {
    println!(rt; "{form}-append {}", spent.append.as_nanos())?;
    println!(rt; "{form}-and {}", spent.and.as_nanos())?;
    println!(rt; "{form}-or {}", spent.or.as_nanos())?;
    println!(rt; "{form}-not {}", spent.not.as_nanos())?;
    println!(rt; "{form}-count {}", spent.count.as_nanos())?;
    println!(rt; "{form}-walk {}", spent.walk.as_nanos())?;
    println!(rt; "{form}-ones {}", spent.ones)
}
