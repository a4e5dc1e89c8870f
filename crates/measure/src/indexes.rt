//! Made rows of connections, put into an index of each column, and asked.
ghost use Rattle.std.specs.Prelude.{◌≡◌, ◌≤◌, ◌∷◌, [], length};
ghost use Rattle.digit_index.specs.declared.coding.Coding.TheVariants.{Equality, Range};

use address_index::AddrIndex;
use bits_law::{Bits, BitsEnd, Order};
use digit_index::{Bases, Coding, DigitIndex};
use set_index::SetIndex;
use slice_index::SliceIndex;
use std::alloc::{AllocError, Global};
use string_index::StringIndex;

/// How many columns a row has.
pub const COLUMNS: usize = 21;

/// What is done with the keys of a column.
#[derive(Clone, Copy, Debug, PartialEq, Eq)]
pub enum Work {
    /// They are made.
    Make,
    /// They are put into indexes of a part each.
    Put,
    /// These are joined.
    Append,
    /// The joined index is asked.
    AskWhole,
    /// Each part is asked.
    AskParts,
}

/// How many rows are made, how many of them a part has, what is done, and how many times it is asked by what relation.
#[derive(Clone, Copy)]
pub struct Plan {
    pub rows: u64,
    pub part: u64,
    pub work: Work,
    pub times: u64,
    pub rel: Order,
}

/// A text of at most 18 bytes.
#[derive(Clone, Copy)]
pub struct Text {
    bytes: [u8; 18],
    length: usize,
}

impl Text {
    /// The bytes.
    pub fn as_slice(&self) -> &[u8]
        ensures { length result.now ≤ 18 }
    {
        &self.bytes[..self.length.min(18)]
    }
}

/// What a row has in a column.
#[derive(Clone, Copy)]
pub enum Key {
    Unset,
    Number(u64),
    Text(Text),
    Address(u128),
    Port(u16),
    Truth(bool),
    Buckets(u64),
}

/// Numbers of 64 bits.
#[derive(Drop)]
struct Numbers<B: Bits> {
    index: SliceIndex<B>,
    ghost wide: { index.width ≡ 64 },
}

/// Ports, in two digits.
#[derive(Drop)]
struct Ports<B: Bits> {
    index: DigitIndex<B>,
    ghost coding: { index.coding ≡ Range },
    ghost bases: { index.bases ≡ 256 ∷ 256 ∷ [] },
}

/// Truth values, in one digit.
#[derive(Drop)]
struct Truths<B: Bits> {
    index: DigitIndex<B>,
    ghost coding: { index.coding ≡ Equality },
    ghost bases: { index.bases ≡ 2 ∷ [] },
}

/// The index of a column.
#[derive(Drop)]
enum Index<B: Bits> {
    Numbers(Numbers<B>),
    Texts(StringIndex<B>),
    Addresses(AddrIndex<B>),
    Ports(Ports<B>),
    Truths(Truths<B>),
    Sets(SetIndex<B>),
}

/// A number that looks random, of a row in a column.
fn mixed(column: usize, row: u64) -> u64 {
    let seed = row
        .wrapping_mul(0x9e37_79b9_7f4a_7c15)
        .wrapping_add((column as u64).wrapping_mul(0xbf58_476d_1ce4_e5b9));
    let turned = (seed ^ (seed >> 31)).wrapping_mul(0x94d0_49bb_1331_11eb);
    turned ^ (turned >> 29)
}

/// An identity: a letter and 17 that look random.
fn identity(mixed: u64) -> Text {
    let mut bytes = *b"CHhAvVGS1DHFjwGM9a";
    let mut rest = mixed;
    for at in 1..18 {
        bytes[at] = b'A' + (rest % 26) as u8;
        rest = rest / 26 + mixed % 1000;
    }
    Text { bytes, length: 18 }
}

/// One of a few short texts.
fn word_of(column: usize, kind: u64) -> Text {
    let states = *b"SF S0 REJRSTOTHaaa";
    let mut bytes = *b"ShADadFf__________";
    let first = 3 * (kind % 5) as usize;
    for at in 0..3 {
        bytes[at] = states[first + at];
    }
    Text {
        bytes,
        length: 2 + column % 7,
    }
}

/// The key of a row. The columns are those of a connection log: a time, an identity, two ends of an address and a port
/// each, and so on.
pub fn cell(column: usize, row: u64) -> Key {
    let value = mixed(column, row);
    let kind = mixed(99, row) % 5;
    match column {
        0 => Key::Number((1 << 63) + 1_300_475_167 + row / 64),
        1 => Key::Text(identity(value)),
        2 => Key::Address(0xffff_0a00_0000 + (value % 262_144) as u128),
        3 => Key::Port((1024 + value % 64_512) as u16),
        4 => Key::Address(0xffff_c0a8_0000 + (value % 4096) as u128),
        5 => Key::Port([53, 80, 443, 22, 5353][kind as usize]),
        6 | 7 | 11 | 15 => Key::Text(word_of(column, kind)),
        8..=10 if kind > 0 => Key::Unset,
        8 => Key::Number((1 << 63) + value % 90_000_000_000),
        9 | 16 | 18 => Key::Number(value % 5000),
        10 | 17 | 19 => Key::Number(value % 90_000),
        12 | 13 => Key::Truth(kind % 2 == 0),
        14 => Key::Number(0),
        _ => Key::Buckets(0),
    }
}

impl<B: Bits> Numbers<B> {
    fn new(alloc: Global) -> Result<Self, AllocError> {
        Ok(Numbers {
            index: SliceIndex::new(alloc, 64)?,
        })
    }

    fn put(&mut self, row: u64, key: u64) -> Result<(), BitsEnd> {
        if row < self.index.rows() {
            return Ok(());
        }
        self.index.put(row, key)
    }

    fn append(self, other: &Self) -> Result<Self, BitsEnd> {
        Ok(Numbers {
            index: self.index.append(&other.index)?,
        })
    }
}

impl<B: Bits> Ports<B> {
    fn new(alloc: Global) -> Result<Self, AllocError> {
        let mut bases = Bases::new(alloc);
        bases.push(256)?;
        bases.push(256)?;
        Ok(Ports {
            index: DigitIndex::new(alloc, bases, Coding::Range)?,
        })
    }

    fn put(&mut self, row: u64, key: u16) -> Result<(), BitsEnd> {
        if row < self.index.rows() {
            return Ok(());
        }
        self.index.put(row, key as u64)
    }

    fn append(self, other: &Self) -> Result<Self, BitsEnd> {
        Ok(Ports {
            index: self.index.append(&other.index)?,
        })
    }

    fn ask(&self, rel: Order, key: u16) -> Result<B, AllocError> {
        self.index.ask(rel, key as u64)
    }
}

impl<B: Bits> Truths<B> {
    fn new(alloc: Global) -> Result<Self, AllocError> {
        let mut bases = Bases::new(alloc);
        bases.push(2)?;
        Ok(Truths {
            index: DigitIndex::new(alloc, bases, Coding::Equality)?,
        })
    }

    fn put(&mut self, row: u64, key: bool) -> Result<(), BitsEnd> {
        if row < self.index.rows() {
            return Ok(());
        }
        self.index.put(row, key as u64)
    }

    fn append(self, other: &Self) -> Result<Self, BitsEnd> {
        Ok(Truths {
            index: self.index.append(&other.index)?,
        })
    }

    fn ask(&self, key: bool) -> Result<B, AllocError> {
        self.index.ask(Order::Eq, key as u64)
    }
}

impl<B: Bits> Index<B> {
    fn new(alloc: Global, column: usize) -> Result<Self, AllocError> {
        match cell(column, 0) {
            Key::Text(_) => Ok(Index::Texts(StringIndex::new(alloc)?)),
            Key::Address(_) => Ok(Index::Addresses(AddrIndex::new(alloc)?)),
            Key::Port(_) => Ok(Index::Ports(Ports::new(alloc)?)),
            Key::Truth(_) => Ok(Index::Truths(Truths::new(alloc)?)),
            Key::Buckets(_) => Ok(Index::Sets(SetIndex::new(alloc)?)),
            _ => Ok(Index::Numbers(Numbers::new(alloc)?)),
        }
    }

    fn put(&mut self, row: u64, key: &Key) -> Result<(), BitsEnd> {
        match (self, key) {
            (Index::Numbers(it), Key::Number(number)) => it.put(row, *number),
            (Index::Texts(it), Key::Text(text)) if it.rows() <= row => it.put(row, text.as_slice()),
            (Index::Addresses(it), Key::Address(addr)) if it.rows() <= row => it.put(row, *addr),
            (Index::Ports(it), Key::Port(port)) => it.put(row, *port),
            (Index::Truths(it), Key::Truth(truth)) => it.put(row, *truth),
            (Index::Sets(it), Key::Buckets(buckets)) if it.rows() <= row => it.put(row, *buckets),
            _ => Ok(()),
        }
    }

    fn append(self, other: &Self) -> Result<Self, BitsEnd> {
        match (self, other) {
            (Index::Numbers(it), Index::Numbers(other)) => Ok(Index::Numbers(it.append(other)?)),
            (Index::Texts(it), Index::Texts(other)) => Ok(Index::Texts(it.append(other)?)),
            (Index::Addresses(it), Index::Addresses(other)) => Ok(Index::Addresses(it.append(
                other,
            )?)),
            (Index::Ports(it), Index::Ports(other)) => Ok(Index::Ports(it.append(other)?)),
            (Index::Truths(it), Index::Truths(other)) => Ok(Index::Truths(it.append(other)?)),
            (Index::Sets(it), Index::Sets(other)) => Ok(Index::Sets(it.append(other)?)),
            (it, _) => Ok(it),
        }
    }

    /// Rows without a key up to `rows`.
    fn pad(self, rows: u64) -> Result<Self, BitsEnd> {
        match self {
            Index::Numbers(it) if it.index.rows() <= rows => Ok(Index::Numbers(Numbers {
                index: it.index.pad(rows)?,
            })),
            Index::Texts(it) if it.rows() <= rows => Ok(Index::Texts(it.pad(rows)?)),
            Index::Addresses(it) if it.rows() <= rows => Ok(Index::Addresses(it.pad(rows)?)),
            Index::Ports(it) if it.index.rows() <= rows => Ok(Index::Ports(Ports {
                index: it.index.pad(rows)?,
            })),
            Index::Truths(it) if it.index.rows() <= rows => Ok(Index::Truths(Truths {
                index: it.index.pad(rows)?,
            })),
            Index::Sets(it) if it.rows() <= rows => Ok(Index::Sets(it.pad(rows)?)),
            it => Ok(it),
        }
    }

    /// The rows that stand in a relation to a key, or where there is only one question of a column, those of the key.
    fn ask(&self, rel: Order, key: &Key) -> Result<Option<B>, AllocError> {
        Ok(Some(match (self, key) {
            (Index::Numbers(it), Key::Number(number)) => it.index.ask(rel, *number)?,
            (Index::Texts(it), Key::Text(text)) => it.equal(text.as_slice())?.1,
            (Index::Addresses(it), Key::Address(addr)) if rel == Order::Eq => it.equal(*addr)?,
            (Index::Addresses(it), Key::Address(addr)) => it.within(*addr >> 19 << 19, 109)?,
            (Index::Ports(it), Key::Port(port)) => it.ask(rel, *port)?,
            (Index::Truths(it), Key::Truth(truth)) => it.ask(*truth)?,
            (Index::Sets(it), Key::Buckets(_)) => it.taken(7)?,
            _ => return Ok(None),
        }))
    }
}

/// Puts the keys of the rows from `first` on to `end` into an index of their own. Where `full`, it has all rows before,
/// so that the keys are only made.
fn part<B: Bits>(
    alloc: Global,
    column: usize,
    first: u64,
    end: u64,
    full: bool,
) -> Result<Index<B>, BitsEnd> {
    let mut index = Index::new(alloc, column)?;
    if full {
        index = index.pad(end.wrapping_sub(first))?;
    }
    for row in first..end {
        index.put(row - first, &cell(column, row))?;
    }
    index.pad(end.wrapping_sub(first))
}

/// How many ones the answers have to a question asked so many times.
fn asked<B: Bits>(index: &Index<B>, plan: &Plan, key: &Key) -> Result<u64, BitsEnd> {
    let mut ones = 0u64;
    for _ in 0..plan.times {
        if let Some(answer) = index.ask(plan.rel, key)? {
            ones = answer.count();
        }
    }
    Ok(ones)
}

/// Does the work of a plan with a column. It gives how many ones the answers have, and 0 where nothing is asked.
pub fn measure<B: Bits>(alloc: Global, column: usize, plan: &Plan) -> Result<u64, BitsEnd> {
    let mut told = 0u64;
    let mut parts = Vec::new(alloc);
    let size = plan.part.clamp(1, plan.rows.max(1));
    for at in 0..plan.rows / size {
        let full = plan.work == Work::Make;
        parts.push(part::<B>(alloc, column, at * size, (at + 1) * size, full)?)?;
    }
    let asks = cell(column, 0);
    if plan.work == Work::AskParts {
        for index in &parts {
            told = told.wrapping_add(asked(index, plan, &asks)?);
        }
        return Ok(told);
    }
    if plan.work == Work::Make || plan.work == Work::Put {
        return Ok(0);
    }
    let mut whole = Index::<B>::new(alloc, column)?;
    for index in &parts {
        whole = whole.append(index)?;
    }
    drop(parts);
    if plan.work == Work::AskWhole {
        told = asked(&whole, plan, &asks)?;
    }
    Ok(told)
}
