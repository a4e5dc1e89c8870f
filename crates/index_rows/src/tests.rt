ghost use Rattle.std.specs.Prelude.{◌≡◌, ◌%◌, ◌-◌, ◌^◌, ◌<◌, ◌≤◌, ◌∷◌, [], length, IfOk, replicate};
ghost use Rattle.digit_index.specs.Digits.{product};

use address_index::{AddrIndex, NetIndex};
use bits_law::{Bits, BitsEnd, Order};
use digit_index::{Bases, Coding, DigitIndex};
use runs_bitmap::RunsBitmap;
use set_index::SetIndex;
use slice_index::SliceIndex;
use std::alloc::{AllocError, Global};
use std::process::Abort;
use std::test::Fail;
use string_index::StringIndex;
use word_bitmap::WordBitmap;

/// The text of a bitmap's bits.
fn shown<B: Bits>(alloc: Global, bits: &B) -> Result<String, AllocError> {
    let mut text = String::new(alloc);
    for at in 0..bits.len() {
        text.push(if bits.get(at) { '1' } else { '0' })?;
    }
    Ok(text)
}

/// The answer's bits are those of the text.
fn check<B: Bits, R: Abort + AllocGlobal>(
    rt: &R,
    answer: Result<B, AllocError>,
    text: &str,
) -> Result<(), AllocError> {
    let bits = answer?;
    assert_eq!(rt; shown(rt.alloc(), &bits)?.as_str(), text);
    Ok(())
}

const RELATIONS: [Order; 6] = [
    Order::Eq,
    Order::Ne,
    Order::Lt,
    Order::Le,
    Order::Gt,
    Order::Ge,
];

/// Small keys that a generator gave, with the least and the largest, and rows that have none.
const KEYS: [Option<u64>; 11] = [
    Some(3),
    Some(14),
    None,
    Some(7),
    Some(7),
    Some(0),
    Some(15),
    Some(9),
    Some(12),
    Some(4),
    None,
];

/// Whether a number stands in a relation to a key.
fn related(n: u64, rel: Order, key: u64) -> bool {
    match rel {
        Order::Eq => n == key,
        Order::Ne => n != key,
        Order::Lt => n < key,
        Order::Le => n <= key,
        Order::Gt => n > key,
        Order::Ge => n >= key,
    }
}

/// The answer of a relation, row by row.
fn plain(alloc: Global, keys: &[Option<u64>], rel: Order, key: u64) -> Result<String, AllocError> {
    let mut text = String::new(alloc);
    for n in keys {
        let bit = match n {
            Some(n) if related(*n, rel, key) => '1',
            _ => '0',
        };
        text.push(bit)?;
    }
    Ok(text)
}

/// A slice index of `width` slices. No key is above `largest`.
fn in_slices<B: Bits>(
    alloc: Global,
    width: u8,
    largest: u64,
    keys: &[Option<u64>],
) -> Result<SliceIndex<B>, BitsEnd>
    requires some { 1 ≤ width }
    requires narrow { width ≤ 64 }
    requires small { largest < 2 ^ width }
    ensures { IfOk result (λ i. i.width ≡ width) }
{
    let mut index = SliceIndex::new(alloc, width)?;
    for (at, key) in keys.iter().enumerate() {
        if let Some(key) = key {
            let row = index.rows().max(at as u64);
            index = index.add(row, (*key).min(largest))?;
        }
    }
    let rows = index.rows().max(keys.len() as u64);
    index.pad(rows)
}

/// The index has these present rows, and answers each question by the text.
fn slices_say<B: Bits, R: Abort + AllocGlobal>(
    rt: &R,
    index: &SliceIndex<B>,
    present: &str,
    asks: &[(Order, u64, &str)],
) -> Result<(), AllocError> {
    check(rt, index.present(), present)?;
    for (rel, key, text) in asks {
        check(rt, index.ask(*rel, *key), text)?;
    }
    Ok(())
}

/// A row without a key is in no answer, and a relation with `e` takes the equal.
fn numbers_are_compared_row_by_row<B: Bits, R: Abort + AllocGlobal>(rt: &R) -> Result<(), BitsEnd> {
    let index = in_slices::<B>(rt.alloc(), 4, 15, &[Some(5), None, Some(9)])?;
    let asks = [
        (Order::Eq, 5, "100"),
        (Order::Ne, 5, "001"),
        (Order::Lt, 5, "000"),
        (Order::Le, 5, "100"),
        (Order::Gt, 5, "001"),
        (Order::Ge, 5, "101"),
    ];
    slices_say(rt, &index, "101", &asks)?;
    let joined = in_slices::<B>(rt.alloc(), 4, 15, &[None])?.append(&index)?;
    slices_say(rt, &joined, "0101", &[(Order::Eq, 5, "0100")])?;
    Ok(())
}

fn slices_answer_as_the_plain_relation<B: Bits, R: Abort + AllocGlobal>(
    rt: &R,
) -> Result<(), BitsEnd> {
    let index = in_slices::<B>(rt.alloc(), 4, 15, &KEYS)?;
    for rel in RELATIONS {
        for key in 0..16 {
            let text = plain(rt.alloc(), &KEYS, rel, key)?;
            check(rt, index.ask(rel, key), text.as_str())?;
        }
    }
    Ok(())
}

fn numbers_of_one_bit_and_of_64_are_compared<B: Bits, R: Abort + AllocGlobal>(
    rt: &R,
) -> Result<(), BitsEnd> {
    let index = in_slices::<B>(rt.alloc(), 1, 1, &[Some(1), Some(0)])?;
    let asks = [(Order::Ge, 1, "10"), (Order::Lt, 2, "11")];
    slices_say(rt, &index, "11", &asks)?;
    let index = in_slices::<B>(rt.alloc(), 64, u64::MAX, &[Some(0), Some(u64::MAX)])?;
    let asks = [(Order::Gt, 0, "01"), (Order::Lt, u64::MAX, "10")];
    slices_say(rt, &index, "11", &asks)?;
    Ok(())
}

/// `count` bases, all `base`.
fn bases(alloc: Global, count: usize, base: u16) -> Result<Bases, AllocError>
    requires few { count ≤ 16 }
    requires least { 2 ≤ base }
    requires most { base ≤ 256 }
    ensures { IfOk result (λ b. b ≡ replicate count base) }
{
    let mut bases = Bases::new(alloc);
    for _ in 0..count {
        bases.push(base)?;
    }
    Ok(bases)
}

/// A digit index. No key is above `largest`.
fn in_digits<B: Bits>(
    alloc: Global,
    bases: Bases,
    coding: Coding,
    largest: u64,
    keys: &[Option<u64>],
) -> Result<DigitIndex<B>, BitsEnd>
    requires some { 1 ≤ length bases }
    requires small { largest < product bases }
    ensures bases { IfOk result (λ i. i.bases ≡ bases) }
    ensures coding { IfOk result (λ i. i.coding ≡ coding) }
{
    let mut index = DigitIndex::new(alloc, bases, coding)?;
    for (at, key) in keys.iter().enumerate() {
        if let Some(key) = key {
            let row = index.rows().max(at as u64);
            index = index.add(row, (*key).min(largest))?;
        }
    }
    let rows = index.rows().max(keys.len() as u64);
    index.pad(rows)
}

/// The index has these present rows, and answers each question by the text. No key is above `largest`.
fn digits_say<B: Bits, R: Abort + AllocGlobal>(
    rt: &R,
    index: &DigitIndex<B>,
    largest: u64,
    present: &str,
    asks: &[(Order, u64, &str)],
) -> Result<(), AllocError>
    requires { largest < product index.now.bases }
{
    check(rt, index.present(), present)?;
    for (rel, key, text) in asks {
        check(rt, index.ask(*rel, (*key).min(largest)), text)?;
    }
    Ok(())
}

fn digits_are_compared_row_by_row<B: Bits, R: Abort + AllocGlobal>(rt: &R) -> Result<(), BitsEnd> {
    let ports = [Some(53), Some(443), None, Some(53)];
    let two = bases(rt.alloc(), 2, 256)?;
    let index = in_digits::<B>(rt.alloc(), two, Coding::Range, 65_535, &ports)?;
    let asks = [(Order::Eq, 53, "1001"), (Order::Gt, 53, "0100")];
    digits_say(rt, &index, 65_535, "1101", &asks)?;
    Ok(())
}

fn digits_join_behind_a_gap<B: Bits, R: Abort + AllocGlobal>(rt: &R) -> Result<(), BitsEnd> {
    let two = bases(rt.alloc(), 2, 2)?;
    let gap = in_digits::<B>(rt.alloc(), two, Coding::Equality, 3, &[None])?;
    let two = bases(rt.alloc(), 2, 2)?;
    let index = in_digits::<B>(rt.alloc(), two, Coding::Equality, 3, &[Some(3), Some(0)])?;
    let asks = [(Order::Ne, 3, "001"), (Order::Le, 2, "001")];
    digits_say(rt, &gap.append(&index)?, 3, "011", &asks)?;
    Ok(())
}

fn digits_answer_as_the_plain_relation<B: Bits, R: Abort + AllocGlobal>(
    rt: &R,
) -> Result<(), BitsEnd> {
    for coding in [Coding::Equality, Coding::Range] {
        let index = in_digits::<B>(rt.alloc(), bases(rt.alloc(), 2, 4)?, coding, 15, &KEYS)?;
        for rel in RELATIONS {
            for key in 0..16 {
                let text = plain(rt.alloc(), &KEYS, rel, key)?;
                check(rt, index.ask(rel, key), text.as_str())?;
            }
        }
    }
    Ok(())
}

fn sixteen_digits_reach_the_largest_key<B: Bits, R: Abort + AllocGlobal>(
    rt: &R,
) -> Result<(), BitsEnd> {
    let keys = [Some(0), Some(u64::MAX)];
    let sixteen = bases(rt.alloc(), 16, 16)?;
    let index = in_digits::<B>(rt.alloc(), sixteen, Coding::Range, u64::MAX, &keys)?;
    let asks = [(Order::Gt, 0, "01"), (Order::Lt, u64::MAX, "10")];
    digits_say(rt, &index, u64::MAX, "11", &asks)?;
    Ok(())
}

fn in_texts<B: Bits>(alloc: Global, keys: &[Option<&[u8]>]) -> Result<StringIndex<B>, BitsEnd> {
    let mut index = StringIndex::new(alloc)?;
    for (at, key) in keys.iter().enumerate() {
        if let Some(key) = key {
            let row = index.rows().max(at as u64);
            index = index.add(row, key)?;
        }
    }
    let rows = index.rows().max(keys.len() as u64);
    index.pad(rows)
}

/// The rows where each text is sure, and where it may be.
fn texts_say<B: Bits, R: Abort + AllocGlobal>(
    rt: &R,
    index: &StringIndex<B>,
    asks: &[(&[u8], &str, &str)],
) -> Result<(), AllocError> {
    for (text, sure, maybe) in asks {
        let (surely, may_be) = index.equal(text)?;
        check(rt, Ok(surely), sure)?;
        check(rt, Ok(may_be), maybe)?;
    }
    Ok(())
}

fn a_short_text_is_sure<B: Bits, R: Abort + AllocGlobal>(rt: &R) -> Result<(), BitsEnd> {
    let gap = in_texts::<B>(rt.alloc(), &[None])?;
    let index = gap.append(&in_texts::<B>(rt.alloc(), &[Some(b"ab"), Some(b"")])?)?;
    check(rt, index.present(), "011")?;
    check(rt, index.as_long(1), "010")?;
    texts_say(rt, &index, &[(b"ab", "010", "010")])?;
    Ok(())
}

/// Texts of 8, 9, 255 and 256 bytes, all of the letter a.
fn texts_of_eight_bytes_are_sure_and_longer_ones_maybe<B: Bits, R: Abort + AllocGlobal>(
    rt: &R,
) -> Result<(), BitsEnd> {
    let text = [b'a'; 256];
    let (a, b, c, d) = (&text[..8], &text[..9], &text[..255], &text[..]);
    let index = in_texts::<B>(rt.alloc(), &[Some(a), Some(b), Some(c), Some(d)])?;
    let asks = [
        (a, "1000", "1000"),
        (b, "0000", "0100"),
        (c, "0000", "0011"),
        (d, "0000", "0011"),
    ];
    texts_say(rt, &index, &asks)?;
    check(rt, index.as_long(256), "0011")?;
    Ok(())
}

fn in_buckets<B: Bits>(alloc: Global, keys: &[Option<u64>]) -> Result<SetIndex<B>, BitsEnd> {
    let mut index = SetIndex::new(alloc)?;
    for (at, key) in keys.iter().enumerate() {
        if let Some(key) = key {
            let row = index.rows().max(at as u64);
            index = index.add(row, *key)?;
        }
    }
    let rows = index.rows().max(keys.len() as u64);
    index.pad(rows)
}

fn a_bucket_is_taken_by_its_rows<B: Bits, R: Abort + AllocGlobal>(rt: &R) -> Result<(), BitsEnd> {
    let gap = in_buckets::<B>(rt.alloc(), &[None])?;
    let index = gap.append(&in_buckets::<B>(rt.alloc(), &[Some(1 << 3), None, Some(0)])?)?;
    check(rt, index.present(), "0101")?;
    check(rt, index.taken(3), "0100")?;
    Ok(())
}

fn in_addresses<B: Bits>(alloc: Global, keys: &[Option<u128>]) -> Result<AddrIndex<B>, BitsEnd> {
    let mut index = AddrIndex::new(alloc)?;
    for (at, key) in keys.iter().enumerate() {
        if let Some(key) = key {
            let row = index.rows().max(at as u64);
            index = index.add(row, *key)?;
        }
    }
    let rows = index.rows().max(keys.len() as u64);
    index.pad(rows)
}

fn an_address_is_found_behind_a_gap<B: Bits, R: Abort + AllocGlobal>(
    rt: &R,
) -> Result<(), BitsEnd> {
    let gap = in_addresses::<B>(rt.alloc(), &[None])?;
    let index = gap.append(&in_addresses::<B>(rt.alloc(), &[Some(7), Some(8)])?)?;
    check(rt, index.present(), "011")?;
    check(rt, index.equal(7), "010")?;
    Ok(())
}

fn an_address_lies_within_a_prefix<B: Bits, R: Abort + AllocGlobal>(rt: &R) -> Result<(), BitsEnd> {
    let index = in_addresses::<B>(rt.alloc(), &[Some(0x0a00_0001), None, Some(0x0a01_0001)])?;
    check(rt, index.within(0x0a00_0000, 104), "101")?;
    check(rt, index.within(0x0a01_0000, 112), "001")?;
    check(rt, index.within(0, 0), "101")?;
    Ok(())
}

/// The index with one more subnet.
fn with_net<B: Bits>(index: NetIndex<B>, base: u128, bits: u8) -> Result<NetIndex<B>, BitsEnd>
    requires narrow { bits ≤ 128 }
    requires masked { base % 2 ^ (128 - bits) ≡ 0 }
{
    let row = index.rows();
    index.add(row, base, bits)
}

fn subnets_lie_within_and_hold_each_other<B: Bits, R: Abort + AllocGlobal>(
    rt: &R,
) -> Result<(), BitsEnd> {
    let index = with_net::<B>(NetIndex::new(rt.alloc())?, 0x0a00_0000, 104)?;
    let index = with_net::<B>(index, 0x0a01_0000, 112)?;
    check(rt, index.within(0x0a00_0000, 104), "11")?;
    check(rt, index.covers(0x0a02_0000, 112), "10")?;
    check(rt, index.equal(0x0a01_0000, 112), "01")?;
    Ok(())
}

/// All addresses, and one alone.
fn all_and_one<B: Bits>(alloc: Global) -> Result<NetIndex<B>, BitsEnd> {
    let gap: NetIndex<B> = NetIndex::new(alloc)?;
    let rows = gap.rows().max(1);
    let index = with_net::<B>(with_net::<B>(NetIndex::new(alloc)?, 0, 0)?, 5, 128)?;
    gap.pad(rows)?.append(&index)
}

fn the_whole_and_one_address_are_subnets<B: Bits, R: Abort + AllocGlobal>(
    rt: &R,
) -> Result<(), BitsEnd> {
    let index = all_and_one::<B>(rt.alloc())?;
    check(rt, index.present(), "011")?;
    check(rt, index.within(0, 0), "011")?;
    check(rt, index.covers(5, 128), "011")?;
    check(rt, index.equal(5, 128), "001")?;
    Ok(())
}

fn each_of_numbers_by_slices<B: Bits, R: Abort + AllocGlobal>(rt: &R) -> Result<(), BitsEnd> {
    numbers_are_compared_row_by_row::<B, R>(rt)?;
    slices_answer_as_the_plain_relation::<B, R>(rt)?;
    numbers_of_one_bit_and_of_64_are_compared::<B, R>(rt)
}

#[test]
fn numbers_by_slices(rt: HostRuntime) -> Result<(), Fail> {
    each_of_numbers_by_slices::<RunsBitmap, HostRuntime>(&rt)?;
    each_of_numbers_by_slices::<WordBitmap, HostRuntime>(&rt)?;
    Ok(())
}

fn each_of_numbers_by_digits<B: Bits, R: Abort + AllocGlobal>(rt: &R) -> Result<(), BitsEnd> {
    digits_are_compared_row_by_row::<B, R>(rt)?;
    digits_join_behind_a_gap::<B, R>(rt)?;
    digits_answer_as_the_plain_relation::<B, R>(rt)?;
    sixteen_digits_reach_the_largest_key::<B, R>(rt)
}

#[test]
fn numbers_by_digits(rt: HostRuntime) -> Result<(), Fail> {
    each_of_numbers_by_digits::<RunsBitmap, HostRuntime>(&rt)?;
    each_of_numbers_by_digits::<WordBitmap, HostRuntime>(&rt)?;
    Ok(())
}

fn each_of_texts<B: Bits, R: Abort + AllocGlobal>(rt: &R) -> Result<(), BitsEnd> {
    a_short_text_is_sure::<B, R>(rt)?;
    texts_of_eight_bytes_are_sure_and_longer_ones_maybe::<B, R>(rt)
}

#[test]
fn texts(rt: HostRuntime) -> Result<(), Fail> {
    each_of_texts::<RunsBitmap, HostRuntime>(&rt)?;
    each_of_texts::<WordBitmap, HostRuntime>(&rt)?;
    Ok(())
}

fn each_of_containers_and_addresses<B: Bits, R: Abort + AllocGlobal>(
    rt: &R,
) -> Result<(), BitsEnd> {
    a_bucket_is_taken_by_its_rows::<B, R>(rt)?;
    an_address_is_found_behind_a_gap::<B, R>(rt)?;
    an_address_lies_within_a_prefix::<B, R>(rt)
}

#[test]
fn containers_and_addresses(rt: HostRuntime) -> Result<(), Fail> {
    each_of_containers_and_addresses::<RunsBitmap, HostRuntime>(&rt)?;
    each_of_containers_and_addresses::<WordBitmap, HostRuntime>(&rt)?;
    Ok(())
}

fn each_of_subnets<B: Bits, R: Abort + AllocGlobal>(rt: &R) -> Result<(), BitsEnd> {
    subnets_lie_within_and_hold_each_other::<B, R>(rt)?;
    the_whole_and_one_address_are_subnets::<B, R>(rt)
}

#[test]
fn subnets(rt: HostRuntime) -> Result<(), Fail> {
    each_of_subnets::<RunsBitmap, HostRuntime>(&rt)?;
    each_of_subnets::<WordBitmap, HostRuntime>(&rt)?;
    Ok(())
}

/// The key of a row: none at the first row of every second block, at the last row of each, and at every seventh.
fn key_at(row: u64) -> Option<u64> {
    if row % 128 == 0 || row % 64 == 63 || row % 7 == 3 {
        None
    } else {
        Some(row % 1_000 * 37 % 16)
    }
}

/// A slice index of `rows` rows, whose keys are those from row `from` on.
fn tabled<B: Bits>(alloc: Global, from: u64, rows: u64) -> Result<SliceIndex<B>, BitsEnd>
    requires start { from ≤ 2 ^ 20 }
    requires few { rows ≤ 2 ^ 20 }
    ensures { IfOk result (λ i. i.width ≡ 4) }
{
    let mut index = SliceIndex::new(alloc, 4)?;
    for at in 0..rows {
        if let Some(key) = key_at(from + at) {
            let row = index.rows().max(at);
            index.put(row, key.min(15))?;
        }
    }
    let rows = index.rows().max(rows);
    index.pad(rows)
}

/// The index has `rows` rows, and each relation to 9 is answered row by row.
fn answers_by_row<B: Bits, R: Abort + AllocGlobal>(
    rt: &R,
    index: &SliceIndex<B>,
    rows: u64,
) -> Result<(), AllocError> {
    for rel in RELATIONS {
        let bits = index.ask(rel, 9)?;
        assert_eq!(rt; bits.len(), rows);
        for row in 0..bits.len() {
            let meets = match key_at(row) {
                Some(key) => related(key, rel, 9),
                None => false,
            };
            assert_eq!(rt; bits.get(row), meets);
        }
    }
    Ok(())
}

/// Numbers of rows at each side of a block's end.
fn blocks_at_their_ends<B: Bits, R: Abort + AllocGlobal>(rt: &R) -> Result<(), BitsEnd> {
    for rows in [0, 1, 63, 64, 65, 127, 128, 1_000] {
        let index = tabled::<B>(rt.alloc(), 0, rows)?;
        answers_by_row(rt, &index, rows)?;
    }
    Ok(())
}

/// Rows that are added behind each number of rows in the last block.
fn blocks_at_each_remainder<B: Bits, R: Abort + AllocGlobal>(rt: &R) -> Result<(), BitsEnd> {
    for rows in 64..128 {
        let more = tabled::<B>(rt.alloc(), rows, 70)?;
        let index = tabled::<B>(rt.alloc(), 0, rows)?.append(&more)?;
        answers_by_row(rt, &index, rows + 70)?;
    }
    Ok(())
}

#[test]
fn blocks_of_rows(rt: HostRuntime) -> Result<(), Fail> {
    blocks_at_their_ends::<RunsBitmap, HostRuntime>(&rt)?;
    blocks_at_their_ends::<WordBitmap, HostRuntime>(&rt)?;
    blocks_at_each_remainder::<WordBitmap, HostRuntime>(&rt)?;
    Ok(())
}

/// A bitmap of the multiples of a number.
fn multiples<B: Bits>(alloc: Global, rows: u64, of: u64) -> Result<B, BitsEnd>
    requires { 0 < of }
{
    let mut bits = B::empty(alloc);
    for row in 0..rows {
        bits.push_run(row % of == 0, 1)?;
    }
    Ok(bits)
}

/// Of 1,000 rows the multiples of 3 and those of 5, joined.
fn multiples_joined<B: Bits, R: Abort + AllocGlobal>(rt: &R) -> Result<(), BitsEnd> {
    let a = multiples::<B>(rt.alloc(), 1_000, 3)?;
    let b = multiples::<B>(rt.alloc(), 1_000, 5)?;
    assert_eq!(rt; a.count(), 334);
    assert_eq!(rt; b.count(), 200);
    assert_eq!(rt; a.len(), b.len());
    if a.len() == b.len() {
        assert_eq!(rt; a.and(&b)?.count(), 67);
        assert_eq!(rt; a.or(&b)?.count(), 467);
        assert_eq!(rt; a.and_not(&b)?.count(), 267);
    }
    assert_eq!(rt; a.not()?.count(), 666);
    Ok(())
}

/// Runs of zeros and ones that end at each side of a block's end, and what is joined of them.
fn runs_at_block_ends<B: Bits, R: Abort + AllocGlobal>(rt: &R) -> Result<(), BitsEnd> {
    for rows in [0, 1, 63, 64, 65, 127, 128, 1_000] {
        let mut bits = B::empty(rt.alloc());
        bits.push_run(false, rows)?;
        bits.push_run(true, rows)?;
        bits.push_word(5, 3)?;
        let turned = bits.not()?;
        assert_eq!(rt; bits.count(), rows + 2);
        assert_eq!(rt; turned.count(), rows + 1);
        assert_eq!(rt; bits.next_one(0), Some(rows));
        assert_eq!(rt; turned.next_one(rows), Some(rows + rows + 1));
        assert_eq!(rt; bits.len(), turned.len());
        if bits.len() == turned.len() {
            assert_eq!(rt; bits.and(&turned)?.next_one(0), None);
            assert_eq!(rt; bits.or(&turned)?.count(), rows + rows + 3);
        }
    }
    Ok(())
}

#[test]
fn bitmaps(rt: HostRuntime) -> Result<(), Fail> {
    multiples_joined::<RunsBitmap, HostRuntime>(&rt)?;
    multiples_joined::<WordBitmap, HostRuntime>(&rt)?;
    runs_at_block_ends::<RunsBitmap, HostRuntime>(&rt)?;
    runs_at_block_ends::<WordBitmap, HostRuntime>(&rt)?;
    Ok(())
}
