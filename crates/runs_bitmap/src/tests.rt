use crate::RunsBitmap;
use bits_law::{Bits, BitsEnd, LONGEST};
use std::test::Fail;

/// The bits of a text of `0` and `1`, run by run.
fn bits(rt: &HostRuntime, text: &str) -> Result<RunsBitmap, BitsEnd> {
    let mut bits = RunsBitmap::empty(rt.alloc());
    for byte in text.as_bytes() {
        bits.push_run(*byte == b'1', 1)?;
    }
    Ok(bits)
}

/// The text of a bitmap's bits.
fn shown(rt: &HostRuntime, bits: &RunsBitmap) -> Result<String, std::alloc::AllocError> {
    let mut text = String::new(rt.alloc());
    for at in 0..bits.len() {
        text.push(if bits.get(at) { '1' } else { '0' })?;
    }
    Ok(text)
}

#[test]
fn operations_go_bit_by_bit(rt: HostRuntime) -> Result<(), Fail> {
    let a = bits(&rt, "111001")?;
    let b = bits(&rt, "101010")?;
    assert_eq!(rt; a.len(), b.len());
    assert_eq!(rt; shown(&rt, &a.and(&b)?)?.as_str(), "101000");
    assert_eq!(rt; shown(&rt, &a.not()?)?.as_str(), "000110");
    assert_eq!(rt; a.count(), 4);
    assert_eq!(rt; a.next_one(3), Some(5));
    assert_eq!(rt; a.next_one(6), None);
    Ok(())
}

#[test]
fn a_bitmap_has_2_to_the_40_bits_at_most(rt: HostRuntime) -> Result<(), Fail> {
    let mut a = RunsBitmap::empty(rt.alloc());
    assert_eq!(rt; a.not()?.len(), 0);
    a.push_run(true, LONGEST)?;
    let end = a.push_run(false, 1);
    assert_eq!(rt;
        end,
        Err(BitsEnd::TooLong {
            have: LONGEST,
            more: 1
        })
    );
    assert_eq!(rt; a.duplicate()?.count(), LONGEST);
    Ok(())
}

#[test]
fn either_the_first_alone_and_both_in_a_row(rt: HostRuntime) -> Result<(), Fail> {
    let a = bits(&rt, "111001")?;
    let b = bits(&rt, "101010")?;
    assert_eq!(rt; a.len(), b.len());
    let mut joined = a.or(&b)?;
    assert_eq!(rt; shown(&rt, &joined)?.as_str(), "111011");
    assert_eq!(rt; shown(&rt, &a.and_not(&b)?)?.as_str(), "010001");
    joined.append(&b)?;
    assert_eq!(rt; shown(&rt, &joined)?.as_str(), "111011101010");
    Ok(())
}
