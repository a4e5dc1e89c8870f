use crate::WordBitmap;
use bits_law::{Bits, BitsEnd, LONGEST};
use std::test::Fail;

/// `zeros` zeros, three ones, a run of zeros over a word's end, and the bits of 0b101.
fn sample(rt: &HostRuntime, zeros: u64) -> Result<WordBitmap, BitsEnd> {
    let mut bits = WordBitmap::empty(rt.alloc());
    bits.push_run(false, zeros)?;
    bits.push_word(7, 3)?;
    bits.push_run(false, 130)?;
    bits.push_word(5, 3)?;
    Ok(bits)
}

#[test]
fn words_at_each_side_of_a_word_s_end(rt: HostRuntime) -> Result<(), Fail> {
    for zeros in [0, 61, 62, 63, 64, 65, 1_000] {
        let mut bits = sample(&rt, zeros)?;
        let turned = bits.not()?;
        assert_eq!(rt; bits.count(), 5);
        assert_eq!(rt; turned.count(), zeros + 131);
        assert_eq!(rt; bits.next_one(0), Some(zeros));
        assert_eq!(rt; bits.next_one(zeros + 3), Some(zeros + 133));
        assert_eq!(rt; bits.next_one(zeros + 136), None);
        bits.append(&turned)?;
        assert_eq!(rt; bits.count(), zeros + 136);
        assert_eq!(rt;
            bits.push_run(true, LONGEST),
            Err(BitsEnd::TooLong {
                have: 2 * (zeros + 136),
                more: LONGEST
            })
        );
    }
    Ok(())
}
