//! Items dealt out and taken back.
ghost use Rattle.std.specs.Prelude.{◌<◌};

use super::*;
use std::alloc::{AllocError, Global};
use std::test::Fail;

// Items, and what one hand, two hands and three hands get of them.
const CASES: [(&str, &str, &str, &str); 4] = [
    ("", "", "|", "||"),
    ("a", "a", "a|", "a||"),
    ("abcde", "abcde", "ace|bd", "ad|be|c"),
    ("abcdefg", "abcdefg", "aceg|bdf", "adg|be|cf"),
];

// The items of each hand, with a bar between two hands.
fn shown(alloc: Global, hands: &[Vec<char>]) -> Result<String, AllocError> {
    let mut text = String::new(alloc);
    for hand in hands {
        for item in hand {
            text.push(*item)?;
        }
        text.push('|')?;
    }
    text.pop();
    Ok(text)
}

// What the hands get, and what comes back.
fn there_and_back(alloc: Global, items: &str, number: usize) -> Result<(String, String), Fail>
    requires { 0 < number }
{
    let items: Vec<char> = items.chars().collect(alloc)?;
    let count = items.len();
    let mut made = hands(alloc, number, count)?;
    let hands = made.as_mut_slice();
    deal(items, hands);
    let dealt = shown(alloc, hands)?;
    let out = Vec::with_capacity(alloc, count)?;
    let back = collect(hands, count, out);
    let back: String = back.into_iter().collect(alloc)?;
    Ok((dealt, back))
}

#[test]
fn items_go_round_the_hands_and_come_back_in_order(rt: HostRuntime) -> Result<(), Fail> {
    for (items, one, two, three) in CASES {
        let (dealt, back) = there_and_back(rt.alloc(), items, 1)?;
        assert_eq!(rt; (dealt.as_str(), back.as_str()), (one, items));
        let (dealt, back) = there_and_back(rt.alloc(), items, 2)?;
        assert_eq!(rt; (dealt.as_str(), back.as_str()), (two, items));
        let (dealt, back) = there_and_back(rt.alloc(), items, 3)?;
        assert_eq!(rt; (dealt.as_str(), back.as_str()), (three, items));
    }
    Ok(())
}
