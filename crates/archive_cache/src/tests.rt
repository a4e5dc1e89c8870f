//! A cache of two, asked for five batches.
ghost use Rattle.std.specs.Prelude.{◌≡◌, ◌+◌, ◌<◌, ◌∷◌, [], IfOk, OnOk};

use super::*;
use event_batch::{Packed, Steps};
use std::alloc::{AllocError, Global};
use std::marker::Brand;
use std::sync::ledger::{Blank, Ledger};
use std::test::Fail;
use vast_value::Bytes;

// A batch of this source with one count.
fn batch_of(alloc: Global, source: u8) -> Result<Packed, Fail> {
    let bytes = [
        2, source, 0, 0, 0, 1, 0, 0, 0, b'd', 1, 0, 1, 1, 0, 0, 0, b'n', 1, 0, 0, 0, 1, 7, 0, 0, 0,
        0, 0, 0, 0,
    ];
    match Packed::read(alloc, Bytes::copy(alloc, &bytes)?) {
        Ok(packed) => Ok(packed),
        Err(_) => Err("no batch".into()),
    }
}

// The cache after asks for the batches 0, 1, 0, 2 and 1, and the sources of what it answered.
fn asked<L: Ledger>(
    alloc: Global,
    zero: &Packed,
    one: &Packed,
    two: &Packed,
    steps: &mut Steps<L>,
) -> Result<(Cache, [u32; 5]), AllocError>
    ensures holds { IfOk result (λ asked. asked.0 ≡ record { size = 2; entries = (1, one.now.content) ∷ (2, two.now.content) ∷ [] }) }
    ensures counts { OnOk result (steps.new ≡ steps.old + 4) }
{
    let mut cache = Cache::new(alloc, 2)?;
    let sources = [
        cache.get(0, zero, steps)?.source(),
        cache.get(1, one, steps)?.source(),
        cache.get(0, zero, steps)?.source(),
        cache.get(2, two, steps)?.source(),
        cache.get(1, one, steps)?.source(),
    ];
    Ok((cache, sources))
}

// The same with a count of steps that begins here, and how many batches are kept then.
fn counted<L: Ledger>(alloc: Global, blank: Blank) -> Result<([u32; 5], usize), Fail>
    requires name { blank.name ≡ L.name }
    requires parts { blank.parts ≡ L.parts }
    requires some { 0 < L.parts }
{
    let mut steps = Steps::<L>::new(blank);
    let (zero, one, two) = (
        batch_of(alloc, 10)?,
        batch_of(alloc, 11)?,
        batch_of(alloc, 12)?,
    );
    let (cache, sources) = asked(alloc, &zero, &one, &two, &mut steps)?;
    Ok((sources, cache.len()))
}

#[test]
fn a_cache_of_two_asked_for_0_1_0_2_1(rt: HostRuntime) -> Result<(), Fail> {
    let (sources, kept) = counted::<Brand>(rt.alloc(), Blank::new(1))?;
    assert_eq!(rt; sources, [10, 11, 10, 12, 11]);
    assert_eq!(rt; kept, 2);
    Ok(())
}
