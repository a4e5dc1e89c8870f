//! Room for what the hands get.
ghost use Rattle.std.specs.Prelude.{◌≡◌, ℕ, ◌<◌, ◌≤◌, [], length, slice_index_or, vec_capacity, IfOk};
ghost use Rattle.round_robin.specs.Dealing.{share};

use std::alloc::{AllocError, Global};

/// How many of `count` items a hand gets.
pub fn share_of(hands: usize, hand: usize, count: usize) -> usize
    requires { hand < hands }
    ensures { result ≡ share hands hand count }
{
    let rounds = count / hands;
    if hand < count % hands {
        rounds + 1
    } else {
        rounds
    }
}

/// So many empty hands, each with room for its share of `count` items.
pub fn hands<T: Drop>(alloc: Global, hands: usize, count: usize) -> Result<Vec<Vec<T>>, AllocError>
    ensures len { IfOk result (λ made. length made.items ≡ hands) }
    ensures empty { IfOk result (λ made. (w : ℕ) (d : _) → w < hands → (slice_index_or made.items w d).items ≡ []) }
    ensures room { IfOk result (λ made. (w : ℕ) (d : _) → w < hands → share hands w count ≤ vec_capacity (slice_index_or made.items w d)) }
{
    let mut made = Vec::with_capacity(alloc, hands)?;
    for hand in 0..hands {
        let room = share_of(hands, hand, count);
        made.push_reserved(Vec::with_capacity(alloc, room)?);
    }
    Ok(made)
}
