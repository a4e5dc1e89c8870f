//! Items dealt out and taken back.
ghost use Rattle.std.specs.Prelude.{◌≡◌, ℕ, ◌<◌, ◌≤◌, [], length, slice_index_or, vec_capacity};
ghost use Rattle.round_robin.specs.Dealing.{dealt, share};

/// Deals the items out to empty hands: hand w gets those whose place modulo the number of hands is w, in order.
pub fn deal<T: Drop>(mut items: Vec<T>, hands: &mut [Vec<T>])
    requires some { 0 < length hands.old }
    requires empty { (w : ℕ) (d : _) → w < length hands.old → (slice_index_or hands.old w d).items ≡ [] }
    requires room { (w : ℕ) (d : _) → w < length hands.old → share (length hands.old) w (length items.items) ≤ vec_capacity (slice_index_or hands.old w d) }
    ensures len { length hands.new ≡ length hands.old }
    ensures dealt { (w : ℕ) (d : _) → w < length hands.old → (slice_index_or hands.new w d).items ≡ dealt (length hands.old) w 0 items.items }
{
    items.reverse();
    let number = hands.len();
    let mut at = 0;
    while let Some(item) = items.pop() {
        hands[at % number].push_reserved(item);
        at += 1;
    }
}

/// Takes the items of all hands back, in the order in which they would have been dealt, and leaves the hands empty.
pub fn collect<T: Drop>(hands: &mut [Vec<T>], count: usize, mut out: Vec<T>) -> Vec<T>
    requires some { 0 < length hands.old }
    requires none { out.items ≡ [] }
    requires room { count ≤ vec_capacity out }
    requires shares { (w : ℕ) (d : _) → w < length hands.old → length (slice_index_or hands.old w d).items ≡ share (length hands.old) w count }
    ensures len { length result.items ≡ count }
    ensures dealt { (w : ℕ) (d : _) → w < length hands.old → dealt (length hands.old) w 0 result.items ≡ (slice_index_or hands.old w d).items }
    ensures empty { (w : ℕ) (d : _) → w < length hands.old → (slice_index_or hands.new w d).items ≡ [] }
{
    let number = hands.len();
    for at in (0..count).rev() {
        let Some(item) = hands[at % number].pop() else {
            unreachable!()
        };
        out.push_reserved(item);
    }
    out.reverse();
    out
}
