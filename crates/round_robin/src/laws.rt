//! Laws of dealing, each the contract of a function with an empty body.
ghost use Rattle.std.specs.Prelude.{◌≡◌, ℕ, ◌<◌, length};
ghost use Rattle.round_robin.specs.Dealing.{dealt, share};

/// What a hand gets of a list is as long as its share of the list's length.
pub fn hands_get_their_share<T>(items: &[T], hands: usize, hand: usize)
    ensures { length (dealt hands hand 0 items.now) ≡ share hands hand (length items.now) }
{}

/// Lists of one length of which each hand gets the same are the same.
pub fn hands_tell_the_list<T>(items: &[T], others: &[T], hands: usize)
    requires some { 0 < hands }
    requires length { length items.now ≡ length others.now }
    requires same { (w : ℕ) → w < hands → dealt hands w 0 items.now ≡ dealt hands w 0 others.now }
    ensures { items.now ≡ others.now }
{}
