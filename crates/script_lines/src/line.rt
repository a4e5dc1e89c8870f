//! What a line asks for.
use event_history::Mode;

/// What a script may limit.
#[derive(Clone, Copy, Debug, PartialEq, Eq)]
pub enum Quantity {
    /// The events of the store, 1 to 2^32.
    Rows,
    /// The rows of a batch, 1 to 4,096.
    Batch,
    /// The batches of a group, 1 to 256.
    Group,
    /// The decoded batches that are kept, 1 to 1,024.
    Cache,
    /// The queries that are registered, 1 to 256.
    Queries,
    /// The batches of an inbox, 1 to 1,024.
    Inbox,
}

/// What a line asks for. Sources and queries count from 1, batches from 0.
#[derive(Clone, Copy)]
pub enum Line<'a> {
    /// `limit rows N` and the like, the number within its range.
    Limit { quantity: Quantity, number: u64 },
    /// `source NAME`: a source is opened.
    Source { name: &'a str },
    /// `accept S`: the next batch of a source is accepted.
    Accept { source: u64 },
    /// `claim`: the next batch to index is claimed, and the claim is held.
    Claim,
    /// `unclaim B`: a held claim is given back.
    Unclaim { batch: u64 },
    /// `lose B`: a held claim is dropped.
    Lose { batch: u64 },
    /// `index B`: a batch is indexed.
    Index { batch: u64 },
    /// `group`: a group is claimed, and held.
    Group,
    /// `seal`: the earliest held group, or a new one, is merged.
    Seal,
    /// `query MODE TEXT`: a query is registered. The text needn't be a query.
    Query { mode: Mode, text: &'a str },
    /// `take Q`: what a query is to be told is taken, and held.
    Take { query: u64 },
    /// `page Q`: what is held is told.
    Page { query: u64 },
    /// `drain Q`: both at once.
    Drain { query: u64 },
    /// `leave Q`: a query ends.
    Leave { query: u64 },
    /// `rows`: how many events there are.
    Rows,
}
