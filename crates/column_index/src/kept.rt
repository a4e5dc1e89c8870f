//! What a column keeps of its cells, by their kind.
ghost use Rattle.std.specs.Prelude.{◌≡◌, [], ◌∷◌};
ghost use Rattle.digit_index.specs.declared.coding.Coding.TheVariants.{Equality, Range};

use address_index::{AddrIndex, NetIndex};
use digit_index::DigitIndex;
use set_index::SetIndex;
use slice_index::SliceIndex;
use std::alloc::Global;
use string_index::StringIndex;
use word_bitmap::WordBitmap;

/// The bitmaps that columns keep and answer.
pub type Bitmap = WordBitmap;

/// The rows where a test surely holds, and those where it may.
#[derive(Drop)]
pub struct Pair {
    pub sure: Bitmap,
    pub maybe: Bitmap,
}

/// Of bools: one digit with a bitmap for each value.
#[derive(Drop)]
pub(crate) struct Flags {
    pub(crate) index: DigitIndex<Bitmap>,
    ghost coding: { index.coding ≡ Equality },
    ghost bases: { index.bases ≡ 2 ∷ [] },
}

/// Of counts, ints and intervals: slices of the number, in order. Of times: of their whole seconds.
#[derive(Drop)]
pub(crate) struct Numbers {
    pub(crate) index: SliceIndex<Bitmap>,
    ghost wide: { index.width ≡ 64 },
}

/// Of ports: the two digits of the number, and the transport.
#[derive(Drop)]
pub(crate) struct Ports {
    pub(crate) numbers: DigitIndex<Bitmap>,
    pub(crate) transports: DigitIndex<Bitmap>,
    ghost coding: { numbers.coding ≡ Range },
    ghost bases: { numbers.bases ≡ 256 ∷ 256 ∷ [] },
    ghost transport_coding: { transports.coding ≡ Equality },
    ghost transport_bases: { transports.bases ≡ 4 ∷ [] },
}

/// Of addresses.
#[derive(Drop)]
pub(crate) struct Addresses {
    pub(crate) index: AddrIndex<Bitmap>,
}

/// Of subnets.
#[derive(Drop)]
pub(crate) struct Subnets {
    pub(crate) index: NetIndex<Bitmap>,
}

/// Of strings and enums: their length and their first eight bytes.
#[derive(Drop)]
pub(crate) struct Texts {
    pub(crate) index: StringIndex<Bitmap>,
}

/// Of containers: the buckets that their elements take.
#[derive(Drop)]
pub(crate) struct Buckets {
    pub(crate) index: SetIndex<Bitmap>,
}

/// What a column keeps of its set cells.
#[derive(Drop)]
pub(crate) enum Keys {
    Flags(Flags),
    Numbers(Numbers),
    Ports(Ports),
    Addresses(Addresses),
    Subnets(Subnets),
    Texts(Texts),
    Buckets(Buckets),
}
