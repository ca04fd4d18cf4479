//! How the identifiers of a dump's objects follow one another.

/// An order of objects by their identifiers. An identifier is at a place, and places are equally far apart.
#[derive(Clone, Copy, Debug)]
pub enum Order {
    /// Each object is the neighbour of the one before it.
    Ascending,
    /// Sixteen stretches ascend, and each is before all earlier ones. The number of objects must be a power of two.
    Stretches,
    /// As in `Ascending`, but the last one is so far after the others that these are in one bucket of an index.
    Crowded,
    /// In no order, each place taken.
    Close,
    /// In no order, each thousandth place taken.
    Far,
    /// As in `Close`, and some objects have other lowest bits than the rest.
    Unaligned,
    /// The first 1,024 objects as in `Ascending`, the others as in `Close`.
    LateDisorder,
    /// As in `Close`, but one object that no sample has is apart from all others.
    Outlier,
}

/// The number of an object that no sample of 70,000 objects has.
const UNSEEN: u64 = 1050;

/// How far from one another are the places of two objects in no order that follow one another. It is a prime, so that
/// each place is taken once, unless the number of objects is a multiple of it.
const STEP: u64 = 7919;

/// Returns the place of object `number` of `count`, which are in no order.
fn scattered(number: u64, count: u64) -> u64 {
    number.wrapping_mul(STEP) % count.max(1)
}

impl Order {
    /// Returns the place of object `number` of `count`.
    fn place_of(self, number: u64, count: u64) -> u64 {
        match self {
            Order::Ascending => number,
            Order::Stretches => number ^ (count - count / 16),
            Order::Crowded if number.wrapping_add(1) == count => 1 << 50,
            Order::Crowded => number,
            Order::Close | Order::Unaligned => scattered(number, count),
            Order::Far => scattered(number, count).wrapping_mul(1000),
            Order::LateDisorder if number < 1024 => number,
            Order::LateDisorder => count.wrapping_add(scattered(number, count)),
            Order::Outlier if number == UNSEEN => count.wrapping_mul(4),
            Order::Outlier => scattered(number, count),
        }
    }

    /// Returns the identifier of object `number` of `count`. That of the first place is `first`, and each other one is
    /// `apart` after that of the place before.
    pub fn id_of(self, number: u64, count: u64, first: u64, apart: u64) -> u64 {
        let low = match self {
            Order::Unaligned => number % 2,
            _ => 0,
        };
        first
            .wrapping_add(self.place_of(number, count).wrapping_mul(apart))
            .wrapping_add(low)
    }
}
