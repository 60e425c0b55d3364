// The limits of the numbers that a sheet is handed.
use cost::numbers::Limits;
use network::records::MOST_NODES;

// A supply.
pub const SUPPLIES: Limits = Limits {
    low: -100_000,
    high: 100_000,
};

// A price.
pub const PRICES: Limits = Limits {
    low: -100_000_000,
    high: 100_000_000,
};

// How many nodes a draft is for.
pub const SIZES: Limits = Limits {
    low: 0,
    high: MOST_NODES as i64,
};
