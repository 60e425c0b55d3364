// Prices may lie far apart without need: they are drawn together, so that they keep within the limit of a price.
ghost use Rattle.std.specs.Prelude.{◌≡◌, ℕ, ◌<◌, ◌≤◌, length, pos, ◌+ℤ◌, ◌-ℤ◌, ◌≤ℤ◌, ◌≢◌};
ghost use Rattle.std.specs.Int.{int_min};
ghost use Rattle.std.specs.Option.{MatchOption};
ghost use Rattle.std.specs.List.{All};
ghost use Rattle.cost.specs.Meaning.{Between};
ghost use Rattle.network.specs.Records.{numbers};
ghost use Rattle.search.specs.Prices.{Modest};
ghost use Rattle.search.specs.Drawn.{Drawn, NextAbove};

use cost::numbers::INCREMENTS;
use network::records::MOST_NODES;

// The lowest price above a bar.
fn next_above(prices: &[i64], bar: i64) -> Option<i64>
    ensures { MatchOption result (All (λ price. price ≤ℤ bar) prices.now) (NextAbove prices.now bar) }
{
    prices.iter().copied().filter(|price| *price > bar).min()
}

// The level of the next price above: it rises as the price does, and by no more than the largest increment.
fn level_above(level: i64, price: i64, next: i64) -> i64
    requires level { Between (pos 0) (pos 64000000) level }
    requires limits { Between (pos 0) (pos 1000000000000000) price × Between (pos 0) (pos 1000000000000000) next }
    ensures { result ≡ level +ℤ int_min (next -ℤ price) (pos 1000000) }
{
    level + (next - price).min(INCREMENTS.high)
}

// Writes a level down for each node of a price.
fn level_at(prices: &[i64], price: i64, level: i64, levels: &mut [i64])
    requires { length prices.now ≤ length levels.old }
    ensures here { (v : ℕ) → v < length prices.now → numbers prices.now v ≡ price → numbers levels.new v ≡ level }
    ensures elsewhere { (v : ℕ) → v < length prices.now → (numbers prices.now v ≢ price) → numbers levels.new v ≡ numbers levels.old v }
{
    // Of levels that are written through a zip of `iter_mut`, a proof knows nothing afterwards.
    for (v, own) in prices.iter().enumerate() {
        if *own == price {
            levels[v] = level;
        }
    }
}

// Draws prices together: from the lowest up, what lies between two prices next to each other becomes at most the largest increment.
pub(crate) fn draw_in(prices: &[i64]) -> [i64; MOST_NODES]
    requires few { length prices.now ≤ 64 }
    requires modest { Modest (length prices.now) prices.now }
    ensures drawn { Drawn (length prices.now) (numbers prices.now) (numbers result) }
    ensures limits { (v : ℕ) → v < length prices.now → Between (pos 0) (pos 64000000) (numbers result v) }
{
    // Settling takes no heap; places past the nodes are not read.
    let mut levels = [0; MOST_NODES];
    let mut price = 0;
    let mut level = 0;
    while let Some(next) = next_above(prices, price) {
        level = level_above(level, price, next);
        price = next;
        level_at(prices, price, level, &mut levels);
    }
    levels
}
