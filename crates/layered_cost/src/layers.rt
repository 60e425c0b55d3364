// The two costs that stand over another cost: a cap on the load and a ceiling on the increments.
ghost use Rattle.std.specs.Prelude.{◌≡◌};
ghost use Rattle.std.specs.Option.{option_map};
ghost use Rattle.cost.specs.Places.{unless};
ghost use Rattle.cost.specs.Limits.{outside, load_limits, increment_limits};
ghost use Rattle.layered_cost.specs.Layers.{capped, ceiled};
ghost use Rattle.cost.specs.declared.refusals.CostFault.TheVariants.{Number};
ghost use Rattle.layered_cost.specs.Over.{capped_lawful, ceiled_lawful};

use cost::costs::Cost;
use cost::numbers::{INCREMENTS, LOADS};
use cost::refusals::CostFault;

// A cost that carries at most `limit`; a limit below 0 counts as 0.
#[derive(Clone, Copy, Debug, PartialEq, Eq)]
pub struct Cap<C> {
    pub below: C,
    pub limit: i64,
}

impl<C: Cost + Drop> Cap<C> {
    pub fn new(below: C, limit: i64) -> Result<Cap<C>, CostFault>
        ensures { result ≡ unless (option_map Number (outside load_limits 1 limit)) (record { below = below; limit = limit }) }
    {
        LOADS.check(limit, 1)?;
        Ok(Cap { below, limit })
    }
}

impl<C: Cost> Cost for Cap<C> {
    ghost meaning = { λ c. capped c.limit (C.Cost.meaning c.below) };

    ghost lawful = { λ c. capped_lawful c.limit (C.Cost.meaning c.below) (C.Cost.lawful c.below) };

    fn first_load(&self) -> i64 {
        self.below.first_load()
    }

    fn last_load(&self) -> i64 {
        let first = self.below.first_load();
        self.below.last_load().min(self.limit.max(first))
    }

    fn opening_amount(&self) -> i64 {
        self.below.opening_amount()
    }

    fn increment_at(&self, load: i64) -> Option<i64> {
        if load < self.limit {
            self.below.increment_at(load)
        } else {
            None
        }
    }
}

// A cost whose increments are at most `limit`; a limit below the lowest increment counts as that increment.
// It has the fields of a cap and is a type of its own: the two share no more than calls that pass on to the cost below.
#[derive(Clone, Copy, Debug, PartialEq, Eq)]
pub struct Ceiling<C> {
    pub below: C,
    pub limit: i64,
}

impl<C: Cost + Drop> Ceiling<C> {
    pub fn new(below: C, limit: i64) -> Result<Ceiling<C>, CostFault>
        ensures { result ≡ unless (option_map Number (outside increment_limits 1 limit)) (record { below = below; limit = limit }) }
    {
        INCREMENTS.check(limit, 1)?;
        Ok(Ceiling { below, limit })
    }
}

impl<C: Cost> Cost for Ceiling<C> {
    ghost meaning = { λ c. ceiled c.limit (C.Cost.meaning c.below) };

    ghost lawful = { λ c. ceiled_lawful c.limit (C.Cost.meaning c.below) (C.Cost.lawful c.below) };

    fn first_load(&self) -> i64 {
        self.below.first_load()
    }

    fn last_load(&self) -> i64 {
        self.below.last_load()
    }

    fn opening_amount(&self) -> i64 {
        self.below.opening_amount()
    }

    fn increment_at(&self, load: i64) -> Option<i64> {
        let highest = self.limit.max(INCREMENTS.low);
        self.below
            .increment_at(load)
            .map(|increment| increment.min(highest))
    }
}
