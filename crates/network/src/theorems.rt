// What holds of every network. Each function asserts one theorem by its contract and does nothing.
ghost use Rattle.network.specs.Theorems.{Identity, Conservation, LeastIsReached, WeakDuality, Slackness, EqualIsBest, EqualExactlyWhenBest, OverFullBars, ClosedIsOverFull};

pub fn surpluses_are_supplies_less_tensions()
    ensures { Identity }
{}

pub fn surpluses_sum_to_supplies()
    ensures { Conservation }
{}

pub fn least_is_reached()
    ensures { LeastIsReached }
{}

pub fn floor_never_passes_charge()
    ensures { WeakDuality }
{}

pub fn slack_loads_reach_the_floor()
    ensures { Slackness }
{}

pub fn equal_is_best()
    ensures { EqualIsBest }
{}

pub fn equal_exactly_when_best()
    ensures { EqualExactlyWhenBest }
{}

pub fn over_full_bars()
    ensures { OverFullBars }
{}

pub fn closed_is_over_full()
    ensures { ClosedIsOverFull }
{}
