// What networks and costs are made of.
use random::Random;
use sheet::sheets::Sheet;
use std::alloc::Global;

// The heap that lists are held on, the numbers that they are drawn from, and the sheet that the next network is drafted on,
// as the last one left it.
#[derive(Drop)]
pub(crate) struct Maker {
    pub heap: Global,
    pub random: Random,
    pub sheet: Sheet,
}
