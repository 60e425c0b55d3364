// The trait that every kind of cost keeps.
ghost use Rattle.std.specs.Prelude.{◌≡◌, pos};
ghost use Rattle.cost.specs.Meaning.{Meaning, Lawful, last, in_range, increment_at, amount_within};

// A cost says what it means by `meaning`; the four laws hold of every content, and the four answers are read off it.
pub trait Cost {
    ghost meaning: { Self → Meaning };

    fn first_load(&self) -> i64
        ensures { result ≡ pos (meaning self.now).first };

    fn last_load(&self) -> i64
        ensures { result ≡ pos (last (meaning self.now)) };

    fn opening_amount(&self) -> i64
        ensures { result ≡ (meaning self.now).opening };

    // What going from `load` to the next adds; absent below the first load and from the last load on.
    fn increment_at(&self, load: i64) -> Option<i64>
        ensures { result ≡ increment_at (meaning self.now) load };

    ghost lawful: { (c : Self) → Lawful (meaning c) };
}

// The load lies in the range, both ends included.
pub fn in_range<C: Cost>(cost: &C, load: i64) -> bool
    ensures { result ≡ in_range (C.Cost.meaning cost.now) load }
{
    (cost.first_load()..=cost.last_load()).contains(&load)
}

// The amount at a load; absent outside the range.
pub fn amount_at<C: Cost>(cost: &C, load: i64) -> Option<i64>
    ensures { result ≡ amount_within (C.Cost.meaning cost.now) load }
{
    if !in_range(cost, load) {
        return None;
    }
    let mut amount = cost.opening_amount();
    for below in cost.first_load()..load {
        amount += cost.increment_at(below).unwrap();
    }
    Some(amount)
}
