// How many of the plans so far are valid, and the best of these.
ghost use Rattle.std.specs.Prelude.{◌≡◌, ◌<◌, []};
ghost use Rattle.sas_requests.specs.Judged.{Tallies};
ghost use Rattle.sas_requests.specs.Judging.{is_lower, tally_with};

/// A valid plan that costs least: its cost, and its number.
#[derive(Clone, Copy)]
pub struct BestPlan {
    pub cost: u64,
    pub number: usize,
}

/// How many of the plans so far are valid, and the first of those that cost least.
#[derive(Clone, Copy)]
pub struct Tally {
    pub valid: usize,
    pub best: Option<BestPlan>,
}

impl Tally {
    /// Returns the tally of no plans.
    pub fn new() -> Tally
        ensures { Tallies [] result }
    {
        Tally {
            valid: 0,
            best: None,
        }
    }

    /// Adds the plan with this number, which comes after those so far. It has a cost if it is valid.
    pub fn add(&mut self, number: usize, cost: Option<u64>)
        requires { self.old.valid < usize.MAX }
        ensures { self.new ≡ tally_with number cost self.old }
    {
        let Some(cost) = cost else {
            return;
        };
        self.valid += 1;
        if is_lower(cost, self.best) {
            self.best = Some(BestPlan { cost, number });
        }
    }
}

/// Returns whether the cost is lower than that of the best plan so far, or there is none.
fn is_lower(cost: u64, best: Option<BestPlan>) -> bool
    ensures { result ≡ is_lower cost best }
{
    match best {
        Some(best) => cost < best.cost,
        None => true,
    }
}
