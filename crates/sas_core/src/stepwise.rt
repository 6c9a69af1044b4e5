// How a plan is read, regardless of how it is stored.
ghost use Rattle.std.specs.Prelude.{◌≡◌};

use crate::Plan;

/// A plan that is read step by step, regardless of how it is stored. `says` is the contents of the plan file that the plan represents.
/// Steps are identified by their index, counted from 0.
pub trait Stepwise {
    ghost use Rattle.std.specs.Prelude.{◌≡◌, ◌<◌, length};
    ghost use Rattle.sas_core.specs.PlanParts.{PlanParts};
    ghost use Rattle.sas_core.specs.Stepwise.{step_at};

    /// The contents of the plan file that this plan represents.
    ghost says: { Self → PlanParts };

    /// Returns the number of steps.
    fn steps(&self) -> usize
        ensures { result ≡ length (says self.now).steps };

    /// Returns the name of the step.
    fn step(&self, index: usize) -> &[u8]
        requires { index < length (says self.now).steps }
        ensures { result.now ≡ step_at (says self.now) index };

    /// Returns the cost on the last line of the plan.
    fn cost(&self) -> u64
        ensures { result ≡ (says self.now).cost };
}

impl Stepwise for Plan {
    ghost says = { λ p. p };

    fn steps(&self) -> usize {
        Plan::steps(self).len()
    }

    fn step(&self, index: usize) -> &[u8] {
        Plan::steps(self).as_slice()[index].as_slice()
    }

    fn cost(&self) -> u64 {
        Plan::cost(self)
    }
}
