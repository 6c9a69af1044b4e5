//! Values that identify a name.
ghost use Rattle.std.specs.Prelude.{◌≡◌, ◌<◌, List, ℕ, length};
ghost use Rattle.sas_core.specs.Grounded.{operator_at};
ghost use Rattle.sas_core.specs.Stepwise.{step_at};

use sas_core::{Grounded, Stepwise};

/// A value that identifies a name, which is stored in an `L`.
pub trait NameId<L> {
    /// The value identifies a name of this `L`.
    ghost exists: { L → Self → Type 0 };

    /// The name that the value identifies.
    ghost names: { L → Self → List ℕ };

    /// Returns the name that the value identifies.
    fn name<'n>(&'n self, place: &'n L) -> &'n [u8]
        requires { exists place.now self.now }
        ensures { result.now ≡ names place.now self.now };
}

/// An operator of a task, by its number.
impl<T: Grounded> NameId<T> for u32 {
    ghost exists = { λ task operator. operator < length (T.says task).operators };

    ghost names = { λ task operator. (operator_at (T.says task) operator).name };

    fn name<'n>(&'n self, task: &'n T) -> &'n [u8] {
        task.name(*self)
    }
}

/// A step of a plan, by its number.
impl<P: Stepwise> NameId<P> for usize {
    ghost exists = { λ plan step. step < length (P.says plan).steps };

    ghost names = { λ plan step. step_at (P.says plan) step };

    fn name<'n>(&'n self, plan: &'n P) -> &'n [u8] {
        plan.step(*self)
    }
}
