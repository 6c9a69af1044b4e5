// Laws of steps, here and in Fast Downward's search.
ghost use Rattle.sas_meaning.specs.StepLaws.{StepExists, FastDownwardStepExists, FastDownwardStepIsOne, StepIsFastDownwards};
ghost use Rattle.sas_meaning.specs.StepLaws.{FastDownwardStepIsStep, FastDownwardReaches, FastDownwardReachesNoMore, FastDownwardWrites};

/// Laws of steps. If the preconditions of an operator hold and the effects that fire agree, there is a next state.
///
/// In Fast Downward's search there is exactly one next state whenever the preconditions hold: the effects that fire are written in the
/// order of the file, and the result is settled. A step is one of Fast Downward, too, so all reachable states are reached there. If the
/// effects that fire agree, the two have the same steps. If they agree in each reachable state, they reach the same states.
pub fn step_laws()
    ensures exists { StepExists }
    ensures there { FastDownwardStepExists }
    ensures there_one { FastDownwardStepIsOne }
    ensures step { StepIsFastDownwards }
    ensures agree { FastDownwardStepIsStep }
    ensures reaches { FastDownwardReaches }
    ensures no_more { FastDownwardReachesNoMore }
    ensures writes { FastDownwardWrites }
{}
