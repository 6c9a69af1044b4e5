// Laws about layered tasks.
ghost use Rattle.sas_meaning.specs.LayerChecks.{LayerChecksAreTheRules};
ghost use Rattle.sas_meaning.specs.Laws.{SettledExists, SettledIsOne, InitialExists, InitialIsOne, StepIsOne};

/// Laws of layered tasks. For all values of the basic variables there is exactly one settled state, so there is exactly one initial state.
/// An operator leads from a state to at most one state. The layer checks report a fault if and only if the task isn't layered.
pub fn meaning_laws()
    ensures checks { LayerChecksAreTheRules }
    ensures settled { SettledExists }
    ensures settled_one { SettledIsOne }
    ensures initial { InitialExists }
    ensures initial_one { InitialIsOne }
    ensures step_one { StepIsOne }
{}
