// Laws of plans.
ghost use Rattle.sas_run.specs.Laws.{SomeVerdict, ValidHasNoFault, ValidIsOne, FaultIsOne};
ghost use Rattle.sas_run.specs.Laws.{LeadsToReachable, LastIsReachable, SomeRun, OneRun};
ghost use Rattle.sas_run.specs.Laws.{ValidByNumbers, SomeVerdictByNumbers, NumbersHaveNoFault, FaultByNumbersIsOne, RestIsValid};

/// Ensures the laws of plans. A plan of a layered task either is valid with exactly one list of operators, or has exactly one fault. In any
/// task, executable steps lead to a reachable state, and so the last state of a valid plan is reachable. Executable steps are those of a
/// run. In a layered task there is only one such run. There a plan is valid with some operators exactly if each is the one that its step's
/// name means, and they are valid by numbers.
pub fn verdict_laws()
    ensures some { SomeVerdict }
    ensures not_both { ValidHasNoFault }
    ensures valid_one { ValidIsOne }
    ensures fault_one { FaultIsOne }
    ensures leads { LeadsToReachable }
    ensures reached { LastIsReachable }
    ensures some_run { SomeRun }
    ensures one_run { OneRun }
    ensures by_numbers { ValidByNumbers }
{}

/// Ensures the laws of plans by numbers. In a layered task, operators with some numbers are valid from a state at a cost, or have exactly
/// one fault. Where the first of them lead to a state, they are valid exactly if the rest is valid from there, at what is left of the cost.
pub fn number_laws()
    ensures some { SomeVerdictByNumbers }
    ensures not_both { NumbersHaveNoFault }
    ensures fault_one { FaultByNumbersIsOne }
    ensures rest { RestIsValid }
{}
