// Laws about what verdicts on mutex groups say about states.
ghost use Rattle.sas_groups.specs.VerdictLaws.{InitialIsNoInvariant, InvariantInFastDownward, ExclusiveInFastDownward};

/// Laws of verdicts. A group that isn't shown because of the initial state isn't an invariant. If the effects that fire in reachable states
/// agree, an invariant also holds in all states that Fast Downward's search can reach; so a group that is exclusive jointly does.
pub fn group_verdict_laws()
    ensures initial { InitialIsNoInvariant }
    ensures there { InvariantInFastDownward }
    ensures exclusive_there { ExclusiveInFastDownward }
{}
