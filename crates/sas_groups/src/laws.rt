// Laws about mutex groups.
ghost use Rattle.sas_groups.specs.Laws.{JointlyKeptIsInvariant, ExclusiveAloneIsInvariant};
ghost use Rattle.sas_groups.specs.Laws.{ExclusiveJointlyIsInvariant, FamiliesUnite, GreatestExists, GreatestIsOne};
ghost use Rattle.sas_groups.specs.Laws.{GreatestHasAlone, OutsideIsBroken, JointVerdictIsOne, SomeJointVerdict};

/// Laws about mutex groups.
/// - Invariance: no reachable state contains two different facts of a group that is exclusive (alone or jointly) or belongs to a family
///   that is kept jointly.
/// - The union of two families that are kept jointly is kept jointly.
/// - There is at most one greatest family that is kept jointly, and it can't be that none exists.
/// - The greatest family contains every group that is exclusive alone.
/// - A group outside the greatest family that may be exclusive isn't kept by all operators, assuming that family and the group itself.
/// - Each group has at most one joint verdict, and it can't be that it has none.
pub fn group_laws()
    ensures invariance { JointlyKeptIsInvariant }
    ensures alone { ExclusiveAloneIsInvariant }
    ensures jointly { ExclusiveJointlyIsInvariant }
    ensures unite { FamiliesUnite }
    ensures greatest_exists { GreatestExists }
    ensures greatest_one { GreatestIsOne }
    ensures has_alone { GreatestHasAlone }
    ensures outside { OutsideIsBroken }
    ensures verdict_one { JointVerdictIsOne }
    ensures some_verdict { SomeJointVerdict }
{}
