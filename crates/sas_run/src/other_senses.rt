// Laws about what a valid plan is elsewhere.
ghost use Rattle.sas_run.specs.OtherSensesLaws.{ValidIsUsuallyValid, ValidInFastDownward, EndsInFastDownward};

/// Laws of valid plans. A valid plan is valid in the usual sense, in which a step may stand for any operator of its name. Its operators
/// also reach the goal by steps of Fast Downward's search, and lead to no other state there.
pub fn other_senses_laws()
    ensures usual { ValidIsUsuallyValid }
    ensures there { ValidInFastDownward }
    ensures there_one { EndsInFastDownward }
{}
