// The table of places: for each place the location of the next line, what is expected there, what the line adds, and how it moves the
// tracker.
ghost use Rattle.std.specs.Prelude.{◌≡◌};
ghost use Rattle.sas_task_file.specs.Tracker.{line_row, word_row, count_row, begin_row, list_row, item_row, next_number, this_number, next_variable, most_value, value_due, IsRow};
ghost use Rattle.sas_task_file.specs.Marks.{any_number, positive_number};

use crate::marks::{Due, FixedWord as Word, Location as At, What};
use crate::places::{Event, Move, Place, Row};
use crate::tracker::Tracker;

/// The greatest number of a task file.
const MOST: u32 = 2_147_483_647;

/// The version.
const VERSION: Due = Due::Number {
    what: What::Version,
    least: 3,
    most: 3,
};

/// The metric.
const METRIC: Due = Due::Number {
    what: What::Metric,
    least: 0,
    most: 1,
};

/// Returns that any number is expected.
fn any_number(what: What) -> Due
    ensures { result ≡ any_number what }
{
    Due::Number {
        what,
        least: 0,
        most: MOST,
    }
}

/// Returns that any number but 0 is expected.
fn positive_number(what: What) -> Due
    ensures { result ≡ positive_number what }
{
    Due::Number {
        what,
        least: 1,
        most: MOST,
    }
}

/// Returns the row of a line after which the place is `to`.
fn line_row(at: At, due: Due, adds: Event, to: Place) -> Row
    ensures { result ≡ line_row at due adds to }
{
    Row {
        at,
        due,
        adds,
        moves: Move::To(to),
    }
}

/// Returns the row of a fixed word that adds nothing.
fn word_row(at: At, word: Word, to: Place) -> Row
    ensures { result ≡ word_row at word to }
{
    line_row(at, Due::Word(word), Event::Nothing, to)
}

/// Returns the row of a number of variables, groups, operators or rules.
fn count_row(at: At, due: Due, to: Place) -> Row
    ensures { result ≡ count_row at due to }
{
    Row {
        at,
        due,
        adds: Event::Nothing,
        moves: Move::Count(to),
    }
}

/// Returns the row of the first line of one of these.
fn begin_row(at: At, word: Word, to: Place) -> Row
    ensures { result ≡ begin_row at word to }
{
    Row {
        at,
        due: Due::Word(word),
        adds: Event::Nothing,
        moves: Move::Begin(to),
    }
}

/// Returns the row of a number of facts or effects.
fn list_row(at: At, what: What, adds: Event, to: Place) -> Row
    ensures { result ≡ list_row at what adds to }
{
    Row {
        at,
        due: any_number(what),
        adds,
        moves: Move::List(to),
    }
}

/// Returns the row of a value, a fact or an effect of a list.
fn item_row(at: At, due: Due, adds: Event) -> Row
    ensures { result ≡ item_row at due adds }
{
    Row {
        at,
        due,
        adds,
        moves: Move::Item,
    }
}

impl Tracker {
    /// Returns the number of the next variable, group, operator or rule.
    fn next_number(&self) -> u32
        ensures { result ≡ next_number self.now }
    {
        self.total.saturating_sub(self.left)
    }

    /// Returns the number of the current variable, group, operator or rule.
    fn this_number(&self) -> u32
        ensures { result ≡ this_number self.now }
    {
        self.next_number().saturating_sub(1)
    }

    /// Returns the next variable in the initial state, counted from 0.
    fn next_variable(&self) -> usize
        ensures { result ≡ next_variable self.now }
    {
        self.ranges.len().saturating_sub(self.more)
    }

    /// Returns the greatest value of the next variable in the initial state.
    pub fn most_value(&self) -> u32
        ensures { result ≡ most_value self.now }
    {
        match self.ranges.get(self.next_variable()) {
            Some(&range) => range.saturating_sub(1),
            None => 0,
        }
    }

    /// Returns what is expected as the value of the next variable in the initial state.
    fn value_due(&self) -> Due
        ensures { result ≡ value_due self.now }
    {
        Due::Number {
            what: What::ValueOf(self.next_variable()),
            least: 0,
            most: self.most_value(),
        }
    }

    /// Returns the row of the next line in the table of places.
    pub fn row(&self) -> Row
        ensures { IsRow self.now result }
    {
        let next = self.next_number();
        let this = self.this_number();
        let variable = At::Variable(this);
        let group = At::Group(this);
        let operator = At::Operator(this);
        let rule = At::Rule(this);
        match self.place {
            Place::VersionBegin => word_row(At::Version, Word::BeginVersion, Place::VersionNumber),
            Place::VersionNumber => line_row(
                At::Version,
                VERSION,
                Event::Nothing,
                Place::VersionEnd,
            ),
            Place::VersionEnd => word_row(At::Version, Word::EndVersion, Place::MetricBegin),
            Place::MetricBegin => word_row(At::Metric, Word::BeginMetric, Place::MetricNumber),
            Place::MetricNumber => line_row(At::Metric, METRIC, Event::Metric, Place::MetricEnd),
            Place::MetricEnd => word_row(At::Metric, Word::EndMetric, Place::VariableCount),
            Place::VariableCount => count_row(
                At::Variables,
                positive_number(What::Variables),
                Place::Variables,
            ),
            Place::Variables if self.left == 0 => count_row(
                At::Groups,
                any_number(What::Groups),
                Place::Groups,
            ),
            Place::Variables => begin_row(
                At::Variable(next),
                Word::BeginVariable,
                Place::VariableName,
            ),
            Place::VariableName => line_row(
                variable,
                Due::Name(What::Variable),
                Event::Name,
                Place::VariableLayer,
            ),
            Place::VariableLayer => line_row(
                variable,
                Due::Layer,
                Event::Layer,
                Place::VariableRange,
            ),
            Place::VariableRange => Row {
                at: variable,
                due: positive_number(What::Range),
                adds: Event::Values,
                moves: Move::Range(Place::VariableValues),
            },
            Place::VariableValues if self.more == 0 => line_row(
                variable,
                Due::Word(Word::EndVariable),
                Event::Variable,
                Place::Variables,
            ),
            Place::VariableValues => item_row(variable, Due::Name(What::Value), Event::Value),
            Place::Groups if self.left == 0 => Row {
                at: At::State,
                due: Due::Word(Word::BeginState),
                adds: Event::Nothing,
                moves: Move::State(Place::StateValues),
            },
            Place::Groups => begin_row(At::Group(next), Word::BeginMutexGroup, Place::GroupSize),
            Place::GroupSize => list_row(group, What::Facts, Event::Facts, Place::GroupFacts),
            Place::GroupFacts if self.more == 0 => line_row(
                group,
                Due::Word(Word::EndMutexGroup),
                Event::Group,
                Place::Groups,
            ),
            Place::GroupFacts => item_row(group, Due::Fact, Event::Fact),
            Place::StateValues if self.more == 0 => word_row(
                At::State,
                Word::EndState,
                Place::GoalBegin,
            ),
            Place::StateValues => item_row(At::State, self.value_due(), Event::State),
            Place::GoalBegin => word_row(At::Goal, Word::BeginGoal, Place::GoalSize),
            Place::GoalSize => list_row(At::Goal, What::Facts, Event::Nothing, Place::GoalFacts),
            Place::GoalFacts if self.more == 0 => word_row(
                At::Goal,
                Word::EndGoal,
                Place::OperatorCount,
            ),
            Place::GoalFacts => item_row(At::Goal, Due::Fact, Event::Goal),
            Place::OperatorCount => count_row(
                At::Operators,
                any_number(What::Operators),
                Place::Operators,
            ),
            Place::Operators if self.left == 0 => count_row(
                At::Rules,
                any_number(What::Rules),
                Place::Rules,
            ),
            Place::Operators => begin_row(
                At::Operator(next),
                Word::BeginOperator,
                Place::OperatorName,
            ),
            Place::OperatorName => line_row(
                operator,
                Due::Name(What::Operator),
                Event::Name,
                Place::PrevailCount,
            ),
            Place::PrevailCount => list_row(operator, What::Prevail, Event::Facts, Place::Prevail),
            Place::Prevail if self.more == 0 => list_row(
                operator,
                What::Effects,
                Event::Effects,
                Place::Effects,
            ),
            Place::Prevail => item_row(operator, Due::Fact, Event::Fact),
            Place::Effects if self.more == 0 => line_row(
                operator,
                any_number(What::Cost),
                Event::Operator,
                Place::OperatorEnd,
            ),
            Place::Effects => item_row(operator, Due::Effect, Event::Effect),
            Place::OperatorEnd => word_row(operator, Word::EndOperator, Place::Operators),
            Place::Rules if self.left == 0 => line_row(
                At::End,
                Due::Nothing,
                Event::Nothing,
                Place::Rules,
            ),
            Place::Rules => begin_row(At::Rule(next), Word::BeginRule, Place::RuleSize),
            Place::RuleSize => list_row(
                rule,
                What::Conditions,
                Event::Facts,
                Place::RuleConditions,
            ),
            Place::RuleConditions if self.more == 0 => line_row(
                rule,
                Due::Head,
                Event::Rule,
                Place::RuleEnd,
            ),
            Place::RuleConditions => item_row(rule, Due::Fact, Event::Fact),
            Place::RuleEnd => word_row(rule, Word::EndRule, Place::Rules),
        }
    }
}
