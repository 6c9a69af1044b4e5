// The numbers of items in a task file, with the lines on which they are.
ghost use Rattle.std.specs.Prelude.{◌≡◌};
ghost use Rattle.sas_task_file.specs.Tracker.{counts_start, after_count, count_at};

use crate::places::{Move, Place};

/// The line with the number of a list's items, counted from 1, and that number.
#[derive(Clone, Copy)]
pub struct ListCount {
    pub line: u64,
    pub number: u64,
}

/// The line with the number of variables.
const VARIABLES_LINE: u64 = 7;

impl ListCount {
    /// No line.
    const NONE: ListCount = ListCount { line: 0, number: 0 };

    /// Returns that this number is on this line.
    fn of(line: u64, number: u32) -> ListCount
        ensures { result ≡ record { line = line; number = number } }
    {
        ListCount {
            line,
            number: u64::from(number),
        }
    }
}

/// The last numbers of items among the lines so far.
#[derive(Clone, Copy)]
pub struct Counts {
    /// The last number of variables, groups, operators or rules.
    pub section: ListCount,
    /// The last number of values, facts or effects in one of these, or of facts of the goal.
    pub list: ListCount,
}

impl Counts {
    /// Returns the counts before the first line.
    pub fn new() -> Self
        ensures { result ≡ counts_start }
    {
        Counts {
            section: ListCount::NONE,
            list: ListCount::NONE,
        }
    }

    /// Notes the number on this line, if the line is a number of items.
    pub fn note(&mut self, by: Move, line: u64, number: u32)
        ensures { self.new ≡ after_count by line number self.old }
    {
        match by {
            Move::Count(_) => self.section = ListCount::of(line, number),
            Move::List(_) | Move::Range(_) => self.list = ListCount::of(line, number),
            _ => {}
        }
    }

    /// Returns the count of the list whose next item is expected at this place, or whose last item is directly before it. Returns `None` if
    /// there is no such list. The values of the state are counted by the number of variables, which is `variables`.
    pub fn at(&self, place: Place, variables: usize) -> Option<ListCount>
        ensures { result ≡ count_at place variables self.now }
    {
        match place {
            Place::Variables | Place::Groups | Place::Operators | Place::Rules => {
                Some(self.section)
            }
            Place::VariableValues
            | Place::GroupFacts
            | Place::GoalFacts
            | Place::Prevail
            | Place::Effects
            | Place::RuleConditions => Some(self.list),
            Place::StateValues => Some(ListCount {
                line: VARIABLES_LINE,
                number: variables as u64,
            }),
            _ => None,
        }
    }
}
