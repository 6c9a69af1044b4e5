// The lines of a task file: where they are, what is expected there, and which numbers are allowed.
ghost use Rattle.std.specs.Prelude.{◌≡◌};
ghost use Rattle.sas_task_file.specs.Marks.{fixed_word_bytes};

/// The location of a line in a task file: its section, and its variable, group, operator or rule, counted from 0. The plurals are the lines
/// with the counts.
#[derive(Clone, Copy)]
pub enum Location {
    Version,
    Metric,
    Variables,
    Variable(u32),
    Groups,
    Group(u32),
    State,
    Goal,
    Operators,
    Operator(u32),
    Rules,
    Rule(u32),
    /// After the last line.
    End,
}

/// A fixed word of the format.
#[derive(Clone, Copy)]
pub enum FixedWord {
    BeginVersion,
    EndVersion,
    BeginMetric,
    EndMetric,
    BeginVariable,
    EndVariable,
    BeginMutexGroup,
    EndMutexGroup,
    BeginState,
    EndState,
    BeginGoal,
    EndGoal,
    BeginOperator,
    EndOperator,
    BeginRule,
    EndRule,
}

impl FixedWord {
    /// Returns the bytes of the word in a file.
    pub fn bytes(self) -> &'static [u8]
        ensures { result.now ≡ fixed_word_bytes self }
    {
        match self {
            FixedWord::BeginVersion => b"begin_version",
            FixedWord::EndVersion => b"end_version",
            FixedWord::BeginMetric => b"begin_metric",
            FixedWord::EndMetric => b"end_metric",
            FixedWord::BeginVariable => b"begin_variable",
            FixedWord::EndVariable => b"end_variable",
            FixedWord::BeginMutexGroup => b"begin_mutex_group",
            FixedWord::EndMutexGroup => b"end_mutex_group",
            FixedWord::BeginState => b"begin_state",
            FixedWord::EndState => b"end_state",
            FixedWord::BeginGoal => b"begin_goal",
            FixedWord::EndGoal => b"end_goal",
            FixedWord::BeginOperator => b"begin_operator",
            FixedWord::EndOperator => b"end_operator",
            FixedWord::BeginRule => b"begin_rule",
            FixedWord::EndRule => b"end_rule",
        }
    }
}

/// What a name or a number is that has a line of its own.
#[derive(Clone, Copy)]
pub enum What {
    /// The name of a variable, a value, or an operator.
    Variable,
    Value,
    Operator,
    Version,
    Metric,
    /// How many variables, groups, operators or rules there are.
    Variables,
    Groups,
    Operators,
    Rules,
    /// How many values a variable has.
    Range,
    /// How many facts a group or the goal has.
    Facts,
    /// The value of this variable, counted from 0, in the initial state.
    ValueOf(usize),
    /// How many prevail conditions or effects an operator has, and its cost.
    Prevail,
    Effects,
    Cost,
    /// How many conditions a rule has.
    Conditions,
}

/// What is expected on a line of a task file.
#[derive(Clone, Copy)]
pub enum Due {
    /// This word.
    Word(FixedWord),
    /// A name.
    Name(What),
    /// A number from `least` to `most`.
    Number { what: What, least: u32, most: u32 },
    /// An axiom layer: a number, or `-1` for a basic variable.
    Layer,
    /// A fact: a variable and one of its values.
    Fact,
    /// The head of a rule (axiom): a variable, its old value or `-1`, and its new value.
    Head,
    /// An effect: the number of its conditions, each condition as a fact, and its change in the form of a head.
    Effect,
    /// Nothing: all lines have been read.
    Nothing,
}

/// The location of a line, and what is expected there.
#[derive(Clone, Copy)]
pub struct Mark {
    pub at: Location,
    pub due: Due,
}

/// The first word of a line that isn't an allowed number. Allowed are the numbers from 0 to `most`, and -1 if `may_be_none`.
#[derive(Clone, Copy)]
pub struct WrongWord {
    /// The number of the word in the line, counted from 1.
    pub word: u64,
    /// Whether -1 is allowed. It means no value.
    pub may_be_none: bool,
    pub most: u32,
}
