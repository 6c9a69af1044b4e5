// Laws of task files.
ghost use Rattle.std.specs.Prelude.{Option};
ghost use Rattle.sas_reader.specs.About.{AboutLaws};
ghost use Rattle.sas_reader.specs.Laws.{Laws};
ghost use Rattle.sas_reader.specs.System.{Grammar};
ghost use Rattle.sas_task_file.specs.Beginnings.{OperatorsBegin, RulesBegin};
ghost use Rattle.sas_task_file.specs.TaskFormat.{TaskSlot, task_format, TaskLineFits};
ghost use Rattle.sas_task_file.specs.Marks.{OneDue, SomeDue};
ghost use Rattle.sas_task_file.specs.Counts.{OneCount, SomeCount};
ghost use Rattle.sas_task_file.specs.TaskLaws.{TaskIsFilled, OneCompletion, FillingsInBytes};
ghost use Rattle.sas_task_file.specs.TaskReasons.{OneTaskReason, OneWrongWord, SomeTaskReason, SomeWrongWord, WrongWordIsNamed};
ghost use Rattle.sas_task_file.specs.TaskStates.{table_node, table_start};

/// Ensures the laws of task files. No byte list is a text of two tasks. The texts of a task are its lines, each ended by LF or by CR LF.
/// Bytes have at most one fault, and are live exactly if they have none. Reading any bytes has exactly one result. Lines that begin a task
/// can be completed by fillings, in one way: `x` for a name, `-1` for a layer, `0 0` for a fact, `0 0 -1 0` for an effect, `0 -1 0` for a
/// head, 3 for the version, 1 for the number of variables and for a range, 0 for every other number. The table of places describes the
/// format: lines that it allows, from the first to the end, are those of a task, and it allows the lines of each task.
pub fn task_laws()
    ensures laws { Laws task_format }
    ensures filled { TaskIsFilled }
    ensures one_completion { OneCompletion }
    ensures fillings { (before : Option TaskSlot) → FillingsInBytes before }
    ensures grammar { Grammar task_format TaskLineFits table_node table_start }
{}

/// Ensures the laws about what is expected in task files, and about why a file is refused.
/// - After the same first lines, one thing is expected, at one location. Something is expected wherever a task has a line.
/// - After the same first lines, one count applies, or none. Of the first lines of each task, it is known which.
/// - A line has at most one first wrong word. It has one if a fact, a head or an effect is expected, the line has this shape, and no task
///   may have the line there.
/// - A fault is about at most one text and one list of accepted lines. It is about at least one text, unless a read failed, the bytes are
///   too long, or memory ran out.
/// - Each text that a fault is about has exactly one reason. The reason names the wrong word if a fact, a head or an effect is expected and
///   the line is refused for a value.
pub fn mark_laws()
    ensures one_due { OneDue }
    ensures some_due { SomeDue }
    ensures one_count { OneCount }
    ensures some_count { SomeCount }
    ensures one_wrong_word { OneWrongWord }
    ensures some_wrong_word { SomeWrongWord }
    ensures about { AboutLaws task_format }
    ensures one_reason { OneTaskReason }
    ensures some_reason { SomeTaskReason }
    ensures word_is_named { WrongWordIsNamed }
{}

/// Ensures where operators and rules begin: at their lines in the layout of the task.
pub fn line_number_laws()
    ensures operators { OperatorsBegin }
    ensures rules { RulesBegin }
{}
