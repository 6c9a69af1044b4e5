// Accepts the lines of a task file: judges each line, and passes its content to a keeper.
ghost use Rattle.std.specs.Prelude.{◌≡◌, ◌≢◌, Ok, IfOk, IfErr, IfSome, IfNone};

use crate::keeper::Keeper;
use crate::task_judge::TaskJudge;
use sas_lines::without_return;
use sas_reader::{Front, Kind, LineEnd, Machine};
use sas_task_file::WrongWord;
use std::alloc::Global;

/// The judge of the lines, and the keeper of their content.
#[derive(Drop)]
pub struct TaskMachine<K> {
    pub judge: TaskJudge,
    pub kept: K,
    /// The wrong word of the refused line, if it was refused for a number.
    pub wrong: Option<WrongWord>,
}

impl<K: Keeper> TaskMachine<K> {
    ghost use Rattle.std.specs.Prelude.{[]};
    ghost use Rattle.sas_reader.specs.Machine.{AcceptsAhead};
    ghost use Rattle.sas_task_reader.specs.TaskMachine.{LedBy, IsFresh, MachineStopped};

    /// Returns a machine that has accepted no line, with this keeper.
    pub fn new(alloc: Global, kept: K) -> Self
        requires { IsFresh K.keeps kept }
        ensures led { LedBy K.keeps [] result }
    {
        TaskMachine {
            judge: TaskJudge::new(alloc),
            kept,
            wrong: None,
        }
    }

    /// Returns the keeper.
    pub fn into_kept(self) -> K
        ensures { result ≡ self.kept }
    {
        let TaskMachine { kept, .. } = self;
        kept
    }

    /// Stores the wrong word of a line that was refused, if any. Returns the kind of its fault, or `Memory` if out of memory.
    #[cold]
    fn refuse(&mut self, line: &[u8], kind: Kind) -> Kind
        ensures kind { result ≢ Kind.Memory → result ≡ kind }
        ensures stopped { result ≢ Kind.Memory → MachineStopped self.old line.now kind self.new }
        ensures some { kind ≡ Kind.Memory → result ≡ Kind.Memory }
    {
        self.wrong = None;
        if kind == Kind::Value {
            match self.judge.wrong_word(line) {
                Ok(word) => self.wrong = word,
                Err(_) => return Kind::Memory,
            }
        }
        kind
    }

    /// If a whole section starts here and the keeper stores it at once, moves past it. Otherwise returns `None`.
    fn section_ahead<E: LineEnd>(&mut self, bytes: &[u8]) -> Result<Option<Front>, Kind>
        ensures took { IfOk result (λ found. IfSome found (λ front.
            AcceptsAhead (LedBy K.keeps) self.old bytes.now self.new (Ok front))) }
        ensures none { IfOk result (λ found. IfNone found (self.new ≡ self.old)) }
        ensures memory { IfErr result (λ k. k ≡ Kind.Memory) }
    {
        let Some(section) = self.judge.section_due() else {
            return Ok(None);
        };
        let ranges = self.judge.ranges();
        let Some(kept) = self.kept.keep_section::<E>(section, ranges, bytes)? else {
            return Ok(None);
        };
        self.judge.pass_section(kept.range)?;
        Ok(Some(kept.front))
    }

    /// Accepts the first lines of the bytes that the judge accepts ahead, one after another. It is cold, since most lines are those of whole
    /// sections. What reads these then has all registers.
    #[cold]
    fn lines_ahead<E: LineEnd>(&mut self, bytes: &[u8]) -> Result<Front, Kind>
        ensures { AcceptsAhead (LedBy K.keeps) self.old bytes.now self.new result }
    {
        let mut lines = 0;
        let mut rest = bytes;
        while let Some((event, behind)) = self.judge.take_ahead::<E>(rest) {
            let line = without_return(&rest[..rest.len() - behind.len() - 1]);
            self.kept.keep(line, event, &mut self.judge.said)?;
            lines += 1;
            rest = behind;
        }
        Ok(Front {
            lines,
            bytes: bytes.len() - rest.len(),
        })
    }
}

impl<K: Keeper> Machine for TaskMachine<K> {
    ghost use Rattle.sas_task_reader.specs.TaskMachine.{task_behavior};

    ghost behavior = { task_behavior K.keeps };

    fn has_ended(&self) -> bool {
        self.judge.has_ended()
    }

    fn accept(&mut self, line: &[u8], number: u64) -> Result<(), Kind> {
        match self.judge.take(line, number) {
            Ok(event) => self.kept.keep(line, event, &mut self.judge.said),
            Err(kind) => Err(self.refuse(line, kind)),
        }
    }

    #[inline(always)]
    fn accept_ahead<E: LineEnd>(&mut self, bytes: &[u8]) -> Result<Front, Kind> {
        match self.section_ahead::<E>(bytes)? {
            Some(front) => Ok(front),
            None => self.lines_ahead::<E>(bytes),
        }
    }
}
