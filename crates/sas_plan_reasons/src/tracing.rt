// The trace of a plan, which is written as its steps are made once more.
ghost use Rattle.std.specs.Prelude.{◌≡◌, ◌↔◌, ◌<◌, ◌∷◌, ◌++◌, ℕ, List, Option, Some, false, IfErr, IsErrAnd, IsTrue, [], length, slice_index, slice_set, IfOk, IfSome};
ghost use Rattle.std.specs.List.Sorted.{IsNonDecreasing};
ghost use Rattle.sas_core.specs.Grounded.{operator_at};
ghost use Rattle.sas_core.specs.Variables.{IsState};
ghost use Rattle.sas_lines.specs.Lines.{text};
ghost use Rattle.sas_meaning.specs.Following.{ListsDerived};
ghost use Rattle.sas_meaning.specs.Steps.{Step};
ghost use Rattle.sas_answers.specs.Facts.{initial_lines};
ghost use Rattle.std.specs.Io.KnownBytes.{Appends};
ghost use Rattle.sas_answers.specs.Ending.{EndsCounting, IsWrite};
ghost use Rattle.sas_answers.specs.Line.{reasons_text};
ghost use Rattle.sas_answers.specs.Wording.{steps_of};
ghost use Rattle.sas_answers.specs.Sink.{Pushed, Pushes, empty_piece};
ghost use Rattle.sas_plan_reasons.specs.Tracing.{sink_of};
ghost use Rattle.sas_plan_reasons.specs.Noting.{CanList, ListCoversChanges};
ghost use Rattle.sas_plan_reasons.specs.Retracing.{change_text};
ghost use Rattle.sas_plan_reasons.specs.Trace.{change_lines, step_line};

use crate::changes::copy_of;
use crate::listing::Listing;
use sas_answers::{
    Line, NameSource, NumberedLine, Pieces, Sink, Status, ToolFault, Word, Words, push_lines,
    value_name,
};
use sas_core::{Fact, Grounded};
use sas_flat::FlatTask;
use sas_lines::Watched;
use sas_meaning::{Layered, State};
use sas_run::Observer;
use std::alloc::{AllocError, Global};
use std::io::Write;

/// A trace on its way to a device: the parts of a `Sink`, and what was printed. It has no `Sink`, since the prover follows only the references
/// that are fields themselves.
#[derive(Drop)]
pub struct Tracer<'w, W> {
    pub out: &'w mut Watched<W>,
    pub pieces: &'w mut Pieces,
    pub printed: &'w mut Printed,
    pub short: usize,
    pub status: Status,
}

impl<'w, W: Write> Tracer<'w, W> {
    /// Opens the trace of a plan with a verdict of this status, as `Sink::new` does.
    pub fn new(
        status: Status,
        printed: &'w mut Printed,
        pieces: &'w mut Pieces,
        out: &'w mut Watched<W>,
    ) -> Tracer<'w, W>
        requires failed { out.old.failed ≡ false }
        requires empty { pieces.old ≡ empty_piece }
        ensures same { result.out.ghost_name ≡ out.entry.ghost_name }
        ensures status { result.status ≡ status }
        ensures printed { result.printed.now ≡ printed.old }
        ensures text { Pushed W.contents (W.contents out.old.device) (sink_of result) [] }
    {
        Tracer {
            out,
            pieces,
            printed,
            short: 0,
            status,
        }
    }

    /// Adds the lines of the initial state to the text.
    pub fn push_initial(&mut self, task: &Layered<FlatTask>, state: &State)
        requires { length state.now ≡ length task.now.variables }
        ensures pushes { Pushes W.contents (sink_of self.old) (sink_of self.new)
            (text (initial_lines task.now.variables state.now)) }
        ensures printed { self.new.printed.now ≡ self.old.printed.now }
    {
        let mut sink = Sink {
            out: self.out,
            pieces: self.pieces,
            short: self.short,
            status: self.status,
        };
        push_initial_lines(&mut sink, task, state);
        self.short = sink.short;
    }

    /// Adds the answer to the text: these bytes, and after them the lines of its reasons.
    pub fn push_answer(&mut self, verdict: &[u8], source: &NameSource<'_>, reasons: &[Line])
        ensures { Pushes W.contents (sink_of self.old) (sink_of self.new) (verdict.now
            ++ reasons_text source.now.task.now (steps_of source.now.plan) reasons.now) }
    {
        let mut sink = Sink {
            out: self.out,
            pieces: self.pieces,
            short: self.short,
            status: self.status,
        };
        sink.push(verdict);
        push_lines(&mut sink, source, reasons);
        self.short = sink.short;
    }

    /// Writes what is held back, and returns the answer's status, or that a write failed, as `Sink::finish` does.
    pub fn finish(&mut self) -> Result<Status, ToolFault>
        ensures same { self.new.out.ghost_name ≡ self.old.out.ghost_name }
        ensures ends { (start : Option (List ℕ)) (text : List ℕ)
            → Pushed W.contents start (sink_of self.old) text
            → EndsCounting
            (λ output. output ≡ Some (record { text = text; status = self.old.status }))
            (Appends start (W.contents self.new.out.now.device)) result }
        ensures note { IsErrAnd result IsWrite ↔ IsTrue self.new.out.now.failed }
        ensures write { IfErr result IsWrite }
    {
        let sink = Sink {
            out: self.out,
            pieces: self.pieces,
            short: self.short,
            status: self.status,
        };
        sink.finish()
    }
}

impl<'w, W: Write> Observer<FlatTask> for Tracer<'w, W> {
    ghost use Rattle.std.specs.Prelude.{⊤};
    ghost use Rattle.sas_plan_reasons.specs.Tracing.{HasTraced};

    ghost admits = { λ t p step operator. ⊤ };

    ghost sees = { HasTraced W.contents };

    fn observe(
        &mut self,
        task: &Layered<FlatTask>,
        step: usize,
        operator: u32,
        derived: Option<&[u32]>,
        state: &State,
    ) {
        let mut sink = Sink {
            out: self.out,
            pieces: self.pieces,
            short: self.short,
            status: self.status,
        };
        push_step_line(&mut sink, task, step, operator);
        self.printed.list(task, operator, derived, state);
        self.printed.push_listed(&mut sink, task, state);
        self.short = sink.short;
    }
}

/// The values of the variables, as they were printed so far. Only `new` takes memory.
#[derive(Drop)]
pub struct Printed {
    pub values: State,
    pub listing: Listing,
}

impl Printed {
    /// Returns the values of this state, with which a trace begins.
    pub fn new(
        alloc: Global,
        task: &Layered<FlatTask>,
        state: &State,
    ) -> Result<Printed, AllocError>
        requires { IsState task.now.variables state.now }
        ensures values { IfOk result (λ p. p.values ≡ state.now) }
        ensures listing { IfOk result (λ p. CanList task.now p.listing) }
    {
        Ok(Printed {
            values: copy_of(alloc, task, state)?,
            listing: Listing::new(alloc, task)?,
        })
    }

    /// Lists the variables whose values the step of this operator may have changed, in ascending order. It led to this state. `derived` has
    /// the derived ones, if they are known.
    fn list(
        &mut self,
        task: &Layered<FlatTask>,
        operator: u32,
        derived: Option<&[u32]>,
        state: &State,
    )
        requires listing { CanList task.now self.old.listing }
        requires operator { operator < length task.now.operators }
        requires fits { length self.old.values ≡ length task.now.variables }
        requires step { Step task.now self.old.values (operator_at task.now operator) state.now }
        requires derived { IfSome derived (λ listed.
            ListsDerived task.now self.old.values state.now listed.now) }
        ensures cover { ListCoversChanges self.new.values state.now self.new.listing.vars.items }
        ensures ascending { IsNonDecreasing self.new.listing.vars.items }
        ensures listing { CanList task.now self.new.listing }
        ensures values { self.new.values ≡ self.old.values }
    {
        self.listing
            .list(task, operator, derived, &self.values, state);
        self.listing.vars.sort_unstable();
    }

    /// Adds the lines of the variables that are listed, where their values in the state aren't those that were printed. All others
    /// have the values that were printed.
    fn push_listed<W: Write>(
        &mut self,
        sink: &mut Sink<'_, W>,
        task: &Layered<FlatTask>,
        state: &State,
    )
        requires fits { length self.old.values ≡ length task.now.variables }
        requires state { length state.now ≡ length task.now.variables }
        requires cover { ListCoversChanges self.old.values state.now self.old.listing.vars.items }
        requires ascending { IsNonDecreasing self.old.listing.vars.items }
        ensures pushes { Pushes W.contents sink.old sink.new
            (text (change_lines task.now self.old.values state.now)) }
        ensures printed { self.new.values ≡ state.now }
        ensures listing { self.new.listing ≡ self.old.listing }
    {
        for index in 0..self.listing.vars.len() {
            let var = self.listing.vars[index];
            self.push_change(sink, task, state, var);
        }
    }

    /// Adds the line of the variable, if its value in the state isn't the one that was printed.
    fn push_change<W: Write>(
        &mut self,
        sink: &mut Sink<'_, W>,
        task: &Layered<FlatTask>,
        state: &State,
        var: u32,
    )
        requires printed { var < length self.old.values }
        requires state { var < length state.now }
        ensures pushes { Pushes W.contents sink.old sink.new
            (change_text task.now self.old.values state.now var) }
        ensures printed { self.new.values
            ≡ slice_set self.old.values var (slice_index state.now var) }
        ensures listing { self.new.listing ≡ self.old.listing }
    {
        let before = self.values.value(var);
        let value = state.value(var);
        if before == value {
            return;
        }
        self.values.set(Fact { var, value });
        sink.push_numbered(NumberedLine {
            word: b"change",
            first: u64::from(var),
            second: u64::from(before),
            third: u64::from(value),
            name: value_name(task.task(), Fact { var, value }),
        });
    }
}

/// Adds the line of a step by this operator to the text.
fn push_step_line<W: Write>(
    sink: &mut Sink<'_, W>,
    task: &Layered<FlatTask>,
    step: usize,
    operator: u32,
)
    requires { operator < length task.now.operators }
    ensures { Pushes W.contents sink.old sink.new (step_line task.now step operator ++ 10 ∷ []) }
{
    sink.push_numbered(NumberedLine {
        word: b"step",
        first: step as u64,
        second: u64::from(operator),
        third: u64::from(task.cost(operator)),
        name: task.name(operator),
    });
}

/// Adds the lines of the initial state to the text.
fn push_initial_lines<W: Write>(sink: &mut Sink<'_, W>, task: &Layered<FlatTask>, state: &State)
    requires { length state.now ≡ length task.now.variables }
    ensures { Pushes W.contents sink.old sink.new
        (text (initial_lines task.now.variables state.now)) }
{
    for var in 0..task.variables() {
        let value = state.value(var);
        let rest = [
            Word::Number(u64::from(var)),
            Word::Number(u64::from(value)),
            Word::Text(value_name(task.task(), Fact { var, value })),
        ];
        sink.push_line(Words {
            first: b"initial",
            rest: &rest,
        });
    }
}
