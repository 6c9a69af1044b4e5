// Accepts the first line of some bytes directly, if it is one of many alike: a value's name, a fact, a value of the initial state or an
// effect. A list of these may be too long to be read at once. All other lines, and all faults, are left to `take`.
ghost use Rattle.std.specs.Prelude.{◌≡◌, IfSome, IfNone};
ghost use Rattle.sas_task_file.specs.declared.marks.Due.TheVariants as due;
ghost use Rattle.sas_task_file.specs.declared.marks.What.TheVariants as what;
ghost use Rattle.sas_task_file.specs.declared.places.Event.TheVariants as adds;
ghost use Rattle.sas_task_file.specs.declared.places.Move.TheVariants as moves;
ghost use Rattle.sas_task_file.specs.Tracker.{value_due};
ghost use Rattle.sas_task_reader.specs.TaskJudge.{HasRow, MovesAhead};

use super::TaskJudge;
use sas_reader::LineEnd;
use sas_task_file::{
    Event, Place, change_in, read_effect, read_fact, read_name, read_number_line, value_in,
};

impl TaskJudge {
    /// Accepts the name of a value.
    #[inline(always)]
    fn name_ahead<'a, E: LineEnd>(&mut self, bytes: &'a [u8]) -> Option<(Event, &'a [u8])>
        requires { HasRow self.old.tracker (due.Name what.Value) adds.Value moves.Item }
        ensures some { IfSome result (λ a. MovesAhead self.old bytes.now self.new a.0 a.1.now) }
        ensures none { IfNone result (self.new ≡ self.old) }
    {
        let (_name, rest) = read_name::<E>(bytes)?;
        self.tracker.more = self.tracker.more.saturating_sub(1);
        Some((Event::Value, rest))
    }

    /// Accepts a fact of a group or of the goal, a prevail condition, or a condition of a rule.
    #[inline(always)]
    fn fact_ahead<'a, E: LineEnd>(
        &mut self,
        bytes: &'a [u8],
        event: Event,
    ) -> Option<(Event, &'a [u8])>
        requires { HasRow self.old.tracker due.Fact event moves.Item }
        ensures some { IfSome result (λ a. MovesAhead self.old bytes.now self.new a.0 a.1.now) }
        ensures none { IfNone result (self.new ≡ self.old) }
    {
        let (fact, rest) = read_fact::<E>(bytes)?;
        if !value_in(&self.tracker.ranges, fact.var, fact.value) {
            return None;
        }
        self.said.fact = fact;
        self.tracker.more = self.tracker.more.saturating_sub(1);
        Some((event, rest))
    }

    /// Accepts the value of the next variable.
    #[inline(always)]
    fn state_value_ahead<'a, E: LineEnd>(&mut self, bytes: &'a [u8]) -> Option<(Event, &'a [u8])>
        requires { HasRow self.old.tracker (value_due self.old.tracker) adds.State moves.Item }
        ensures some { IfSome result (λ a. MovesAhead self.old bytes.now self.new a.0 a.1.now) }
        ensures none { IfNone result (self.new ≡ self.old) }
    {
        let (value, rest) = read_number_line::<E>(bytes)?;
        if value > self.tracker.most_value() {
            return None;
        }
        self.said.number = value;
        self.tracker.more = self.tracker.more.saturating_sub(1);
        Some((Event::State, rest))
    }

    /// Accepts an effect without conditions.
    #[inline(always)]
    fn effect_ahead<'a, E: LineEnd>(&mut self, bytes: &'a [u8]) -> Option<(Event, &'a [u8])>
        requires { HasRow self.old.tracker due.Effect adds.Effect moves.Item }
        ensures some { IfSome result (λ a. MovesAhead self.old bytes.now self.new a.0 a.1.now) }
        ensures none { IfNone result (self.new ≡ self.old) }
    {
        let (change, rest) = read_effect::<E>(bytes)?;
        if !change_in(&self.tracker.ranges, change.var, change.old, change.new) {
            return None;
        }
        self.said.say_effect(change);
        self.tracker.more = self.tracker.more.saturating_sub(1);
        Some((Event::Effect, rest))
    }

    /// Accepts the first line of the bytes if it is one of many alike and is allowed here. Returns what it adds, and
    /// the bytes after it. Otherwise returns `None` and changes nothing; then `take` has to judge the line.
    #[inline(always)]
    pub fn take_ahead<'a, E: LineEnd>(&mut self, bytes: &'a [u8]) -> Option<(Event, &'a [u8])>
        ensures some { IfSome result (λ a. MovesAhead self.old bytes.now self.new a.0 a.1.now) }
        ensures none { IfNone result (self.new ≡ self.old) }
    {
        if self.tracker.more == 0 {
            return None;
        }
        let event = match self.tracker.place {
            Place::VariableValues => return self.name_ahead::<E>(bytes),
            Place::StateValues => return self.state_value_ahead::<E>(bytes),
            Place::Effects => return self.effect_ahead::<E>(bytes),
            Place::GroupFacts | Place::Prevail | Place::RuleConditions => Event::Fact,
            Place::GoalFacts => Event::Goal,
            _ => return None,
        };
        self.fact_ahead::<E>(bytes, event)
    }
}
