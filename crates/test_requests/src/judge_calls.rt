// Calls of `judge` of `sas_requests` over devices, and of `judge_slices` over bytes in memory.

use crate::{LONGEST_READ, say_answer};
use sas_lines::Watched;
use sas_requests::{
    JudgeFault, PlanBytes, PlanInputs, Status, ToolFault, are_labels, judge, judge_slices,
};
use std::alloc::Global;
use test_words::{ScriptedReader, cut, narrow_of, say_number};

/// The answer of a run that is out of memory.
const OUT_OF_MEMORY: Result<Status, JudgeFault> = Err(JudgeFault::Tool(ToolFault::Memory));

/// Plans that are opened one after another, each with the text that its device follows. A plan with `?` alone can't be opened. Each opening
/// is printed.
#[derive(Clone, Copy)]
struct PlanList<'a> {
    rt: &'a HostRuntime,
    plans: &'a [PlanBytes<'a>],
}

impl<'a> PlanInputs for PlanList<'a> {
    ghost use Rattle.std.specs.Prelude.{◌≡◌, None};
    ghost use Rattle.sas_requests.specs.Slices.{labels_of};

    type Input = ScriptedReader<'a>;

    ghost labels = { λ list. labels_of list.plans.now };

    // The bytes that a device returns aren't known, since it follows a text.
    ghost bytes = { λ list number. None };

    // The list doesn't change.
    ghost open_gives = { λ before number given after. after ≡ before };

    fn count(&self) -> usize {
        self.plans.len()
    }

    fn label(&self, number: usize) -> &[u8] {
        self.plans[number].label
    }

    fn open(&mut self, number: usize) -> Option<ScriptedReader<'a>> {
        say_number(self.rt, "open", number as u64);
        let text = self.plans[number].bytes;
        if text == b"?".as_slice() {
            return None;
        }
        Some(ScriptedReader::new(text, LONGEST_READ))
    }
}

/// Parses plans. `&` separates plans. Each is its label, `:` and its bytes. Returns `None` if a label has a line end or there is no
/// memory. Without bytes, there are no plans.
fn plans_in(alloc: Global, words: &[u8]) -> Option<Vec<PlanBytes<'_>>> {
    let mut plans = Vec::new(alloc);
    if words.is_empty() {
        return Some(plans);
    }
    for word in words.split(|&byte| byte == b'&') {
        let (label, bytes) = cut(word, b':');
        plans.push(PlanBytes { label, bytes }).ok()?;
    }
    Some(plans)
}

/// Calls `judge` over readers that follow texts: `WRITER|PLANS|TASK`. Detects a call that is always out of memory, or that writes before
/// its answer is complete; a read that is repeated after it failed; and a read after the end, or into a larger buffer than documented.
pub fn judge_listed(rt: &HostRuntime, reasons: bool, bytes: &[u8]) -> Option<()> {
    let (writer, inputs) = cut(bytes, b'|');
    let (words, task) = cut(inputs, b'|');
    let plans = plans_in(rt.alloc(), words)?;
    let plans = plans.as_slice();
    if !are_labels(plans) {
        return None;
    }
    let mut task = Watched::new(ScriptedReader::new(task, LONGEST_READ));
    let mut out = Watched::new(narrow_of(rt.alloc(), writer)?);
    let mut list = PlanList { rt, plans };
    let answer = judge(rt.alloc(), reasons, &mut task, &mut list, &mut out);
    say_answer(rt, &answer, &OUT_OF_MEMORY, out.into_device().kept());
    Some(())
}

/// Calls `judge_slices` over bytes: `PLANS|TASK`. Detects a call that is always out of memory, and exchanged inputs.
pub fn judge_in_memory(rt: &HostRuntime, reasons: bool, bytes: &[u8]) -> Option<()> {
    let (words, task) = cut(bytes, b'|');
    let plans = plans_in(rt.alloc(), words)?;
    let plans = plans.as_slice();
    if !are_labels(plans) {
        return None;
    }
    match judge_slices(rt.alloc(), reasons, task, plans) {
        Ok(answer) => say_answer(
            rt,
            &Ok(answer.status),
            &OUT_OF_MEMORY,
            answer.text.as_slice(),
        ),
        Err(fault) => say_answer(rt, &Err(fault), &OUT_OF_MEMORY, &[]),
    }
    Some(())
}
