// Calls of `sas_core` on names, lists and plans.
ghost use Rattle.std.specs.Prelude.{◌≡◌, ◌↔◌, IsTrue};

use crate::parts::names_of;
use sas_core::{CostKind, Items, Plan, is_name};
use sas_text::encode_plan;
use std::alloc::Global;
use test_words::{
    TestCall, cut, number_in, plan_of, say, say_debug, say_either, say_number, say_text,
};

/// Makes the call if it is defined in this file.
pub fn call_of_plans(rt: &HostRuntime, asked: TestCall<'_>) -> Option<()> {
    match asked.call {
        "is-name" => say_debug(rt, &is_name(asked.bytes)),
        "items" => say_items(rt, asked.bytes)?,
        "new-plan" => new_plan(rt, asked.kind, asked.bytes),
        "encode-plan" => encode(rt, asked.bytes)?,
        "same-plans" => say_same_plans(rt, asked.bytes)?,
        _ => return None,
    }
    Some(())
}

/// Returns a list that has the bytes twice, but for the first one.
fn list_of(alloc: Global, bytes: &[u8]) -> Option<Items<u8>> {
    let mut list = Items::new(alloc);
    for byte in bytes {
        list.push(*byte).ok()?;
    }
    list.extend_from_slice(bytes).ok()?;
    Some(list)
}

/// Calls each method of `Items` once. Detects a method that is always out of memory.
fn say_items(rt: &HostRuntime, bytes: &[u8]) -> Option<()> {
    let mut list = list_of(rt.alloc(), bytes)?;
    say_number(rt, "items", list.len() as u64);
    say_debug(rt, &(list.get(0), list.get(list.len())));
    if !list.is_empty() {
        list.set(0, b'!');
    }
    let mut list = Items::from_vec(list.into_vec());
    say_debug(rt, &list.as_slice());
    list.clear();
    say_debug(rt, &list.is_empty());
    Some(())
}

/// Calls `Plan::new` with a cost, its kind, and steps: `COST;STEPS`. Prints the text of the plan. Detects a definition of plans that
/// allows a wrong step, or that counts steps from 0.
fn new_plan(rt: &HostRuntime, kind: &str, words: &[u8]) {
    let (cost, names) = cut(words, b';');
    let cost = u64::from(number_in(cost).unwrap_or(0));
    let kind = if kind == "unit" {
        CostKind::Unit
    } else {
        CostKind::General
    };
    match Plan::new(names_of(rt.alloc(), names), cost, kind) {
        Ok(plan) => say_text(rt, &encode_plan(rt.alloc(), &plan)),
        Err((_back, fault)) => say_debug(rt, &fault),
    }
}

/// Calls `encode_plan` with the plan of a file. Detects a call that is always out of memory.
fn encode(rt: &HostRuntime, file: &[u8]) -> Option<()> {
    let plan = plan_of(rt.alloc(), file)?;
    say_text(rt, &encode_plan(rt.alloc(), &plan));
    Some(())
}

/// Prints whether the plans of two files are equal. `|` separates the files. Detects an equality that ignores a field.
fn say_same_plans(rt: &HostRuntime, files: &[u8]) -> Option<()> {
    let (file, other) = cut(files, b'|');
    let plan = plan_of(rt.alloc(), file)?;
    let other = plan_of(rt.alloc(), other)?;
    say_either(rt, is_same_plan(&plan, &other), "equal", "different");
    Some(())
}

/// Returns whether two plans are equal, which means that they have the same parts.
fn is_same_plan(plan: &Plan, other: &Plan) -> bool
    ensures { IsTrue result ↔ (plan.now ≡ other.now) }
{
    plan == other
}
