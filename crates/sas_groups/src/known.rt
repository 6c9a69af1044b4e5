// The facts that hold when effects of an operator of a task fire.
ghost use Rattle.std.specs.Prelude.{◌≡◌, ◌<◌, length};
ghost use Rattle.std.specs.Iterator.{YieldsFirst, item_count};
ghost use Rattle.sas_groups.specs.Lists.{known_on, known_left};

use sas_core::{Fact, Grounded};
use sas_meaning::{Layered, Preconditions};

/// An operator and two lists of facts. The known facts are the preconditions of the operator and the facts of the lists.
#[derive(Clone, Copy)]
pub struct Premises<'a> {
    pub operator: u32,
    pub first: &'a [Fact],
    pub second: &'a [Fact],
}

/// Iterates over the preconditions of an operator, then over two lists of facts. `known_left` are the remaining facts.
#[derive(Drop)]
pub struct Known<'a, 'b, T: Grounded> {
    preconditions: Preconditions<'a, Layered<T>>,
    first: &'b [Fact],
    second: &'b [Fact],
}

impl<'a, 'b, T: Grounded> Known<'a, 'b, T> {
    /// Returns an iterator over all known facts of these premises.
    pub fn new(task: &'a Layered<T>, premises: &Premises<'b>) -> Known<'a, 'b, T>
        requires { premises.now.operator < length task.now.operators }
        ensures { known_left result ≡ known_on task.now premises.now }
    {
        Known {
            preconditions: Preconditions::new(task, premises.operator),
            first: premises.first,
            second: premises.second,
        }
    }
}

impl<'a, 'b, T: Grounded> Iterator for Known<'a, 'b, T> {
    type Item = Fact;

    ghost next_gives = { YieldsFirst known_left };

    ghost remaining = { item_count known_left };

    fn next(&mut self) -> Option<Fact> {
        if let Some(fact) = self.preconditions.next() {
            return Some(fact);
        }
        if let Some((fact, rest)) = self.first.split_first() {
            self.first = rest;
            return Some(*fact);
        }
        if let Some((fact, rest)) = self.second.split_first() {
            self.second = rest;
            return Some(*fact);
        }
        None
    }
}
