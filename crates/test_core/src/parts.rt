// Parses the parts of a task, also of one that no file contains.
use sas_core::{Effect, Fact, Items, Operator, Parts, Variable};
use std::alloc::Global;
use test_words::{cut, fact_of, number_in};

/// The words that are left. `;` ends a word.
#[derive(Drop)]
struct Words<'a> {
    rest: &'a [u8],
}

impl<'a> Words<'a> {
    /// Returns the next word.
    fn word(&mut self) -> &'a [u8] {
        let (word, rest) = cut(self.rest, b';');
        self.rest = rest;
        word
    }

    /// Returns the next word as a number, or `None` if it isn't one.
    fn optional(&mut self) -> Option<u32> {
        number_in(self.word())
    }

    /// Returns the next word as a number.
    fn number(&mut self) -> u32 {
        self.optional().unwrap_or(0)
    }
}

/// What some words describe: its fields in order. A list is its length and its items. Without memory a list is cut short.
trait FromWords: Drop {
    fn described(alloc: Global, words: &mut Words<'_>) -> Self;
}

/// Returns the list that the next words describe.
fn list_of<T: FromWords>(alloc: Global, words: &mut Words<'_>) -> Items<T> {
    let mut items = Items::new(alloc);
    for _ in 0..words.number() {
        let _ = items.push(T::described(alloc, words));
    }
    items
}

impl FromWords for u32 {
    fn described(_alloc: Global, words: &mut Words<'_>) -> u32 {
        words.number()
    }
}

impl FromWords for Fact {
    fn described(_alloc: Global, words: &mut Words<'_>) -> Fact {
        fact_of(words.word()).unwrap_or(Fact { var: 0, value: 0 })
    }
}

impl FromWords for Items<u8> {
    fn described(alloc: Global, words: &mut Words<'_>) -> Items<u8> {
        Items::from_vec(Vec::from_slice(alloc, words.word()).unwrap_or(Vec::new(alloc)))
    }
}

impl FromWords for Items<Fact> {
    fn described(alloc: Global, words: &mut Words<'_>) -> Items<Fact> {
        list_of(alloc, words)
    }
}

impl FromWords for Variable {
    fn described(alloc: Global, words: &mut Words<'_>) -> Variable {
        Variable {
            name: Items::described(alloc, words),
            layer: words.optional(),
            values: list_of(alloc, words),
        }
    }
}

/// An effect or a rule.
impl FromWords for Effect {
    fn described(alloc: Global, words: &mut Words<'_>) -> Effect {
        Effect {
            conditions: list_of(alloc, words),
            var: words.number(),
            old: words.optional(),
            new: words.number(),
        }
    }
}

impl FromWords for Operator {
    fn described(alloc: Global, words: &mut Words<'_>) -> Operator {
        Operator {
            name: Items::described(alloc, words),
            prevail: list_of(alloc, words),
            effects: list_of(alloc, words),
            cost: words.number(),
        }
    }
}

/// Returns the parts that the bytes describe.
pub fn parts_of(alloc: Global, bytes: &[u8]) -> Parts {
    let mut words = Words { rest: bytes };
    let words = &mut words;
    Parts {
        metric: words.number() == 1,
        variables: list_of(alloc, words),
        groups: list_of(alloc, words),
        init: list_of(alloc, words),
        goal: list_of(alloc, words),
        operators: list_of(alloc, words),
        rules: list_of(alloc, words),
    }
}

/// Returns the names that the bytes describe.
pub fn names_of(alloc: Global, bytes: &[u8]) -> Items<Items<u8>> {
    list_of(alloc, &mut Words { rest: bytes })
}
