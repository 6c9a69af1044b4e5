// The operator with a similar name.
ghost use Rattle.std.specs.Prelude.{◌≡◌, ◌↔◌, map, sum, sum_by, IfOk, IsTrue};
ghost use Rattle.std.specs.Char.{to_ascii_lowercase};
ghost use Rattle.sas_plan_reasons.specs.Words.{parts, words};
ghost use Rattle.sas_plan_reasons.specs.MayMean.{similar_operator};
ghost use Rattle.sas_plan_reasons.specs.Similar.{IsSought, IsLikeness, AreSorted};

use crate::words::{parts_of, sum_of_words};
use sas_core::Grounded;
use std::alloc::{AllocError, Global};

/// How the words of a name are those that are sought.
pub enum Likeness {
    /// They are the same, in the same order.
    Same,
    /// They are the same, in another order.
    Permuted,
    /// They are others.
    Other,
}

/// The words of a name that is sought among others.
#[derive(Drop)]
pub struct Sought<'t> {
    words: Vec<&'t [u8]>,
    /// The words in ascending order.
    sorted: Vec<&'t [u8]>,
    /// The sum of their bytes.
    sum: u128,
}

/// Returns the lowest operator whose name has the words of this name in the same order. If there is none, returns the lowest whose name
/// has them in some order.
pub fn similar<T: Grounded>(alloc: Global, task: &T, name: &[u8]) -> Result<Option<u32>, AllocError>
    ensures { IfOk result (λ similar. similar ≡ similar_operator (T.says task.now) name.now) }
{
    let text = name.to_ascii_lowercase(alloc)?;
    let sought = Sought::new(alloc, name, text.as_slice())?;
    let mut permuted = None;
    for operator in 0..task.operators() {
        match sought.likeness(alloc, task.name(operator))? {
            Likeness::Same => return Ok(Some(operator)),
            Likeness::Permuted => permuted = permuted.or(Some(operator)),
            Likeness::Other => {}
        }
    }
    Ok(permuted)
}

impl<'t> Sought<'t> {
    /// Returns the words of the name. `text` is the name in lower case.
    fn new(alloc: Global, name: &[u8], text: &'t [u8]) -> Result<Sought<'t>, AllocError>
        requires { text.now ≡ map to_ascii_lowercase name.now }
        ensures { IfOk result (IsSought (words name.now)) }
    {
        Ok(Sought {
            words: parts_of(alloc, text)?,
            sorted: sorted_parts(alloc, text)?,
            sum: sum_of_words(name),
        })
    }

    /// Returns how the words of the name are those that are sought. They are compared only if they have the same bytes in sum.
    fn likeness(&self, alloc: Global, name: &[u8]) -> Result<Likeness, AllocError>
        requires { IsSought (map (λ word. word.now) self.now.words.items) self.now }
        ensures { IfOk result (IsLikeness (map (λ word. word.now) self.now.words.items)
            (words name.now)) }
    {
        if sum_of_words(name) != self.sum {
            return Ok(Likeness::Other);
        }
        let text = name.to_ascii_lowercase(alloc)?;
        let words = parts_of(alloc, text.as_slice())?;
        if are_same(words.as_slice(), self.words.as_slice()) {
            return Ok(Likeness::Same);
        }
        let sorted = sorted_parts(alloc, text.as_slice())?;
        if are_same(sorted.as_slice(), self.sorted.as_slice()) {
            return Ok(Likeness::Permuted);
        }
        Ok(Likeness::Other)
    }
}

/// Returns the parts of the text in ascending order.
fn sorted_parts<'t>(alloc: Global, text: &'t [u8]) -> Result<Vec<&'t [u8]>, AllocError>
    ensures { IfOk result (λ sorted.
        AreSorted (parts text.now) (map (λ part. part.now) sorted.items)) }
{
    let mut sorted = parts_of(alloc, text)?;
    sorted.sort()?;
    Ok(sorted)
}

/// Returns whether the words are the same, in the same order.
fn are_same(words: &[&[u8]], others: &[&[u8]]) -> bool
    ensures { IsTrue result
        ↔ (map (λ word. word.now) words.now ≡ map (λ word. word.now) others.now) }
{
    if words.len() != others.len() {
        return false;
    }
    for place in 0..words.len() {
        if words[place] != others[place] {
            return false;
        }
    }
    true
}
