// The words of names.
ghost use Rattle.std.specs.Prelude.{◌≡◌, map, sum, sum_by, IfOk};
ghost use Rattle.sas_plan_reasons.specs.Words.{separates, parts, words};

use std::alloc::{AllocError, Global};

/// Returns whether the byte separates words.
#[inline(always)]
fn separates(byte: u8) -> bool
    ensures { result ≡ separates byte }
{
    match byte {
        b' ' | b'\t' | b'-' | b'_' | b'(' | b')' | b',' => true,
        _ => false,
    }
}

/// Returns the parts of the text between separators that aren't empty. If the text is a name in lower case, these are the name's words.
pub fn parts_of<'t>(alloc: Global, text: &'t [u8]) -> Result<Vec<&'t [u8]>, AllocError>
    ensures { IfOk result (λ found. map (λ part. part.now) found.items ≡ parts text.now) }
{
    text.split(|byte| separates(*byte))
        .filter(|part| !part.is_empty())
        .collect(alloc)
}

/// Returns the sum of the bytes of the name's words. It is the same in whatever order they are.
pub fn sum_of_words(name: &[u8]) -> u128
    ensures { result ≡ sum_by sum (words name.now) }
{
    let mut sum = 0u128;
    for byte in name {
        if !separates(*byte) {
            sum += u128::from(byte.to_ascii_lowercase());
        }
    }
    sum
}
