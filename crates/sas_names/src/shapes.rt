// Shapes of names. A name whose shape no step's name has is the name of no step.
ghost use Rattle.std.specs.Prelude.{◌≡◌, ◌<◌, IfOk, false, slice_index_or};
ghost use Rattle.sas_names.specs.Shapes.{shape_of, HaveShapes};

use sas_core::Stepwise;
use std::alloc::{AllocError, Global};

/// How many shapes there are.
const SHAPES: usize = 4096;

/// Returns for each shape whether the name of one of the plan's steps has it.
pub fn shapes_of_steps<P: Stepwise>(alloc: Global, plan: &P) -> Result<Vec<bool>, AllocError>
    ensures { IfOk result (λ shapes. HaveShapes (P.says plan.now).steps shapes.items) }
{
    let mut shapes = vec![in alloc; false; SHAPES]?;
    for step in 0..plan.steps() {
        shapes[shape(plan.step(step))] = true;
    }
    Ok(shapes)
}

/// Returns whether one of the names of which these are the shapes has the shape of this name.
#[inline(always)]
pub fn is_shape_of(shapes: &[bool], name: &[u8]) -> bool
    ensures { result ≡ slice_index_or shapes.now (shape_of name.now) false }
{
    match shapes.get(shape(name)) {
        Some(seen) => *seen,
        None => false,
    }
}

/// Returns the shape of the name. It takes less time than the digest, but many more names have the same shape.
#[inline(always)]
fn shape(name: &[u8]) -> usize
    ensures is { result ≡ shape_of name.now }
    ensures below { result < 4096 }
{
    let length = name.len();
    let last = byte_at(name, length.saturating_sub(1));
    let middle = byte_at(name, length / 2);
    (length % 16 * 16 + last % 16) * 16 + middle % 16
}

/// Returns the byte at this place, or 0 if there is none.
#[inline(always)]
fn byte_at(name: &[u8], place: usize) -> usize
    ensures { result ≡ slice_index_or name.now place 0 }
{
    match name.get(place) {
        Some(byte) => usize::from(*byte),
        None => 0,
    }
}
