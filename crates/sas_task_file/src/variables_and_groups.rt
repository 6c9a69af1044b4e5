// Parses a whole variable or mutex group at the beginning of some bytes.
ghost use Rattle.std.specs.Prelude.{◌≡◌, ◌<◌, ℕ, List, [], ◌∷◌, ◌++◌, length, codes, IfOk, IfSome};
ghost use Rattle.sas_core.specs.declared.parts.Fact.{Fact};
ghost use Rattle.sas_core.specs.Names.{IsName};
ghost use Rattle.sas_flat.specs.Growing.{Kept};
ghost use Rattle.sas_flat.specs.Variables.{variable};
ghost use Rattle.sas_task_file.specs.TaskFormat as format;
ghost use Rattle.sas_task_file.specs.Ahead.{LinesBefore, NamesBefore};
ghost use Rattle.sas_task_file.specs.Sections.{VariableAhead, GroupAhead};

use crate::ahead::{read_name, read_number, read_signed, read_word};
use crate::sections::read_facts;
use sas_core::{Fact, Items};
use sas_flat::Lists;
use sas_reader::{Front, LineEnd};
use std::alloc::AllocError;

/// A variable at the beginning of some bytes: its name, its layer, the number of its values, and its extent.
#[derive(Drop)]
pub struct ParsedVariable<'a> {
    pub name: &'a [u8],
    pub layer: Option<u32>,
    pub range: u32,
    pub front: Front,
}

/// Reads the first word, the name and the axiom layer of a variable. Returns the name, the layer and the bytes after them.
#[inline(always)]
fn read_variable_begin<E: LineEnd>(bytes: &[u8]) -> Option<(&[u8], Option<u32>, &[u8])>
    ensures { IfSome result (λ found. IsName found.0.now
        × LinesBefore (format.word (codes "begin_variable")
        ∷ format.name found.0.now ∷ format.signed found.1 ∷ []) bytes.now found.2.now) }
{
    let rest = read_word::<E, _>(bytes, b"begin_variable")?;
    let (name, rest) = read_name::<E>(rest)?;
    let (layer, rest) = read_signed::<E>(rest, b'\n')?;
    Some((name, layer, rest))
}

/// Reads a positive count and this many names, and appends these to `names`. Returns the count and the bytes after them. Returns `None` if
/// the lines have another form. After `None` or `Err` some names may have been appended.
#[inline(always)]
fn names_before<'a, E: LineEnd>(
    bytes: &'a [u8],
    names: &mut Lists<u8>,
) -> Result<Option<(u32, &'a [u8])>, AllocError>
    ensures found { IfOk result (λ found. IfSome found (λ f. 0 < f.0
        × NamesBefore f.0 f.0 names.old names.new bytes.now f.1.now)) }
    ensures kept { Kept names.old names.new }
{
    let Some((count, mut rest)) = read_number::<E>(bytes, b'\n') else {
        return Ok(None);
    };
    if count == 0 {
        return Ok(None);
    }
    for _i in 0..count {
        let Some((name, more)) = read_name::<E>(rest) else {
            return Ok(None);
        };
        names.push(name)?;
        rest = more;
    }
    Ok(Some((count, rest)))
}

/// Reads a whole variable at the beginning of the bytes, and appends the names of its values to `names`. Returns `None` if the lines have
/// another form; then the variable has to be read line by line. After `None` or `Err` some names may have
/// been appended.
#[inline(always)]
pub fn read_variable<'a, E: LineEnd>(
    bytes: &'a [u8],
    names: &mut Lists<u8>,
) -> Result<Option<ParsedVariable<'a>>, AllocError>
    ensures found { IfOk result (λ found. IfSome found (λ f. (values : List (List ℕ))
        × (names.new ≡ names.old ++ values) × (length values ≡ f.range)
        × VariableAhead bytes.now (variable f.name.now f.layer values) f.front)) }
    ensures kept { Kept names.old names.new }
{
    let Some((name, layer, rest)) = read_variable_begin::<E>(bytes) else {
        return Ok(None);
    };
    let Some((range, rest)) = names_before::<E>(rest, names)? else {
        return Ok(None);
    };
    let Some(rest) = read_word::<E, _>(rest, b"end_variable") else {
        return Ok(None);
    };
    let front = Front {
        lines: 5 + range as u64,
        bytes: bytes.len() - rest.len(),
    };
    Ok(Some(ParsedVariable {
        name,
        layer,
        range,
        front,
    }))
}

/// Reads a whole mutex group at the beginning of the bytes, and appends its facts to `facts`. Returns the number of its lines and bytes.
/// Returns `None` if a fact doesn't exist or the lines have another form; then the group has to be read line by line. After `None` or `Err`
/// some facts may have been appended.
#[inline(always)]
pub fn read_group<E: LineEnd>(
    ranges: &Items<u32>,
    bytes: &[u8],
    facts: &mut Vec<Fact>,
) -> Result<Option<Front>, AllocError>
    ensures found { IfOk result (λ found. IfSome found (λ front. (g : List Fact)
        × (facts.new.items ≡ facts.old.items ++ g)
        × GroupAhead ranges.now bytes.now g front)) }
    ensures kept { Kept facts.old.items facts.new.items }
{
    let Some(rest) = read_word::<E, _>(bytes, b"begin_mutex_group") else {
        return Ok(None);
    };
    let Some((count, rest)) = read_facts::<E>(ranges, rest, facts)? else {
        return Ok(None);
    };
    let Some(rest) = read_word::<E, _>(rest, b"end_mutex_group") else {
        return Ok(None);
    };
    let front = Front {
        lines: 3 + count as u64,
        bytes: bytes.len() - rest.len(),
    };
    Ok(Some(front))
}
