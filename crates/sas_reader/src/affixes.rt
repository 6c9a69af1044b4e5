// Beginnings and ends of lines.
ghost use Rattle.std.specs.Prelude.{◌≡◌, ◌++◌, ℕ, List, length, take, MatchOption, IfSome, IfNone};
ghost use Rattle.sas_reader.specs.Found.{Names};

use sas_core::is_name;

/// Returns the rest of the line after `front`, or `None` if the line doesn't begin with `front`.
#[tactic(auto, using(crate::proofs::Fronts::fronts))]
pub fn behind<'a>(line: &'a [u8], front: &[u8]) -> Option<&'a [u8]>
    ensures { MatchOption result (take (length front.now) line.now ≡ front.now → ⊥)
        (λ rest. line.now ≡ front.now ++ rest.now) }
{
    line.strip_prefix(front)
}

/// Returns the line without `back` at its end, or `None` if the line doesn't end with `back`.
#[tactic(auto, using(crate::proofs::Fronts::fronts))]
pub fn before<'a>(line: &'a [u8], back: &[u8]) -> Option<&'a [u8]>
    ensures { MatchOption result
        ((rest : List ℕ) → line.now ≡ rest ++ back.now → ⊥)
        (λ rest. line.now ≡ rest.now ++ back.now) }
{
    line.strip_suffix(back)
}

/// Returns the name before the closing parenthesis, or `None` if there is no such name.
pub fn closed_name(rest: &[u8]) -> Option<&[u8]>
    ensures found { IfSome result (λ name. Names rest.now name.now) }
    ensures none { IfNone result ((name : List ℕ) → Names rest.now name → ⊥) }
{
    match before(rest, b")") {
        Some(name) if is_name(name) => Some(name),
        _ => None,
    }
}
