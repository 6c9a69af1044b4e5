// Parses numbers.
#![tactic(auto, using(crate::proofs::Digits::spelled))]

ghost use Rattle.std.specs.Prelude.{◌≡◌, ◌<◌, ◌≤◌, ◌^◌, ◌↔◌, ℕ, Option, Some, None, IfSome, IfNone, IsTrue, length, slice_index, decimal};
ghost use Rattle.sas_lines.specs.Spelling.{signed_decimal};
ghost use Rattle.sas_lines.specs.SpellingLaw.{SpellingIsDecimal};

/// Returns whether the digits begin with a zero that other digits follow.
fn has_leading_zero(digits: &[u8]) -> bool
    ensures { IsTrue result ↔ (slice_index digits.now 0 ≡ 48) × (1 < length digits.now) }
{
    matches!(digits, [b'0', _, ..])
}

/// Parses at most 19 decimal digits without leading zeros. Returns `None` for any other bytes. The value fits since 10 ^ 19 is below 2 ^
/// 64.
fn short_number(digits: &[u8]) -> Option<u64>
    requires { length digits.now ≤ 19 }
    ensures found { IfSome result (λ n. (n < 10 ^ 19) × (digits.now ≡ decimal n)) }
    ensures none { IfNone result ((n : ℕ) → n < 10 ^ 19 → digits.now ≡ decimal n → ⊥) }
{
    if digits.is_empty() || has_leading_zero(digits) {
        return None;
    }
    let mut value: u64 = 0;
    for digit in digits {
        if !digit.is_ascii_digit() {
            return None;
        }
        value = value * 10 + (*digit - b'0') as u64;
    }
    Some(value)
}

/// Parses a number: decimal digits without sign or leading zeros, at most 2,147,483,647. Returns `None` for any other line.
pub fn number(line: &[u8]) -> Option<u32>
    ensures found { IfSome result (λ n. (n < 2 ^ 31) × (line.now ≡ decimal n)) }
    ensures none { IfNone result ((n : ℕ) → n < 2 ^ 31 → line.now ≡ decimal n → ⊥) }
{
    if line.len() > 10 {
        return None;
    }
    let value = short_number(line)?;
    if value <= i32::MAX as u64 {
        Some(value as u32)
    } else {
        None
    }
}

/// Parses a number, or `-1`, which is returned as `Some(None)`. Returns `None` for any other line.
pub fn signed(line: &[u8]) -> Option<Option<u32>>
    ensures found { IfSome result (λ n. IfSome n (λ k. k < 2 ^ 31)
        × (line.now ≡ signed_decimal n)) }
    ensures none { IfNone result ((n : Option ℕ) → IfSome n (λ k. k < 2 ^ 31)
        → line.now ≡ signed_decimal n → ⊥) }
{
    if line == b"-1".as_slice() {
        return Some(None);
    }
    number(line).map(Some)
}

/// Parses the cost of a plan: decimal digits without sign or leading zeros, at most 18,446,744,073,709,551,615. Returns `None` for any
/// other line.
pub fn cost(line: &[u8]) -> Option<u64>
    ensures found { IfSome result (λ n. (n < 2 ^ 64) × (line.now ≡ decimal n)) }
    ensures none { IfNone result ((n : ℕ) → n < 2 ^ 64 → line.now ≡ decimal n → ⊥) }
{
    if line.len() < 20 {
        return short_number(line);
    }
    if line.len() > 20 {
        return None;
    }
    // 19 digits always fit into 64 bits. 20 digits may not.
    let last = line[19];
    if !last.is_ascii_digit() {
        return None;
    }
    let tenth = short_number(&line[..19])?;
    let value = tenth as u128 * 10 + (last - b'0') as u128;
    if value > u64::MAX as u128 {
        return None;
    }
    Some(value as u64)
}

/// Law: `decimal`, which the clauses use, is the usual decimal notation.
pub fn spelling_is_decimal()
    ensures { SpellingIsDecimal }
{}
