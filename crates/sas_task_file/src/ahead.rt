// Parses the first line of some bytes directly, if it is whole and has the expected content. Otherwise these functions return `None`. Then
// the line is cut out and parsed by the functions of `task_line.rt`, which report its fault. A line ends with LF or CR LF.
ghost use Rattle.std.specs.Prelude.{◌≡◌, ◌+◌, ◌-◌, ◌<◌, ◌≤◌, length, take, drop, IfSome, IsTrue};
ghost use Rattle.sas_core.specs.Names.{IsName};
ghost use Rattle.sas_task_file.specs.TaskFormat as format;
ghost use Rattle.sas_reader.specs.Ends.{StandsBefore};
ghost use Rattle.sas_task_file.specs.Ahead.{LineAhead, NumberAhead, SignedAhead, FactAhead, ChangeAhead};
ghost use Rattle.sas_core.specs.Changes.{plain_effect};

use sas_core::{Change, Fact};
use sas_reader::{LineEnd, plain_end};

/// The most bytes of a number that is parsed here, which has at most nine digits, with its end, which may be CR LF. Where so many bytes are
/// left for each number of a line, no byte has to be compared with the end of the bytes.
const NUMBER: usize = 11;

/// Returns the bytes after the byte `end` at `at`, or `None` if it isn't there. LF stands for the line end `E`.
#[inline(always)]
fn behind_end<E: LineEnd>(bytes: &[u8], at: usize, end: u8) -> Option<&[u8]>
    requires { at + 1 < length bytes.now }
    ensures { IfSome result (λ rest. StandsBefore (take at bytes.now) end rest.now bytes.now) }
{
    if end == b'\n' {
        return E::behind(bytes, at);
    }
    if bytes[at] != end {
        return None;
    }
    Some(&bytes[at + 1..])
}

/// Returns the number of at most nine digits before the byte `end`, and the bytes after it. LF stands for the line end `E`.
#[inline(always)]
fn number_in<E: LineEnd>(bytes: &[u8], end: u8) -> Option<(u32, &[u8])>
    requires long { 11 ≤ length bytes.now }
    ensures ahead { IfSome result (λ found. NumberAhead bytes.now found.0 end found.1.now) }
    ensures left { IfSome result (λ found. length bytes.now ≤ length found.1.now + 11) }
{
    let first = bytes[0];
    if !first.is_ascii_digit() {
        return None;
    }
    let mut value = (first - b'0') as u32;
    if let Some(rest) = behind_end::<E>(bytes, 1, end) {
        return Some((value, rest));
    }
    if value == 0 {
        return None;
    }
    for at in 1..9 {
        let byte = bytes[at];
        if !byte.is_ascii_digit() {
            let rest = behind_end::<E>(bytes, at, end)?;
            return Some((value, rest));
        }
        value = value * 10 + (byte - b'0') as u32;
    }
    let rest = behind_end::<E>(bytes, 9, end)?;
    Some((value, rest))
}

/// Returns the number before the byte `end` (`None` for `-1`), and the bytes after it.
#[inline(always)]
fn signed_in<E: LineEnd>(bytes: &[u8], end: u8) -> Option<(Option<u32>, &[u8])>
    requires long { 11 ≤ length bytes.now }
    ensures ahead { IfSome result (λ found. SignedAhead bytes.now found.0 end found.1.now) }
    ensures left { IfSome result (λ found. length bytes.now ≤ length found.1.now + 11) }
{
    if bytes[0] == b'-' {
        if bytes[1] != b'1' {
            return None;
        }
        let rest = behind_end::<E>(bytes, 2, end)?;
        return Some((None, rest));
    }
    let (number, rest) = number_in::<E>(bytes, end)?;
    Some((Some(number), rest))
}

/// Returns the change before the line end, and the bytes after it.
#[inline(always)]
fn change_in_line<E: LineEnd>(bytes: &[u8]) -> Option<(Change, &[u8])>
    requires long { 33 ≤ length bytes.now }
    ensures { IfSome result (λ found. ChangeAhead bytes.now found.0 found.1.now) }
{
    let (var, rest) = number_in::<E>(bytes, b' ')?;
    let (old, rest) = signed_in::<E>(rest, b' ')?;
    let (new, rest) = number_in::<E>(rest, b'\n')?;
    Some((Change { var, old, new }, rest))
}

/// Returns the number before the byte `end`, and the bytes after it.
#[inline(always)]
pub(crate) fn read_number<E: LineEnd>(bytes: &[u8], end: u8) -> Option<(u32, &[u8])>
    ensures { IfSome result (λ found. NumberAhead bytes.now found.0 end found.1.now) }
{
    if bytes.len() < NUMBER {
        return None;
    }
    number_in::<E>(bytes, end)
}

/// Returns the number before the line end, and the bytes after it.
#[inline(always)]
pub fn read_number_line<E: LineEnd>(bytes: &[u8]) -> Option<(u32, &[u8])>
    ensures { IfSome result (λ found. LineAhead (format.number found.0) bytes.now found.1.now) }
{
    read_number::<E>(bytes, b'\n')
}

/// Returns the number before the byte `end` (`None` for `-1`), and the bytes after it.
#[inline(always)]
pub(crate) fn read_signed<E: LineEnd>(bytes: &[u8], end: u8) -> Option<(Option<u32>, &[u8])>
    ensures { IfSome result (λ found. SignedAhead bytes.now found.0 end found.1.now) }
{
    if bytes.len() < NUMBER {
        return None;
    }
    signed_in::<E>(bytes, end)
}

/// Returns the change before the line end, and the bytes after it.
#[inline(always)]
pub(crate) fn read_change<E: LineEnd>(bytes: &[u8]) -> Option<(Change, &[u8])>
    ensures { IfSome result (λ found. ChangeAhead bytes.now found.0 found.1.now) }
{
    if bytes.len() < 3 * NUMBER {
        return None;
    }
    change_in_line::<E>(bytes)
}

/// Returns the fact before the byte `end`, and the bytes after it. The fact need not exist.
#[inline(always)]
pub(crate) fn read_fact_to<E: LineEnd>(bytes: &[u8], end: u8) -> Option<(Fact, &[u8])>
    ensures { IfSome result (λ found. FactAhead bytes.now found.0 end found.1.now) }
{
    if bytes.len() < 2 * NUMBER {
        return None;
    }
    let (var, rest) = number_in::<E>(bytes, b' ')?;
    let (value, rest) = number_in::<E>(rest, end)?;
    Some((Fact { var, value }, rest))
}

/// Returns the fact before the line end, and the bytes after it. The fact need not exist.
#[inline(always)]
pub fn read_fact<E: LineEnd>(bytes: &[u8]) -> Option<(Fact, &[u8])>
    ensures { IfSome result (λ found. LineAhead (format.fact found.0) bytes.now found.1.now) }
{
    read_fact_to::<E>(bytes, b'\n')
}

/// Returns the change of an effect without conditions before the line end, and the bytes after it. Its facts need not exist.
#[inline(always)]
pub fn read_effect<E: LineEnd>(bytes: &[u8]) -> Option<(Change, &[u8])>
    ensures { IfSome result
        (λ found. LineAhead (format.effect (plain_effect found.0)) bytes.now found.1.now) }
{
    if bytes.len() < 2 + 3 * NUMBER {
        return None;
    }
    if bytes[0] != b'0' || bytes[1] != b' ' {
        return None;
    }
    change_in_line::<E>(&bytes[2..])
}

/// Returns the first eight bytes of an array that has so many.
#[inline(always)]
fn first_eight<const N: usize>(bytes: &[u8; N]) -> [u8; 8]
    ensures { 8 ≤ N → result ≡ take 8 bytes.now }
{
    match bytes.split_first_chunk::<8>() {
        Some((first, _)) => *first,
        None => [0; 8],
    }
}

/// Returns the last eight bytes of an array that has so many.
#[inline(always)]
fn last_eight<const N: usize>(bytes: &[u8; N]) -> [u8; 8]
    ensures { 8 ≤ N → result ≡ drop (N - 8) bytes.now }
{
    match bytes.split_last_chunk::<8>() {
        Some((_, last)) => *last,
        None => [0; 8],
    }
}

/// Returns whether the arrays are equal. Eight bytes are compared at once, so two comparisons are enough for up to sixteen bytes.
#[inline(always)]
fn are_equal<const N: usize>(a: &[u8; N], b: &[u8; N]) -> bool
    ensures { IsTrue result → a.now ≡ b.now }
{
    if N < 8 || N > 16 {
        return a == b;
    }
    first_eight(a) == first_eight(b) && last_eight(a) == last_eight(b)
}

/// If the bytes begin with the fixed word and a line end, returns the bytes after them. The word is an array, since a word of constant
/// length is compared without a call.
#[inline(always)]
pub(crate) fn read_word<'a, E: LineEnd, const N: usize>(
    bytes: &'a [u8],
    word: &[u8; N],
) -> Option<&'a [u8]>
    requires { IsName word.now }
    ensures { IfSome result (λ rest. LineAhead (format.word word.now) bytes.now rest.now) }
{
    let (first, more) = bytes.split_first_chunk::<N>()?;
    if more.len() < 2 {
        return None;
    }
    let rest = E::behind(bytes, N)?;
    if are_equal(first, word) {
        Some(rest)
    } else {
        None
    }
}

/// Returns the name before the line end, and the bytes after it. A name may have a byte up to CR, such as a tab; then its section is read
/// line by line.
#[inline(always)]
pub fn read_name<E: LineEnd>(bytes: &[u8]) -> Option<(&[u8], &[u8])>
    ensures { IfSome result (λ found.
        IsName found.0.now × LineAhead (format.name found.0.now) bytes.now found.1.now) }
{
    let end = plain_end(bytes)?;
    if end == 0 {
        return None;
    }
    let rest = E::behind(bytes, end)?;
    Some((&bytes[..end], rest))
}
