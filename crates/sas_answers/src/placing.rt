// Writes a line of words into a piece, if there is room for it. Most lines go this fast way: nothing is written to a device in between,
// so only a lack of room can end it early. It is compiled into its callers, which know the first word and how many words there are.
ghost use Rattle.std.specs.Prelude.{◌≡◌, ◌<◌, ◌≤◌, ◌+◌, ◌/◌, ◌%◌, [], ◌∷◌, ◌++◌, decimal, flat_map, length};
ghost use Rattle.sas_answers.specs.Placing.{PlacesOrLeaves};
ghost use Rattle.sas_answers.specs.Shown.{shown_name};
ghost use Rattle.sas_answers.specs.Words.{behind_space, numbered_line, words_line};

use crate::shown::is_shown_whole;
use crate::words::{NumberedLine, Word, Words};
use itoa::Buffer;

/// Writes the bytes at `at` of the piece. Returns their end, or `None` if there is no room.
#[inline(always)]
pub(crate) fn place(piece: &mut [u8], at: usize, bytes: &[u8]) -> Option<usize>
    requires { at ≤ length piece.old }
    ensures { PlacesOrLeaves piece.old piece.new at bytes.now result }
{
    if bytes.len() > piece.len() - at {
        return None;
    }
    let end = at + bytes.len();
    piece[at..end].copy_from_slice(bytes);
    Some(end)
}

/// Writes a byte at `at`. Returns its end, or `None` if there is no room.
#[inline(always)]
fn place_byte(piece: &mut [u8], at: usize, byte: u8) -> Option<usize>
    requires { at ≤ length piece.old }
    ensures { PlacesOrLeaves piece.old piece.new at (byte ∷ []) result }
{
    if at == piece.len() {
        return None;
    }
    piece[at] = byte;
    Some(at + 1)
}

/// Writes a space and the bytes at `at`. Returns their end, or `None` if there is no room.
#[inline(always)]
fn place_behind_space(piece: &mut [u8], at: usize, bytes: &[u8]) -> Option<usize>
    requires { at ≤ length piece.old }
    ensures { PlacesOrLeaves piece.old piece.new at (32 ∷ bytes.now) result }
{
    let behind_space = place_byte(piece, at, b' ')?;
    place(piece, behind_space, bytes)
}

/// Writes a space and a number below 100 at `at`. Returns its end, or `None` if there is no room.
#[inline(always)]
fn place_short(piece: &mut [u8], at: usize, number: u64) -> Option<usize>
    requires at { at ≤ length piece.old }
    requires short { number < 100 }
    ensures { PlacesOrLeaves piece.old piece.new at (32 ∷ decimal number) result }
{
    if piece.len() - at < 3 {
        return None;
    }
    piece[at] = b' ';
    if number < 10 {
        piece[at + 1] = b'0' + number as u8;
        return Some(at + 2);
    }
    piece[at + 1] = b'0' + (number / 10) as u8;
    piece[at + 2] = b'0' + (number % 10) as u8;
    Some(at + 3)
}

/// Writes the two digits of a number below 100 at `at`. Returns their end, or `None` if there is no room.
#[tactic(auto, using(crate::proofs::Placed::two_placed))]
#[inline(always)]
fn place_pair(piece: &mut [u8], at: usize, number: u64) -> Option<usize>
    requires at { at ≤ length piece.old }
    requires short { number < 100 }
    ensures { PlacesOrLeaves piece.old piece.new at
        ((48 + number / 10) ∷ (48 + number % 10) ∷ []) result }
{
    if piece.len() - at < 2 {
        return None;
    }
    piece[at] = b'0' + (number / 10) as u8;
    piece[at + 1] = b'0' + (number % 10) as u8;
    Some(at + 2)
}

/// Writes a space and a number below 10,000 at `at`. Returns its end, or `None` if there is no room.
#[inline(always)]
fn place_small(piece: &mut [u8], at: usize, number: u64) -> Option<usize>
    requires at { at ≤ length piece.old }
    requires small { number < 10000 }
    ensures { PlacesOrLeaves piece.old piece.new at (32 ∷ decimal number) result }
{
    if number < 100 {
        return place_short(piece, at, number);
    }
    let behind_hundreds = place_short(piece, at, number / 100)?;
    place_pair(piece, behind_hundreds, number % 100)
}

/// Writes a space and a number of five to eight digits at `at`. Returns its end, or `None` if there is no room.
fn place_middle(piece: &mut [u8], at: usize, number: u64) -> Option<usize>
    requires at { at ≤ length piece.old }
    requires large { 10000 ≤ number }
    requires small { number < 100000000 }
    ensures { PlacesOrLeaves piece.old piece.new at (32 ∷ decimal number) result }
{
    let hundreds = number / 100;
    let behind_ten_thousands = place_small(piece, at, hundreds / 100)?;
    let behind_hundreds = place_pair(piece, behind_ten_thousands, hundreds % 100)?;
    place_pair(piece, behind_hundreds, number % 100)
}

/// Writes a space and a number at `at`. Most numbers are below 10,000, and these are written at once. Returns its end, or `None` if there
/// is no room.
#[inline(always)]
fn place_number(piece: &mut [u8], at: usize, number: u64) -> Option<usize>
    requires { at ≤ length piece.old }
    ensures { PlacesOrLeaves piece.old piece.new at (32 ∷ decimal number) result }
{
    if number < 10_000 {
        return place_small(piece, at, number);
    }
    if number < 100_000_000 {
        return place_middle(piece, at, number);
    }
    place_large(piece, at, u128::from(number))
}

/// Writes a space and a word at `at`. Returns its end, or `None` if there is no room.
#[inline(always)]
fn place_word(piece: &mut [u8], at: usize, word: Word<'_>) -> Option<usize>
    requires { at ≤ length piece.old }
    ensures { PlacesOrLeaves piece.old piece.new at (behind_space word.entry) result }
{
    match word {
        Word::Text(bytes) => place_behind_space(piece, at, bytes),
        Word::Number(number) => place_number(piece, at, number),
        Word::Large(number) => place_large(piece, at, number),
        Word::Name(name) => place_name(piece, at, name),
    }
}

/// Writes a space and a number of any size at `at`. Returns its end, or `None` if there is no room.
fn place_large(piece: &mut [u8], at: usize, number: u128) -> Option<usize>
    requires { at ≤ length piece.old }
    ensures { PlacesOrLeaves piece.old piece.new at (32 ∷ decimal number) result }
{
    let mut buffer = Buffer::new();
    let digits = buffer.format(number).as_bytes();
    place_behind_space(piece, at, digits)
}

/// Writes a space and a name at `at`. Returns its end, or `None` if there is no room, or if the name isn't shown as it is.
fn place_name(piece: &mut [u8], at: usize, name: &[u8]) -> Option<usize>
    requires { at ≤ length piece.old }
    ensures { PlacesOrLeaves piece.old piece.new at (32 ∷ shown_name name.now) result }
{
    if is_shown_whole(name) {
        place_behind_space(piece, at, name)
    } else {
        None
    }
}

/// Writes the words at `at`, each after a space. Returns their end, or `None` if there is no room.
#[inline(always)]
fn place_rest(piece: &mut [u8], at: usize, words: &[Word<'_>]) -> Option<usize>
    requires { at ≤ length piece.old }
    ensures { PlacesOrLeaves piece.old piece.new at
        (flat_map behind_space words.now) result }
{
    let mut end = at;
    for word in words {
        let next = place_word(piece, end, *word)?;
        end = next;
    }
    Some(end)
}

/// Places the line and its end, LF, in the same way.
#[inline(always)]
pub(crate) fn place_line(piece: &mut [u8], at: usize, line: Words<'_>) -> Option<usize>
    requires { at ≤ length piece.old }
    ensures { PlacesOrLeaves piece.old piece.new at
        (words_line line.entry ++ 10 ∷ []) result }
{
    let behind_first = place(piece, at, line.first)?;
    let behind_rest = place_rest(piece, behind_first, line.rest)?;
    place_byte(piece, behind_rest, b'\n')
}

/// Places a line of a word, three numbers and a name in the same way.
#[inline(always)]
pub(crate) fn place_numbered(piece: &mut [u8], at: usize, line: NumberedLine<'_>) -> Option<usize>
    requires { at ≤ length piece.old }
    ensures { PlacesOrLeaves piece.old piece.new at
        (numbered_line line.entry ++ 10 ∷ []) result }
{
    let behind_word = place(piece, at, line.word)?;
    let behind_first = place_number(piece, behind_word, line.first)?;
    let behind_second = place_number(piece, behind_first, line.second)?;
    let behind_third = place_number(piece, behind_second, line.third)?;
    let behind_name = place_behind_space(piece, behind_third, line.name)?;
    place_byte(piece, behind_name, b'\n')
}
