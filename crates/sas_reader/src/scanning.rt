// Finds the end of a line of plain bytes, many bytes at a time, and what follows an end.
ghost use Rattle.std.specs.Prelude.{◌≡◌, ◌+◌, ◌*◌, ◌<◌, ◌≤◌, ℕ, ◌∷◌, ◌++◌, length, take, drop, slice_index, IfSome};
ghost use Rattle.sas_reader.specs.Ends.{StandsBefore};

use std::simd::prelude::*;

/// How many bytes are compared at once.
const LANES: usize = 32;

/// CR LF as one number, CR being the low byte.
const CR_LF: u16 = 0x0a0d;

/// Returns how many of the thirty-two bytes from `at` on come before the first byte that is at most CR.
#[inline(always)]
fn plain_bytes(bytes: &[u8], at: usize) -> usize
    requires { at + LANES ≤ length bytes.now }
    ensures most { result ≤ LANES }
    ensures plain { (k : ℕ) → at ≤ k → k < at + result → 13 < slice_index bytes.now k }
{
    let lanes = u8x32::from_slice(&bytes[at..]);
    let stops = lanes.simd_le(u8x32::splat(b'\r')).to_bitmask();
    if stops == 0 {
        LANES
    } else {
        stops.trailing_zeros() as usize
    }
}

/// Returns the index of the first byte that is at most CR, as LF is. Returns `None` if there is none or it is near the end of the bytes. So
/// another byte follows.
#[inline(always)]
pub fn plain_end(bytes: &[u8]) -> Option<usize>
    ensures { IfSome result (λ end. (end + 1 < length bytes.now)
        × ((k : ℕ) → k < end → 13 < slice_index bytes.now k)) }
{
    let mut at = 0;
    while bytes.len() - at > LANES {
        let plain = plain_bytes(bytes, at);
        if plain < LANES {
            return Some(at + plain);
        }
        at += LANES;
    }
    None
}

/// Returns the bytes at `at` and behind it as one number. They are read at once, so that a test of CR LF is one comparison. It isn't marked
/// inline, though it is inlined: its callers would be too large to keep their own marks.
fn two_bytes(bytes: &[u8], at: usize) -> u16
    requires { at + 1 < length bytes.now }
    ensures { result ≡ slice_index bytes.now at + slice_index bytes.now (at + 1) * 256 }
{
    match bytes[at..at + 2].first_chunk::<2>() {
        Some(two) => u16::from_le_bytes(*two),
        None => 0,
    }
}

/// How lines end. What reads many lines at once is compiled for each way, so that a line costs one test of its end.
pub trait LineEnd {
    /// Returns the bytes after the line end at `at`, or `None` if there is none.
    fn behind(bytes: &[u8], at: usize) -> Option<&[u8]>
        requires { at + 1 < length bytes.now }
        ensures { IfSome result (λ rest. StandsBefore (take at bytes.now) 10 rest.now bytes.now) };
}

/// Lines end with LF.
pub struct Lf;

/// Lines end with LF or CR LF.
pub struct AnyEnd;

impl LineEnd for Lf {
    #[inline(always)]
    fn behind(bytes: &[u8], at: usize) -> Option<&[u8]> {
        if bytes[at] == b'\n' {
            Some(&bytes[at + 1..])
        } else {
            None
        }
    }
}

impl LineEnd for AnyEnd {
    #[inline(always)]
    fn behind(bytes: &[u8], at: usize) -> Option<&[u8]> {
        if two_bytes(bytes, at) == CR_LF {
            Some(&bytes[at + 2..])
        } else {
            Lf::behind(bytes, at)
        }
    }
}

/// Returns whether the first byte that is at most CR is CR. Then the first line probably ends with CR LF.
pub fn ends_with_return(bytes: &[u8]) -> bool {
    match plain_end(bytes) {
        Some(end) => bytes[end] == b'\r',
        None => false,
    }
}
