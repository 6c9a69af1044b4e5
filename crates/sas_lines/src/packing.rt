// Removes the CRs from a text, in place.
ghost use Rattle.std.specs.Prelude.{◌≡◌, ◌+◌, ◌<◌, ◌≤◌, length, take};
ghost use Rattle.sas_lines.specs.Lines.{without_returns};
ghost use Rattle.sas_lines.specs.Packing.{InText, Packs};
ghost use Rattle.sas_lines.specs.Separators.{StandsFirst};

use crate::separators::first_place;
use std::simd::prelude::*;

/// How many bytes are moved at once.
const LANES: usize = 16;

/// How far a text is packed: its first `kept` bytes have no CR and stay. The bytes from `read` on are left to pack.
#[derive(Clone, Copy)]
struct Places {
    kept: usize,
    read: usize,
}

/// Keeps the bytes before the next CR, and passes the CR.
fn pack_run(text: &mut [u8], at: Places) -> Places
    requires places { InText text.old at }
    requires left { at.read < length text.old }
    ensures packs { Packs text.old at text.new result }
    ensures further { at.read < result.read }
{
    let Some(run) = first_place(b'\r', &text[at.read..]) else {
        let end = text.len();
        text.copy_within(at.read..end, at.kept);
        return Places {
            kept: at.kept + (end - at.read),
            read: end,
        };
    };
    text.copy_within(at.read..at.read + run, at.kept);
    Places {
        kept: at.kept + run,
        read: at.read + run + 1,
    }
}

/// Packs runs of bytes without CR, until the text ends or `gap` bytes are free before the next one.
fn pack_runs(text: &mut [u8], start: Places, gap: usize) -> Places
    requires { InText text.old start }
    ensures packs { Packs text.old start text.new result }
    ensures end { result.read < length text.new → result.kept + gap ≤ result.read }
{
    let mut at = start;
    while at.read < text.len() && at.read - at.kept < gap {
        at = pack_run(text, at);
    }
    at
}

/// Keeps the bytes before the next CR, and passes the CR; at most sixteen bytes.
#[inline(always)]
fn pack_lanes(text: &mut [u8], at: Places) -> Places
    requires room { at.read + LANES ≤ length text.old }
    requires gap { at.kept + LANES ≤ at.read }
    ensures packs { Packs text.old at text.new result }
    ensures further { at.read < result.read }
    ensures gap { result.kept + LANES ≤ result.read }
{
    let bytes = u8x16::from_slice(&text[at.read..]);
    bytes.copy_to_slice(&mut text[at.kept..]);
    let returns = bytes.simd_eq(u8x16::splat(b'\r')).to_bitmask();
    if returns == 0 {
        return Places {
            kept: at.kept + LANES,
            read: at.read + LANES,
        };
    }
    let run = returns.trailing_zeros() as usize;
    Places {
        kept: at.kept + run,
        read: at.read + run + 1,
    }
}

/// Packs sixteen bytes at a time. So many have to be free before the next one, so that no byte is overwritten that is left.
fn pack_most(text: &mut [u8], start: Places) -> Places
    requires places { InText text.old start }
    requires gap { start.read < length text.old → start.kept + LANES ≤ start.read }
    ensures { Packs text.old start text.new result }
{
    let last = text.len().saturating_sub(LANES);
    let mut at = start;
    while at.read < last {
        at = pack_lanes(text, at);
    }
    at
}

/// Packs a text whose first CR is given. Returns how many bytes are kept.
fn pack(text: &mut [u8], first: usize) -> usize
    requires { StandsFirst 13 text.old first }
    ensures { take result text.new ≡ without_returns text.old }
{
    let start = Places {
        kept: first,
        read: first,
    };
    let apart = pack_runs(text, start, LANES);
    let most = pack_most(text, apart);
    let end = text.len();
    pack_runs(text, most, end).kept
}

/// Removes all CRs from the text.
pub fn drop_returns(text: &mut Vec<u8>)
    ensures { text.new.items ≡ without_returns text.old.items }
{
    if let Some(first) = first_place(b'\r', text.as_slice()) {
        let kept = pack(text.as_mut_slice(), first);
        text.truncate(kept);
    }
}
