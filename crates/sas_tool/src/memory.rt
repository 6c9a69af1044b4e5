// A call of the program over files in memory.
ghost use Rattle.std.specs.Prelude.{◌≡◌, ◌≢◌, false, ℕ, List, [], ◌∷◌, Some, codes};
ghost use Rattle.std.specs.Result.{IsOkAnd};
ghost use Rattle.std.specs.Io.KnownBytes.{Appends};
ghost use Rattle.sas_words.specs.Calls.{bytes_of_words};
ghost use Rattle.sas_words.specs.Usage.{IsCall};
ghost use Rattle.sas_tool.specs.Says.{Says};

use crate::answer_words;
use crate::files::{Inputs, NamedFiles};
use sas_lines::Watched;
use sas_words::WordsFault;
use std::alloc::Global;
use std::io::Write;

/// Two files in memory. There are no others.
#[derive(Clone, Copy)]
pub struct FilesInMemory<'f> {
    pub first: (&'f str, &'f [u8]),
    pub second: (&'f str, &'f [u8]),
}

impl<'f> NamedFiles for FilesInMemory<'f> {
    ghost use Rattle.std.specs.Prelude.{if◌then◌else◌, bytes_eq};
    ghost use Rattle.sas_tool.specs.Held.{absent, holds};

    type File = &'f [u8];

    type Ready = ();

    ghost held = { λ files name. if bytes_eq name files.first.0.now then holds files.first.1.now
        else (if bytes_eq name files.second.0.now then holds files.second.1.now else absent) };

    fn ready(&self) -> Option<()> {
        Some(())
    }

    fn open_file(&self, name: &str) -> Option<&'f [u8]> {
        if name == self.first.0 {
            return Some(self.first.1);
        }
        if name == self.second.0 {
            return Some(self.second.1);
        }
        None
    }
}

/// Answers the call that the words are, over two files in memory. So the premises of `answer_words` can hold.
pub fn answer_in_memory<W: Write, E: Write>(
    alloc: Global,
    words: &[String],
    files: FilesInMemory<'_>,
    out: &mut Watched<W>,
    errors: &mut Watched<E>,
) -> Result<u8, WordsFault>
    requires out { out.old.failed ≡ false }
    ensures { (before : List ℕ) → files.entry.first.0.now ≢ codes "-"
        → files.entry.second.0.now ≢ codes "-"
        → files.entry.second.0.now ≢ files.entry.first.0.now
        → IsCall (bytes_of_words words.now) (codes "plan") false
        (files.entry.first.0.now ∷ files.entry.second.0.now ∷ [])
        → W.contents out.old.device ≡ Some before
        → IsOkAnd result (Says files.entry.first.1.now files.entry.second.1.now
        (Appends (W.contents out.old.device) (W.contents out.new.device))) }
{
    let nothing: &[u8] = b"";
    let inputs = Inputs {
        files: &files,
        standard: nothing,
    };
    answer_words(alloc, words, inputs, out, errors)
}
