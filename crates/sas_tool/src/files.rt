// The files of a system, and how the inputs of the program are opened.
ghost use Rattle.std.specs.Prelude.{◌≡◌, ℕ, List};
ghost use Rattle.sas_lines.specs.Inputs.{left_of};
ghost use Rattle.sas_tool.specs.Files.{Opens, input_left, source_held};
ghost use Rattle.sas_tool.specs.Held.{Held, word_held};

use crate::arguments::Source;
use crate::streams::{Replacements, replace_closed};
use crate::until_end::UntilEnd;
use sas_lines::OpenInput;
use std::fs;
use std::io::Read;
use std::os::fd::AsFd;
use std::rt::Files;

/// Files that are opened by their names.
pub trait NamedFiles {
    type File: Read + Drop;

    /// What is kept while files are open.
    type Ready: Drop;

    /// What is known of the file of a name.
    ghost held: { Self → List ℕ → Held };

    /// Makes ready for files to be opened. Returns `None` if that fails.
    fn ready(&self) -> Option<Self::Ready>;

    /// Opens the file of this name, if it can be opened.
    fn open_file(&self, name: &str) -> Option<Self::File>
        ensures { Opens Self.File.remaining (held self.now name.now) result };
}

/// The files of the system that the program runs on. What they hold isn't known.
#[derive(Clone, Copy)]
pub struct SystemFiles<'r, R, I, O, E> {
    pub rt: &'r R,
    pub input: &'r I,
    pub output: &'r O,
    pub error: &'r E,
}

impl<'r, R: Files, I: AsFd, O: AsFd, E: AsFd> NamedFiles for SystemFiles<'r, R, I, O, E> {
    ghost use Rattle.sas_tool.specs.Held.{unknown};

    type File = R::File;

    type Ready = Replacements<R::File>;

    ghost held = { λ files name. unknown };

    fn ready(&self) -> Option<Replacements<R::File>> {
        replace_closed(self.rt, self.input, self.output, self.error).ok()
    }

    fn open_file(&self, name: &str) -> Option<R::File> {
        fs::open(self.rt, name).ok()
    }
}

/// The inputs of the program: files, and standard input.
#[derive(Clone, Copy)]
pub struct Inputs<'s, N, I> {
    pub files: &'s N,
    pub standard: I,
}

impl<'s, N: NamedFiles, I: Read + Copy + Drop> Inputs<'s, N, I> {
    /// Opens the input that a word names: standard input, or a file.
    pub fn open_word(&self, word: &str) -> Option<OpenInput<N::File, I>>
        ensures { Opens (left_of N.File.remaining I.remaining)
            (word_held (N.held self.now.files.now) (I.remaining self.now.standard) word.now)
            result }
    {
        if word == "-" {
            return Some(OpenInput::Standard(self.standard));
        }
        match self.files.open_file(word) {
            Some(file) => Some(OpenInput::File(file)),
            None => None,
        }
    }

    /// Opens an input. What the request doesn't read is empty. An input is let go at its end, so that the task isn't open while plans
    /// are read. This isn't inlined, since opening takes 8 kB of the stack for the name.
    #[inline(never)]
    pub fn open(&self, source: &Option<Source>) -> Option<UntilEnd<OpenInput<N::File, I>>>
        ensures { Opens (input_left N.File.remaining I.remaining)
            (source_held (N.held self.now.files.now) (I.remaining self.now.standard) source.now)
            result }
    {
        match source {
            None => Some(UntilEnd::nothing()),
            Some(Source::Input) => Some(UntilEnd::new(OpenInput::Standard(self.standard))),
            Some(Source::File(name)) => match self.files.open_file(name.as_str()) {
                Some(file) => Some(UntilEnd::new(OpenInput::File(file))),
                None => None,
            },
        }
    }
}
