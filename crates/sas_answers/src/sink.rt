// A text on its way to a device.
ghost use Rattle.std.specs.Prelude.{◌≡◌, ℕ, List, [], ◌∷◌, ◌++◌, flat_map, Option, Some, false, IfErr, IsErrAnd, IsTrue, ◌↔◌};
ghost use Rattle.std.specs.Io.KnownBytes.{Appends};
ghost use Rattle.sas_answers.specs.Ending.{EndsCounting, IsWrite};
ghost use Rattle.sas_answers.specs.Sink.{empty_piece, Pushed, Pushes};
ghost use Rattle.sas_answers.specs.Shown.{shown_name};
ghost use Rattle.sas_answers.specs.Words.{behind_space, numbered_line, word_bytes, words_line};

use crate::ending::{Status, ToolFault};
use crate::pieces::Pieces;
use crate::shown::{ROOM, show_name};
use crate::words::{NumberedLine, Word, Words};
use itoa::Buffer;
use sas_lines::Watched;
use std::io::Write;

/// The text of an answer on its way to a device. It goes out in pieces. After a failed write nothing more is written. Whoever opens it
/// has the answer's status, so nothing is written before the answer is known.
#[derive(Drop)]
pub struct Sink<'w, W> {
    pub out: &'w mut Watched<W>,
    pub pieces: &'w mut Pieces,
    /// How many bytes had been written when a write failed.
    pub short: usize,
    /// The status of the answer.
    pub status: Status,
}

impl<'w, W: Write> Sink<'w, W> {
    /// Opens the text of an answer with this status. It goes to this device by these pieces, which hold nothing.
    pub fn new(status: Status, pieces: &'w mut Pieces, out: &'w mut Watched<W>) -> Sink<'w, W>
        requires failed { out.old.failed ≡ false }
        requires empty { pieces.old ≡ empty_piece }
        ensures same { result.out.ghost_name ≡ out.entry.ghost_name }
        ensures status { result.status ≡ status }
        ensures text { Pushed W.contents (W.contents out.old.device) result [] }
    {
        Sink {
            out,
            pieces,
            short: 0,
            status,
        }
    }

    /// Adds the bytes to the text.
    pub fn push(&mut self, bytes: &[u8])
        ensures { Pushes W.contents self.old self.new bytes.now }
    {
        if self.out.failed() {
            return;
        }
        if let Err(short) = self.pieces.push(self.out, bytes) {
            self.short = short.written;
        }
    }

    /// Adds the line and its end, LF, to the text.
    #[inline(always)]
    pub fn push_line(&mut self, line: Words<'_>)
        ensures { Pushes W.contents self.old self.new (words_line line.entry ++ 10 ∷ []) }
    {
        if self.pieces.hold_line(line) {
            return;
        }
        self.push_words(line);
    }

    /// Adds the line and its end, LF, to the text. Where many lines are of this form it is faster than `push_line`: there is no list
    /// of words to be gone through.
    #[inline(always)]
    pub fn push_numbered(&mut self, line: NumberedLine<'_>)
        ensures { Pushes W.contents self.old self.new (numbered_line line.entry ++ 10 ∷ []) }
    {
        if self.pieces.hold_numbered(line) {
            return;
        }
        self.push_each(line);
    }

    /// Adds the line and its end, one word after another, for a line at the end of a piece.
    fn push_each(&mut self, line: NumberedLine<'_>)
        ensures { Pushes W.contents self.old self.new (numbered_line line.entry ++ 10 ∷ []) }
    {
        let rest = [
            Word::Number(line.first),
            Word::Number(line.second),
            Word::Number(line.third),
            Word::Text(line.name),
        ];
        self.push_words(Words {
            first: line.word,
            rest: &rest,
        });
    }

    /// Adds the line and its end, one word after another. This is the slow way, for a line at the end of a piece, or with a name that
    /// isn't shown as it is.
    fn push_words(&mut self, line: Words<'_>)
        ensures { Pushes W.contents self.old self.new (words_line line.entry ++ 10 ∷ []) }
    {
        self.push(line.first);
        self.push_rest(line.rest);
        self.push(b"\n");
    }

    /// Adds these words, each after a space.
    fn push_rest(&mut self, words: &[Word<'_>])
        ensures { Pushes W.contents self.old self.new (flat_map behind_space words.now) }
    {
        for word in words {
            self.push(b" ");
            self.push_word(*word);
        }
    }

    /// Adds the word.
    fn push_word(&mut self, word: Word<'_>)
        ensures { Pushes W.contents self.old self.new (word_bytes word.entry) }
    {
        match word {
            Word::Text(bytes) => self.push(bytes),
            Word::Number(number) => {
                let mut buffer = Buffer::new();
                self.push(buffer.format(number).as_bytes());
            }
            Word::Large(number) => {
                let mut buffer = Buffer::new();
                self.push(buffer.format(number).as_bytes());
            }
            Word::Name(name) => self.push_name(name),
        }
    }

    /// Adds the name as it is shown.
    fn push_name(&mut self, name: &[u8])
        ensures { Pushes W.contents self.old self.new (shown_name name.now) }
    {
        let mut room = [0; ROOM];
        let end = show_name(&mut room, name);
        self.push(&room[..end]);
    }

    /// Writes what is held back, and returns the answer's status, or that a write failed.
    pub fn finish(self) -> Result<Status, ToolFault>
        ensures ends { (start : Option (List ℕ)) (text : List ℕ)
            → Pushed W.contents start self.entry text
            → EndsCounting
            (λ output. output ≡ Some (record { text = text; status = self.entry.status }))
            (Appends start (W.contents self.exit.0.now.device)) result }
        ensures write { IfErr result IsWrite }
        ensures note { IsErrAnd result IsWrite ↔ IsTrue self.exit.0.now.failed }
    {
        let Sink {
            out,
            pieces,
            short,
            status,
        } = self;
        if out.failed() {
            return Err(ToolFault::Write { written: short });
        }
        match pieces.flush(out) {
            Ok(()) => Ok(status),
            Err(short) => Err(ToolFault::Write {
                written: short.written,
            }),
        }
    }
}
