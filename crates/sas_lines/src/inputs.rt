// The inputs of a program.
use std::io::{Read, Result};

/// An input that was opened: a file or standard input. A read is one read of it.
#[derive(Drop)]
pub enum OpenInput<F, I> {
    /// A file.
    File(F),
    /// Standard input.
    Standard(I),
}

impl<F: Read, I: Read> Read for OpenInput<F, I> {
    ghost use Rattle.sas_lines.specs.Inputs.{left_of};

    ghost remaining = { left_of F.remaining I.remaining };

    fn read(&mut self, buf: &mut [u8]) -> Result<usize> {
        match self {
            OpenInput::File(file) => file.read(buf),
            OpenInput::Standard(input) => input.read(buf),
        }
    }
}
