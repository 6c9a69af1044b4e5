// An input that isn't kept open after its end.
ghost use Rattle.std.specs.Prelude.{◌≡◌, Some, None};

use std::io::{Read, Result};

/// An input that is let go where it ends, so that it isn't open while others are read. Behind the end each read returns 0 bytes.
#[derive(Drop)]
pub struct UntilEnd<R> {
    input: Option<R>,
    begun: bool,
}

impl<R> UntilEnd<R> {
    /// Returns an input that goes to the end of this one.
    pub fn new(input: R) -> UntilEnd<R>
        ensures { result.input ≡ Some input }
    {
        UntilEnd {
            input: Some(input),
            begun: false,
        }
    }

    /// Returns an input without bytes.
    pub fn nothing() -> UntilEnd<R>
        ensures { result.input ≡ None }
    {
        UntilEnd {
            input: None,
            begun: false,
        }
    }

    /// Returns whether anything was read of it, or was tried to be read.
    pub fn has_begun(&self) -> bool
        ensures { result ≡ self.now.begun }
    {
        self.begun
    }
}

impl<R: Read + Drop> Read for UntilEnd<R> {
    ghost use Rattle.std.specs.Prelude.{[], Some};
    ghost use Rattle.std.specs.Option.{option_map_or};

    // What the input has left, and nothing once it is let go.
    ghost remaining = { λ u. option_map_or R.remaining u.input (Some []) };

    fn read(&mut self, buf: &mut [u8]) -> Result<usize> {
        self.begun = true;
        let Some(input) = &mut self.input else {
            return Ok(0);
        };
        let count = input.read(buf)?;
        if count == 0 && !buf.is_empty() {
            self.input = None;
        }
        Ok(count)
    }
}
