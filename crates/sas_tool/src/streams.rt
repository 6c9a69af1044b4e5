// The standard streams that are closed when the program starts.
use std::fs::OpenOptions;
use std::io::Result;
use std::os::fd::{AsFd, BorrowedFd};
use std::rt::Files;

/// The device that replaces a closed stream.
const NULL_DEVICE: &str = "/dev/null";

/// The error of a call on a descriptor that isn't open (`EBADF`).
const NOT_OPEN: i32 = 9;

/// What replaces the standard streams that were closed, while the program runs. Opening a file takes the lowest free number, so
/// otherwise an input would become standard input.
#[derive(Drop)]
pub struct Replacements<F> {
    input: Option<F>,
    output: Option<F>,
    error: Option<F>,
}

/// Opens `/dev/null` in place of each standard stream that is closed, and nothing if all three are open. A read of the replaced
/// standard input fails, as it is opened for writing. A write to the others fails, as they are opened for reading.
pub fn replace_closed<R: Files>(
    rt: &R,
    input: &impl AsFd,
    output: &impl AsFd,
    error: &impl AsFd,
) -> Result<Replacements<R::File>> {
    let mut to_write = OpenOptions::new();
    to_write.write(true);
    let mut to_read = OpenOptions::new();
    to_read.read(true);
    // In the order of their numbers, so that each takes its own.
    Ok(Replacements {
        input: replace_if_closed(rt, input.as_fd(), &to_write)?,
        output: replace_if_closed(rt, output.as_fd(), &to_read)?,
        error: replace_if_closed(rt, error.as_fd(), &to_read)?,
    })
}

/// Opens `/dev/null` if the stream is closed. It isn't inlined, since opening takes 4 kB of the stack for the name, and what is
/// inlined would keep them all along.
#[inline(never)]
fn replace_if_closed<R: Files>(
    rt: &R,
    stream: BorrowedFd<'_>,
    how: &OpenOptions,
) -> Result<Option<R::File>> {
    if is_closed(stream) {
        Ok(Some(how.open(rt, NULL_DEVICE)?))
    } else {
        Ok(None)
    }
}

/// Returns whether a stream is closed. An open one is duplicated, which opens no file and changes nothing that others see.
fn is_closed(stream: BorrowedFd<'_>) -> bool {
    match stream.try_clone_to_owned() {
        Ok(_) => false,
        Err(error) => error.raw_os_error() == Some(NOT_OPEN),
    }
}
