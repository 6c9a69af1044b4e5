// Readers and writers that remember whether they failed.
ghost use Rattle.std.specs.Prelude.{◌≡◌, ◌≤◌, ◌<◌, ◌↔◌, [], take, length, true, false, OnOk, IfOk, IfErr, IsErr, IsTrue};
ghost use Rattle.std.specs.Io.KnownBytes.{ReadConsumes, WriteAppends, Appends};
ghost use Rattle.sas_lines.specs.Device.{Device};

use memchr::memrchr;
use std::io::{Read, Write};
use std::marker::Model;

/// How many bytes a pipe takes at once, without those of another writer between them (`PIPE_BUF` of Linux).
const AT_ONCE: usize = 4096;

/// The device has failed.
#[derive(Clone, Copy, Debug, PartialEq, Eq)]
pub struct Failed;

/// The device failed after it had taken the first `written` bytes.
#[derive(Clone, Copy, Debug, PartialEq, Eq)]
pub struct Short {
    pub written: usize,
}

/// A reader or a writer that remembers whether a read or a write has failed. Each error of the device is a failure, even
/// `ErrorKind::Interrupted`. A write of at least one byte that takes no byte is a failure, too.
#[derive(Drop)]
pub struct Watched<D> {
    device: D,
    failed: bool,
}

impl<D> Model for Watched<D> {
    ghost Value = { Device D };

    ghost view = { λ w. record { device = w.device; failed = w.failed } };
}

impl<D> Watched<D> {
    /// Wraps a device. No read or write has failed yet.
    pub fn new(device: D) -> Watched<D>
        ensures device { result.device ≡ device }
        ensures note { result.failed ≡ false }
    {
        Watched {
            device,
            failed: false,
        }
    }

    /// Records a failure.
    fn fail(&mut self) -> Failed
        ensures device { self.new.device ≡ self.old.device }
        ensures note { self.new.failed ≡ true }
    {
        self.failed = true;
        Failed
    }

    /// Returns whether a read or a write has failed.
    pub fn failed(&self) -> bool
        ensures { result ≡ self.now.failed }
    {
        self.failed
    }

    /// Returns the wrapped device.
    pub fn device(&self) -> &D
        ensures { result.now ≡ self.now.device }
    {
        &self.device
    }

    /// Unwraps the device.
    pub fn into_device(self) -> D
        ensures { result ≡ self.device }
    {
        self.device
    }
}

impl<R: Read> Watched<R> {
    /// Reads once and returns the number of bytes stored in `buffer`, which is 0 at the end of the input. `Err` means that the device
    /// failed, which is recorded. Must not be called after a failure.
    pub fn take(&mut self, buffer: &mut [u8]) -> Result<usize, Failed>
        requires { self.old.failed ≡ false }
        ensures bound { IfOk result (λ n. n ≤ length buffer.new) }
        ensures bytes { ReadConsumes (R.remaining self.old.device) (R.remaining self.new.device)
            result buffer.new }
        ensures note { IsErr result ↔ IsTrue self.new.failed }
    {
        match self.device.read(buffer) {
            Ok(n) => Ok(n),
            Err(_) => Err(self.fail()),
        }
    }
}

impl<W: Write> Watched<W> {
    /// Writes once and returns how many of the bytes the device took: at least one, unless `bytes` is empty. `Err` means that the device
    /// failed, which is recorded. Must not be called after a failure.
    pub fn give(&mut self, bytes: &[u8]) -> Result<usize, Failed>
        requires { self.old.failed ≡ false }
        ensures bound { IfOk result (λ n. n ≤ length bytes.now) }
        ensures some { IfOk result (λ n. 0 < length bytes.now → 0 < n) }
        ensures bytes { WriteAppends (W.contents self.old.device) (W.contents self.new.device)
            result bytes.now }
        ensures note { IsErr result ↔ IsTrue self.new.failed }
    {
        match self.device.write(bytes) {
            Ok(n) if n > 0 || bytes.is_empty() => Ok(n),
            _ => Err(self.fail()),
        }
    }
}

/// Writes all bytes, in as many writes as needed. On `Err` exactly the first `written` bytes were written. If `bytes` is empty, nothing is
/// written. Must not be called after a failure.
#[tactic(auto, using(crate::proofs::Sent::sent_more))]
pub fn write_out<W: Write>(out: &mut Watched<W>, bytes: &[u8]) -> Result<(), Short>
    requires { out.old.failed ≡ false }
    ensures ok { OnOk result (Appends (W.contents out.old.device) (W.contents out.new.device)
        bytes.now) }
    ensures short { IfErr result (λ e. (e.written < length bytes.now)
        × Appends (W.contents out.old.device) (W.contents out.new.device)
        (take e.written bytes.now)) }
    ensures note { IsErr result ↔ IsTrue out.new.failed }
    ensures none { bytes.now ≡ [] → out.new ≡ out.old }
{
    let mut written = 0;
    while written < bytes.len() {
        match out.give(&bytes[written..]) {
            Ok(n) => written += n,
            Err(_) => return Err(Short { written }),
        }
    }
    Ok(())
}

/// Writes all bytes as `write_out` does, but whole lines at a time, as many as a pipe takes at once. So a pipe doesn't mix them with the
/// lines of other writers, unless a line is longer than that.
#[tactic(auto, using(crate::proofs::Sent::sent_more))]
pub fn write_lines<W: Write>(out: &mut Watched<W>, bytes: &[u8]) -> Result<(), Short>
    requires { out.old.failed ≡ false }
    ensures ok { OnOk result (Appends (W.contents out.old.device) (W.contents out.new.device)
        bytes.now) }
    ensures short { IfErr result (λ e. (e.written < length bytes.now)
        × Appends (W.contents out.old.device) (W.contents out.new.device)
        (take e.written bytes.now)) }
    ensures note { IsErr result ↔ IsTrue out.new.failed }
    ensures none { bytes.now ≡ [] → out.new ≡ out.old }
{
    let mut written = 0;
    while written < bytes.len() {
        let rest = &bytes[written..];
        let count = lines_at_once(rest);
        if let Err(short) = write_out(out, &rest[..count]) {
            return Err(Short {
                written: written + short.written,
            });
        }
        written += count;
    }
    Ok(())
}

/// Returns how many bytes the first lines have that a pipe takes at once. Of a line that is longer, they are its first bytes.
fn lines_at_once(bytes: &[u8]) -> usize
    requires { 0 < length bytes.now }
    ensures some { 0 < result }
    ensures within { result ≤ length bytes.now }
{
    if bytes.len() <= AT_ONCE {
        return bytes.len();
    }
    match memrchr(b'\n', &bytes[..AT_ONCE]) {
        Some(place) => place + 1,
        None => AT_ONCE,
    }
}
