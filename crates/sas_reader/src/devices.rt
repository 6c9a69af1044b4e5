// Reads a device to its end.
ghost use Rattle.std.specs.Prelude.{◌≡◌, ◌<◌, ◌≤◌, [], None, false, length};
ghost use Rattle.sas_reader.specs.Limit.{most_bytes};
ghost use Rattle.sas_reader.specs.Reader.{FeedsMachine, Stands};

use crate::fault::{Fault, Kind};
use crate::reader::{Machine, Reader, Refusal};
use sas_lines::Watched;
use std::alloc::Global;
use std::io::Read;

/// How many bytes are read at a time.
const SMALL: usize = 4096;

/// How many are, if there is memory for them, once a read gave as many as a small piece has.
const LARGE: usize = 65_536;

/// Where the bytes of a device are read into.
#[derive(Drop)]
struct Room {
    small: [u8; SMALL],
    /// The room for larger pieces, once there is one.
    large: Vec<u8>,
    /// What the larger room is to be made with, if there may be one.
    grows: Option<Global>,
}

impl Room {
    /// Returns a small room, which may `grow` if an allocator is given for that.
    fn new(alloc: Global, grows: Option<Global>) -> Room {
        Room {
            small: [0; SMALL],
            large: Vec::new(alloc),
            grows,
        }
    }

    /// Returns the bytes to read into.
    #[inline(always)]
    fn bytes(&mut self) -> &mut [u8]
        ensures { 0 < length result.now }
    {
        if self.large.is_empty() {
            &mut self.small
        } else {
            self.large.as_mut_slice()
        }
    }

    /// Makes the room large, if it may grow, if a piece of so many bytes filled the small one, and if there is memory.
    #[inline(always)]
    fn grow(&mut self, taken: usize) {
        if taken == SMALL
            && let Some(alloc) = self.grows
        {
            self.grows = None;
            if let Ok(large) = vec![in alloc; 0u8; LARGE] {
                self.large = large;
            }
        }
    }
}

/// Reads the device to its end or to the first fault, in pieces of at most 4,096 bytes. Feeds all lines to the machine, which must have
/// accepted no line yet, and returns the machine.
///
/// An error has the first fault, the text at the fault, and the machine in its state after the fault. The fault is `Read` if a read failed,
/// `Memory` if out of memory, `TooLong` if there are more than `limit` bytes, `Trailing` if a byte follows a whole text, and `End` if the
/// text ends early. Otherwise it is the kind that the machine reports.
pub fn read_all<M: Machine, R: Read>(
    alloc: Global,
    machine: M,
    limit: u64,
    device: &mut Watched<R>,
) -> Result<M, Refusal<M>>
    requires note { device.old.failed ≡ false }
    requires small { limit ≤ most_bytes }
    requires start { M.behavior.led_by [] machine }
    ensures { FeedsMachine M.behavior R.remaining limit device.old device.new result }
{
    let reader = Reader::new(alloc, machine, limit);
    feed_all(reader, device, Room::new(alloc, None))
}

/// Like `read_all`, but after a first piece of 4,096 bytes reads pieces of at most 65,536 bytes, if there is memory for them.
pub fn read_all_large<M: Machine, R: Read>(
    alloc: Global,
    machine: M,
    limit: u64,
    device: &mut Watched<R>,
) -> Result<M, Refusal<M>>
    requires note { device.old.failed ≡ false }
    requires small { limit ≤ most_bytes }
    requires start { M.behavior.led_by [] machine }
    ensures { FeedsMachine M.behavior R.remaining limit device.old device.new result }
{
    let reader = Reader::new(alloc, machine, limit);
    feed_all(reader, device, Room::new(alloc, Some(alloc)))
}

/// Feeds the bytes of the device to the reader, to the end or to the first fault, in pieces that fit into the room.
fn feed_all<M: Machine, R: Read>(
    mut reader: Reader<M>,
    device: &mut Watched<R>,
    mut room: Room,
) -> Result<M, Refusal<M>>
    requires note { device.old.failed ≡ false }
    requires stands { Stands M.behavior reader [] }
    requires fault { reader.fault ≡ None }
    ensures { FeedsMachine M.behavior R.remaining reader.limit device.old device.new result }
{
    loop {
        let buffer = room.bytes();
        let taken = match device.take(buffer) {
            Ok(n) => n,
            Err(_) => {
                let line = reader.lines + 1;
                return Err(reader.refused(Fault {
                    line,
                    kind: Kind::Read,
                }));
            }
        };
        if taken == 0 {
            return reader.finish();
        }
        if let Err(fault) = reader.feed(&buffer[..taken]) {
            return Err(reader.refused(fault));
        }
        room.grow(taken);
    }
}
