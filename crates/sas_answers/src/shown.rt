// How bytes of a file are shown in an answer.
ghost use Rattle.std.specs.Prelude.{◌≡◌, ◌≤◌, ◌<◌, ◌+◌, ◌*◌, ◌++◌, length, flat_map, IsTrue};
ghost use Rattle.std.specs.List.{list_all};
ghost use Rattle.sas_answers.specs.Placing.{Places};
ghost use Rattle.sas_answers.specs.Shown.{hex_digit_of, is_plain_byte, shown, shown_byte, shown_name};

/// How many bytes of a name are shown, at most.
const MOST: usize = 256;

/// The most bytes that a name takes as it is shown.
pub(crate) const ROOM: usize = 1028;

/// Writes the text as it is shown to the front of the room: its first bytes, at most `most`, and ` ..` if more follow. Returns the end of
/// what it wrote.
pub fn show(room: &mut [u8], most: usize, text: &[u8]) -> usize
    requires { 4 * most + 4 ≤ length room.old }
    ensures { Places room.old room.new 0 (shown most text.now) result }
{
    if text.len() > most {
        let front = &text[..most];
        return show_before(room, front, b" ..");
    }
    match text.strip_suffix(b" ") {
        Some(front) => show_before(room, front, b"\\x20"),
        None => show_before(room, text, b""),
    }
}

/// Writes the name as it is shown to the front of the room. Returns the end of what it wrote.
pub fn show_name(room: &mut [u8], name: &[u8]) -> usize
    requires { 1028 ≤ length room.old }
    ensures { Places room.old room.new 0 (shown_name name.now) result }
{
    show(room, MOST, name)
}

/// Returns whether the name is shown as it is. If it isn't known, the answer is no.
pub(crate) fn is_shown_whole(name: &[u8]) -> bool
    ensures { IsTrue result → shown_name name.now ≡ name.now }
{
    if name.len() > MOST {
        return false;
    }
    match name.strip_suffix(b" ") {
        Some(_front) => false,
        None => are_plain(name),
    }
}

/// Returns whether each of the bytes is shown as it is.
fn are_plain(bytes: &[u8]) -> bool
    ensures { result ≡ list_all is_plain_byte bytes.now }
{
    let mut all = true;
    for byte in bytes {
        all &= is_plain(*byte);
    }
    all
}

/// Returns whether the byte is shown as it is.
fn is_plain(byte: u8) -> bool
    ensures { result ≡ is_plain_byte byte }
{
    (byte >= 32) & (byte <= 126) & (byte != b'\\')
}

/// Writes each byte as it is shown, and then `last` unchanged. Returns the end.
fn show_before(room: &mut [u8], bytes: &[u8], last: &[u8]) -> usize
    requires { 4 * length bytes.now + length last.now ≤ length room.old }
    ensures { Places room.old room.new 0 (flat_map shown_byte bytes.now ++ last.now) result }
{
    let end = show_each(room, bytes);
    put(room, end, last)
}

/// Writes each byte as it is shown. Returns the end.
fn show_each(room: &mut [u8], bytes: &[u8]) -> usize
    requires { 4 * length bytes.now ≤ length room.old }
    ensures length { length room.new ≡ length room.old }
    ensures places { Places room.old room.new 0 (flat_map shown_byte bytes.now) result }
    ensures short { result ≤ 4 * length bytes.now }
{
    let mut end = 0;
    for byte in bytes {
        end = show_byte(room, end, *byte);
    }
    end
}

/// Writes the byte at `at` as it is shown. Returns its end.
fn show_byte(room: &mut [u8], at: usize, byte: u8) -> usize
    requires { at + 4 ≤ length room.old }
    ensures length { length room.new ≡ length room.old }
    ensures places { Places room.old room.new at (shown_byte byte) result }
    ensures short { result ≤ at + 4 }
{
    if is_plain(byte) {
        return put(room, at, &[byte]);
    }
    let digits = [b'\\', b'x', hex_digit(byte / 16), hex_digit(byte % 16)];
    put(room, at, &digits)
}

/// Writes the bytes at `at`. Returns their end.
fn put(room: &mut [u8], at: usize, bytes: &[u8]) -> usize
    requires { at + length bytes.now ≤ length room.old }
    ensures length { length room.new ≡ length room.old }
    ensures places { Places room.old room.new at bytes.now result }
    ensures end { result ≡ at + length bytes.now }
{
    let end = at + bytes.len();
    room[at..end].copy_from_slice(bytes);
    end
}

/// Returns the hexadecimal digit of a number below 16, in lower case.
fn hex_digit(n: u8) -> u8
    requires { n < 16 }
    ensures { result ≡ hex_digit_of n }
{
    if n < 10 { b'0' + n } else { b'a' + (n - 10) }
}
