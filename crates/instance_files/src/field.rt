//! The next field of a line, found in the bytes of a file.

ghost use Rattle.std.specs.Prelude.{◌≡◌, ◌||◌, ◌&&◌, ◌≤◌, ◌==◌, length, IfSome};
ghost use Rattle.instance_files.specs.Lines.{is_blank, is_line_feed};
ghost use Rattle.instance_files.specs.NextField.{IsNextField};
ghost use Rattle.instance_files.specs.Scan.{blanks_len, begins_with_feed, is_line_end, field_len, line_end_len};

/// What stands next in a line. Places are numbers of bytes from the file's beginning.
#[derive(Clone, Copy, Debug, PartialEq, Eq)]
pub enum Field {
    /// A field: the place of its first byte, and the place behind its last.
    Found { start: u64, end: u64 },
    /// The line has no further field, and this is the place behind its line feed.
    LineEnd { next: u64 },
    /// The line has no further field and no line feed: it is the last.
    FileEnd,
}

fn is_blank(byte: u8) -> bool
    ensures { result ≡ is_blank byte }
{
    byte == b' ' || byte == b'\t'
}

fn begins_with_feed(bytes: &[u8]) -> bool
    ensures { result ≡ begins_with_feed bytes.now }
{
    match bytes.split_first() {
        None => true,
        Some((first, _)) => *first == b'\n',
    }
}

fn is_line_end(bytes: &[u8]) -> bool
    ensures { result ≡ is_line_end bytes.now }
{
    match bytes.split_first() {
        None => true,
        Some((first, rest)) => *first == b'\n' || (*first == b'\r' && begins_with_feed(rest)),
    }
}

fn blanks_len(bytes: &[u8]) -> usize
    ensures value { result ≡ blanks_len bytes.now }
    ensures within { result ≤ length bytes.now }
{
    let mut rest = bytes;
    while let Some((first, behind)) = rest.split_first() {
        if !is_blank(*first) {
            return bytes.len() - rest.len();
        }
        rest = behind;
    }
    bytes.len()
}

fn field_len(bytes: &[u8]) -> usize
    ensures value { result ≡ field_len bytes.now }
    ensures within { result ≤ length bytes.now }
{
    let mut rest = bytes;
    while let Some((first, behind)) = rest.split_first() {
        if is_blank(*first) || is_line_end(rest) {
            return bytes.len() - rest.len();
        }
        rest = behind;
    }
    bytes.len()
}

/// How many bytes the line's end takes with its line feed, where `bytes` begin at the line's end and it has one.
fn line_end_len(bytes: &[u8]) -> Option<usize>
    ensures value { result ≡ line_end_len bytes.now }
    ensures within { IfSome result (λ len. len ≤ length bytes.now) }
{
    let (first, rest) = bytes.split_first()?;
    if *first == b'\n' {
        return Some(1);
    }
    if rest.is_empty() { None } else { Some(2) }
}

/// What stands first in the rest of the line in which `from` stands. Fields are separated by spaces and tabs, a line is
/// ended by a line feed, and a carriage return that stands last in a line isn't of it.
pub fn next_field(bytes: &[u8], from: u64) -> Field
    requires { from ≤ length bytes.now }
    ensures { IsNextField bytes.now from result }
{
    let (_, rest) = bytes.split_at(from as usize);
    let blanks = blanks_len(rest);
    let (_, line) = rest.split_at(blanks);
    let start = from + blanks as u64;
    let len = field_len(line);
    if len > 0 {
        return Field::Found {
            start,
            end: start + len as u64,
        };
    }
    match line_end_len(line) {
        None => Field::FileEnd,
        Some(more) => Field::LineEnd {
            next: start + more as u64,
        },
    }
}
