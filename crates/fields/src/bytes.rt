// Finding bytes of a list's text.
ghost use Rattle.std.specs.Prelude.{◌≡◌, ◌+◌, drop};
ghost use Rattle.fields.specs.Bytes.{until, begins?};

pub const LF: u8 = b'\n';

pub const TAB: u8 = b'\t';

pub const COMMA: u8 = b',';

pub const COLON: u8 = b':';

// Where the first x at `from` or behind it stands, or the end of the bytes.
pub fn find(bytes: &[u8], from: usize, x: u8) -> usize
    ensures { result ≡ from + until x (drop from bytes.now) }
{
    for i in from..bytes.len() {
        if bytes[i] == x {
            return i;
        }
    }
    from.max(bytes.len())
}

// Do the bytes begin with `start`?
pub fn begins(start: &[u8], bytes: &[u8]) -> bool
    ensures { result ≡ begins? start.now bytes.now }
{
    bytes.starts_with(start)
}
