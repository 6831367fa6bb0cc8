// A program's files, read into lent room.
ghost use Rattle.std.specs.Prelude.{◌≡◌};
ghost use Rattle.files.specs.File.{IsPrefixLen, ends_in_lf?};

use fields::bytes::LF;
use std::fs::File;
use std::io::Read;
use std::rt::Files;
use std::str::from_utf8;
use vcf::list::LONGEST_TEXT;

// One byte more than the longest text that is accepted, and than the longest reference with its LF: a longer file is not cut to one that
// is accepted.
pub const FILE_ROOM: usize = LONGEST_TEXT + 1;

// Reads into the room, from its start on, until the room is full, the file ends or a read fails, and answers how many bytes that are. A
// pipe gives its bytes in parts, each read the next: how far the room is filled is what a read says, so no `for` counts it.
fn read_full(file: &mut impl Read, room: &mut [u8]) -> usize
    ensures { IsPrefixLen result room.new }
{
    let mut done = 0;
    while done < room.len() {
        match file.read(&mut room[done..]) {
            Ok(0) | Err(_) => break,
            Ok(n) => done += n,
        }
    }
    done
}

// Reads the file into the room, from its start on, and answers how many bytes that are. A file that cannot be read counts as empty, and so
// does one whose path is no UTF-8, which std does not open.
pub fn read_file(rt: &impl Files, path: &[u8], room: &mut [u8]) -> usize
    ensures { IsPrefixLen result room.new }
{
    let Ok(path) = from_utf8(path) else {
        return 0;
    };
    let Ok(mut file) = File::open(rt, path) else {
        return 0;
    };
    read_full(&mut file, room)
}

// Does the file end in LF?
pub fn ends_in_lf(file: &[u8]) -> bool
    ensures { result ≡ ends_in_lf? file.now }
{
    file.last() == Some(&LF)
}
