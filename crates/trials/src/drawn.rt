// A cluster drawn below the reference, a line a list: the letters of an ALT from where its entry starts on, `.` elsewhere.
use donors::table::{Allele, MOST, Row};

// How long a line is.
const LINE: u32 = 60;

// Does an entry start at this place of the line?
fn starts(line: &[u8], place: u32) -> bool {
    let place = place as usize;
    place < line.len() && line[place] != b'.' && (place == 0 || line[place - 1] == b'.')
}

// Writes row n, if the table has it, and says how many rows there are then: an ALT of `alt` bases, for one base of the reference.
fn put_row(
    table: &mut [Row; MOST],
    n: usize,
    first: bool,
    start: u32,
    homozygous: bool,
    alt: u32,
) -> usize {
    if MOST <= n {
        return n;
    }
    // REF takes no room, and its bytes stand in the reference; an ALT takes its entry's span, and its bytes stand in the list's text.
    let reference = Allele {
        room: false,
        text: false,
        at: start,
        len: 1,
    };
    let written = Allele {
        room: true,
        text: true,
        at: start,
        len: alt,
    };
    table[n] = Row {
        first,
        start,
        len: 1,
        weight: 1,
        copy0: if homozygous { written } else { reference },
        copy1: written,
    };
    n + 1
}

// Writes the rows of the two lists' entries, each with an ALT of `alt` bases, and says how many they are.
pub fn put_rows(
    first: &[u8],
    second: &[u8],
    homozygous: bool,
    alt: u32,
    table: &mut [Row; MOST],
) -> usize {
    let mut n: usize = 0;
    for place in 0..LINE {
        if starts(first, place) {
            n = put_row(table, n, true, place, homozygous, alt);
        }
        if starts(second, place) {
            n = put_row(table, n, false, place, homozygous, alt);
        }
    }
    n
}
