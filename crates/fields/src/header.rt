// The lines above the records: row 5.
ghost use Rattle.std.specs.Prelude.{◌≡◌};
ghost use Rattle.fields.specs.Header.{version_line?, header_line?, column_line?, header_wrong?};

use crate::bytes::{TAB, begins, find};

// The version line.
const VERSION_LINE: &[u8] = b"##fileformat=VCFv4.2";

// Is this the version line?
fn is_version_line(line: &[u8]) -> bool
    ensures { result ≡ version_line? line.now }
{
    line == VERSION_LINE
}

// Does the line begin with two hashes?
pub fn is_header_line(line: &[u8]) -> bool
    ensures { result ≡ header_line? line.now }
{
    begins(b"##", line)
}

// Is this the column line: the nine names, and a tenth column's that is not empty?
fn is_column_line(line: &[u8]) -> bool
    ensures { result ≡ column_line? line.now }
{
    let names = b"#CHROM\tPOS\tID\tREF\tALT\tQUAL\tFILTER\tINFO\tFORMAT\t";
    if !begins(names, line) {
        return false;
    }
    let end = find(line, names.len(), TAB);
    names.len() < end && end == line.len()
}

// Is this line, the n-th from 1, none that may stand above the records? Line 1 is the version line.
pub fn header_wrong(n: usize, line: &[u8]) -> bool
    ensures { result ≡ header_wrong? n line.now }
{
    if n == 1 {
        return !is_version_line(line);
    }
    !is_header_line(line) && !is_column_line(line)
}
