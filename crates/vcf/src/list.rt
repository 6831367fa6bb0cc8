// A list's text, judged: rows 3 to 9, 11 to 15 and 20 to 23 in their order.
ghost use Rattle.std.specs.Prelude.{◌≡◌, ◌+◌, ◌<◌, ◌^◌, T, true};
ghost use Rattle.bases.specs.Letter.{bases_of};
ghost use Rattle.fields.specs.Field.{ten_fields?};
ghost use Rattle.vcf.specs.List.{text_wrong?, below?, records_behind, line_rows, next_stage, fault, judge_text, judged};
ghost use Rattle.records.specs.Row.{first_row, told};

use crate::lines::lines_of;
use bases::place::Pos;
use fields::bytes::LF;
use fields::header::{header_wrong, is_header_line};
use records::line::record_on;
use records::record::{is_too_long, record_fault};
use records::row::LineFault;

// The most bytes that a list's text has.
pub const LONGEST_TEXT: usize = 65_536;

// Where a walk from line to line stands: above the records, or below the column line behind so many records, the last at POS `last`.
#[derive(Clone, Copy)]
pub enum Stage {
    Above,
    Below { records: usize, last: Pos },
}

// A row that holds, the line where it does (from 1; 0 for row 3), and the place in that line that it tells (from 0; 0 in all rows but 20
// to 23). The row is told by its number, and 'about no line' by 0, as at records' LineFault and for the reason that stands there.
#[derive(Clone, Copy)]
pub struct Fault {
    pub number: u32,
    pub line: usize,
    pub place: usize,
}

// Is the text too long, or not ended by LF? Row 3.
fn is_text_wrong(text: &[u8]) -> bool
    ensures { result ≡ text_wrong? text.now }
{
    text.len() > LONGEST_TEXT || text.last() != Some(&LF)
}

// The first row that holds on the n-th line of a text, or none.
fn line_fault(
    reference: &[u8],
    name: &[u8],
    stage: Stage,
    n: usize,
    line: &[u8],
) -> Result<(), LineFault>
    ensures { result ≡ told (first_row (line_rows (bases_of reference.now) name.now stage n line.now)) }
{
    match stage {
        Stage::Below { records, last } => record_fault(reference, name, records, last, line),
        Stage::Above if is_too_long(line) => Err(LineFault { number: 4, at: 0 }),
        Stage::Above if header_wrong(n, line) => Err(LineFault { number: 5, at: 0 }),
        Stage::Above => Ok(()),
    }
}

// Where a line leads. Below the column line it is a line of ten fields.
fn next_stage(stage: Stage, line: &[u8]) -> Stage
    requires { (below? stage ≡ true → T (ten_fields? line.now))
        × (records_behind stage + 1 < 2 ^ 64) }
    ensures { result ≡ next_stage stage line.now }
{
    match stage {
        Stage::Below { records, .. } => Stage::Below {
            records: records + 1,
            last: record_on(line).pos(),
        },
        Stage::Above if is_header_line(line) => Stage::Above,
        Stage::Above => Stage::Below {
            records: 0,
            last: Pos(0),
        },
    }
}

// A row that holds at a line, and the place in it.
fn fault_at(number: u32, line: usize, place: usize) -> Fault
    ensures { result ≡ fault number line place }
{
    Fault {
        number,
        line,
        place,
    }
}

// The first fault of a list's text: row 3, then the lines from the top.
pub fn judge(reference: &[u8], name: &[u8], text: &[u8]) -> Result<(), Fault>
    ensures { result ≡ judged (judge_text (bases_of reference.now) name.now text.now) }
{
    if is_text_wrong(text) {
        return Err(fault_at(3, 0, 0));
    }
    let mut stage = Stage::Above;
    // By hand, since the count is read behind the loop too, where `enumerate` tells none.
    let mut n: usize = 1;
    for line in lines_of(text) {
        if let Err(told) = line_fault(reference, name, stage, n, line) {
            return Err(fault_at(told.number, n, told.at));
        }
        stage = next_stage(stage, line);
        n += 1;
    }
    match stage {
        Stage::Above => Err(fault_at(5, n, 0)),
        Stage::Below { .. } => Ok(()),
    }
}
