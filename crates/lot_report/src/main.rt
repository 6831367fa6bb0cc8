// The program lot_report: reads runs.tsv, a line a run with its six counts, and prints recall and precision of each run and of the lot. The
// contracts cite specs/.
#![tactic(auto)]

mod count;
mod report;
mod run;
mod runs;
mod share;
mod table;

use bases::put::Writer;
use files::file::{FILE_ROOM, read_file};
use std::io;

fn main(rt: HostRuntime) -> io::Result<()> {
    let mut text = [0u8; FILE_ROOM];
    let mut room = [0u8; table::TABLE_MOST];
    let n = read_file(&rt, b"runs.tsv", &mut text);
    let mut out = Writer {
        room: &mut room,
        at: 0,
    };
    report::report_text(&text[..n], &mut out);
    let end = out.at;
    rt.write_all(&room[..end])
}
