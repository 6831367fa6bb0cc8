// The program compare: reads reference.txt, first.vcf and second.vcf, and prints what the card says of them. Its argument is the name. The
// contracts cite specs/.
#![tactic(auto)]

mod compared;
mod line;
mod text;

use bases::put::Writer;
use files::given::{LISTS_ROOM, read_lists};
use std::io;

fn main(rt: HostRuntime) -> io::Result<()> {
    let mut room = [0u8; LISTS_ROOM];
    let given = read_lists(&rt, &mut room);
    let mut text = [0u8; text::TEXT_MOST];
    let mut out = Writer {
        room: &mut text,
        at: 0,
    };
    compared::compare_given(&room, given, &mut out);
    let end = out.at;
    rt.write_all(&text[..end])
}
