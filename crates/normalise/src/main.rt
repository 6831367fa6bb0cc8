// The program normalise: reads reference.txt and first.vcf, and writes the list in normal form, or the line of its refusal. Its argument is
// the name. The contracts cite specs/.
#![tactic(auto)]

mod list;

use bases::put::Writer;
use files::file::FILE_ROOM;
use files::given::{LIST_ROOM, read_list};
use std::io;

fn main(rt: HostRuntime) -> io::Result<()> {
    let mut room = [0u8; LIST_ROOM];
    let given = read_list(&rt, &mut room);
    let mut text = [0u8; FILE_ROOM];
    let mut out = Writer {
        room: &mut text,
        at: 0,
    };
    list::normalise_given(&room, given, &mut out);
    let end = out.at;
    rt.write_all(&text[..end])
}
