// The program counts: reads a run's reference.txt, first.vcf and second.vcf, and prints the six counts of its marks. Its argument is the
// name. The contracts cite specs/.
#![tactic(auto)]

mod counted;

use bases::put::Writer;
use files::given::{LISTS_ROOM, read_lists};
use std::io;

fn main(rt: HostRuntime) -> io::Result<()> {
    let mut room = [0u8; LISTS_ROOM];
    let given = read_lists(&rt, &mut room);
    let mut line = [0u8; counted::COUNTED_MOST];
    let mut out = Writer {
        room: &mut line,
        at: 0,
    };
    counted::count_given(&room, given, &mut out);
    let end = out.at;
    rt.write_all(&line[..end])
}
