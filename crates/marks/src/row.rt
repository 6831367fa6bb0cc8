// The table that the search reads, filled with the next entries in merged order.
ghost use Rattle.std.specs.Prelude.{◌≡◌, ◌≤◌, ◌<◌, ◌^◌, length, map, take};
ghost use Rattle.bases.specs.Put.{put};
ghost use Rattle.donors.specs.Apart.{All};
ghost use Rattle.donors.specs.Table.{most};
ghost use Rattle.clusters.specs.Heads.{Readable, items_from};
ghost use Rattle.clusters.specs.Item.{start_of};
ghost use Rattle.marks.specs.Row.{stand_of, row_of, SmallEntry};

use bases::place::{Place, place_of};
use clusters::heads::Heads;
use clusters::item::Item;
use clusters::merged::merged_from;
use donors::table::{Allele, MOST, Row};
use vcf::entry::Entry;

// Where the bytes of allele k stand, of an entry that starts at `start`. An ALT takes its entry's span, REF takes no room.
fn stand_of(entry: Entry, start: Place, k: usize) -> Allele
    requires { (start ≡ start_of entry)
        × ((stand_of entry k).at < 2 ^ 32)
        × ((stand_of entry k).len < 2 ^ 32) }
    ensures { result ≡ stand_of entry k }
{
    if k == 0 {
        return Allele {
            room: false,
            text: false,
            at: start.0 as u32,
            len: entry.reference.len as u32,
        };
    }
    let part = if k == 1 { entry.first } else { entry.second };
    Allele {
        room: true,
        text: true,
        at: part.at as u32,
        len: part.len as u32,
    }
}

// The row of an entry, which counts 1. Its POS is not 0, and its numbers are small enough for a table.
fn row_of(item: Item) -> Row
    requires { SmallEntry item }
    ensures { result ≡ row_of item }
{
    let entry = item.entry;
    let start = place_of(entry.pos);
    Row {
        first: item.side,
        start: start.0 as u32,
        len: entry.reference.len as u32,
        weight: 1,
        copy0: stand_of(entry, start, entry.copy0),
        copy1: stand_of(entry, start, entry.copy1),
    }
}

// Writes the next `count` entries as the first rows of the table. Their numbers are small enough for it.
pub fn put_rows(first: &[u8], second: &[u8], heads: Heads, count: usize, table: &mut [Row; MOST])
    requires { Readable first.now second.now heads
        × (count ≤ length (items_from first.now second.now heads))
        × (count ≤ most)
        × All SmallEntry (take count (items_from first.now second.now heads)) }
    ensures { table.new ≡ put table.old 0 (map row_of (take count (items_from first.now second.now heads))) }
{
    for (i, item) in merged_from(first, second, heads).take(count).enumerate() {
        table[i] = row_of(item);
    }
}
