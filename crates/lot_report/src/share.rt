// Shares, written one behind another.
ghost use Rattle.std.specs.Prelude.{◌≤◌};
ghost use Rattle.bases.specs.Wrote.{HasRoom, Wrote};
ghost use Rattle.lines.specs.Lines.{largest_number};
ghost use Rattle.lot_report.specs.Printable.{PrintableShare};
ghost use Rattle.lot_report.specs.Table.{four_digits, percent, percent_most, share_text, share_most};

use bases::put::Writer;
use fields::bytes::TAB;
use lines::field::put_field;
use lot::share::Share;

// Writes the last four digits of a number.
fn put_four(n: usize, out: &mut Writer)
    requires { HasRoom out.old 4 }
    ensures { Wrote out.old (four_digits n) out.new }
{
    for unit in [1000, 100, 10, 1] {
        out.byte(b'0' + (n / unit % 10) as u8);
    }
}

// Writes parts per million as a percentage.
fn put_percent(ppm: usize, out: &mut Writer)
    requires { (ppm ≤ largest_number)
        × HasRoom out.old percent_most }
    ensures { Wrote out.old (percent ppm) out.new }
{
    put_field(ppm / 10000, b'.', out);
    put_four(ppm, out);
}

// Writes a share and the byte behind it.
pub fn put_share(share: Share, end: u8, out: &mut Writer)
    requires { PrintableShare share
        × HasRoom out.old share_most }
    ensures { Wrote out.old (share_text share end) out.new }
{
    if share.bottom == 0 {
        out.bytes(b"none\tnone\tnone");
        out.byte(end);
        return;
    }
    put_field(share.top as usize, b'/', out);
    put_field(share.bottom as usize, TAB, out);
    put_field(share.ppm as usize, TAB, out);
    put_percent(share.ppm as usize, out);
    out.byte(end);
}
