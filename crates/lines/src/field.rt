// Numbers and their separators, written one behind another.
ghost use Rattle.std.specs.Prelude.{◌≤◌};
ghost use Rattle.bases.specs.Wrote.{HasRoom, Wrote};
ghost use Rattle.lines.specs.Lines.{number, most_digits, largest_number, field, field_most, fields, fields_most};

use bases::put::Writer;
use fields::bytes::TAB;
use written::put::put_digits;

// The most bytes that three numbers have, with the byte behind each.
pub const FIELDS_MOST: usize = 24;

// Writes n in decimal.
fn put_number(n: usize, out: &mut Writer)
    requires { (n ≤ largest_number)
        × HasRoom out.old most_digits }
    ensures { Wrote out.old (number n) out.new }
{
    put_digits(n, [1_000_000, 100_000, 10_000, 1_000, 100, 10], out);
}

// Writes n and the byte behind it.
pub fn put_field(n: usize, end: u8, out: &mut Writer)
    requires { (n ≤ largest_number)
        × HasRoom out.old field_most }
    ensures { Wrote out.old (field n end) out.new }
{
    put_number(n, out);
    out.byte(end);
}

// Writes three numbers, with TABs between, and the byte behind them.
pub fn put_fields(a: usize, b: usize, c: usize, end: u8, out: &mut Writer)
    requires { (a ≤ largest_number)
        × (b ≤ largest_number)
        × (c ≤ largest_number)
        × HasRoom out.old fields_most }
    ensures { Wrote out.old (fields a b c end) out.new }
{
    put_field(a, TAB, out);
    put_field(b, TAB, out);
    put_field(c, end, out);
}
