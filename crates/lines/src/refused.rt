// The line that a program prints for a refusal.
ghost use Rattle.std.specs.Prelude.{◌≤◌};
ghost use Rattle.bases.specs.Wrote.{HasRoom, Wrote};
ghost use Rattle.lines.specs.Lines.{largest_number, refused_text, refused_most};

use crate::field::{put_field, put_fields};
use bases::put::Writer;
use fields::bytes::{LF, TAB};

// Writes the text for a refusal.
pub fn refused_text(number: usize, list: usize, line: usize, place: usize, out: &mut Writer)
    requires { (number ≤ largest_number)
        × (list ≤ largest_number)
        × (line ≤ largest_number)
        × (place ≤ largest_number)
        × HasRoom out.old refused_most }
    ensures { Wrote out.old (refused_text number list line place) out.new }
{
    out.bytes(b"refused\t");
    put_fields(number, list, line, TAB, out);
    put_field(place, LF, out);
}
