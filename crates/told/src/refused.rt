// What is turned away, as the programs tell it.
ghost use Rattle.bases.specs.Wrote.{HasRoom, Wrote};
ghost use Rattle.lines.specs.Lines.{refused_text, refused_most};
ghost use Rattle.told.specs.Told.{Printable};

use bases::put::Writer;
use card::refusal::Refusal;
use lines::refused::refused_text;

// Row 1, of a reference file that does not end in LF.
pub const OPEN_FILE: Refusal = Refusal {
    number: 1,
    list: 0,
    line: 0,
    place: 0,
};

// Writes the line of a refusal.
pub fn put_refused(refusal: Refusal, out: &mut Writer)
    requires { Printable refusal
        × HasRoom out.old refused_most }
    ensures { Wrote out.old (refused_text refusal.number refusal.list refusal.line refusal.place) out.new }
{
    refused_text(
        refusal.number as usize,
        refusal.list as usize,
        refusal.line as usize,
        refusal.place as usize,
        out,
    );
}
