// What compare prints for the name and the bytes of its three files.
ghost use Rattle.bases.specs.Wrote.{HasRoom, Wrote};
ghost use Rattle.std.specs.Prelude.{length};
ghost use Rattle.files.specs.Given.{Laid};
ghost use Rattle.compare.specs.Compared.{compared_text, compared_in};
ghost use Rattle.compare.specs.Printed.{text_most};

use crate::text::{MOST_ENTRIES, make_text};
use bases::put::Writer;
use files::given::Given;
use told::marked::mark_files;
use told::refused::put_refused;

// Writes what is printed for a reference file, a name and two lists.
fn compare_text(file: &[u8], name: &[u8], first: &[u8], second: &[u8], out: &mut Writer)
    requires { HasRoom out.old text_most }
    ensures { Wrote out.old (compared_text file.now name.now first.now second.now) out.new }
{
    let mut marks = [0u8; MOST_ENTRIES];
    match mark_files(file, name, first, second, &mut marks) {
        Ok(marked) => make_text(first, second, marked, &marks, out),
        Err(refusal) => put_refused(refusal, out),
    }
}

// The same for what the program is given.
pub fn compare_given(room: &[u8], given: Given, out: &mut Writer)
    requires { Laid given (length room.now)
        × HasRoom out.old text_most }
    ensures { Wrote out.old (compared_in room.now given) out.new }
{
    compare_text(
        given.reference(room),
        given.name(room),
        given.first(room),
        given.second(room),
        out,
    );
}
