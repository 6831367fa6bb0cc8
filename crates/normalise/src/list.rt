// What normalise prints for the name and the bytes of its two files.
ghost use Rattle.std.specs.Prelude.{length};
ghost use Rattle.bases.specs.Wrote.{HasRoom, Wrote};
ghost use Rattle.files.specs.Given.{file_room, Laid};
ghost use Rattle.lines.specs.Lines.{refused_most};
ghost use Rattle.normalise.specs.Normalised.{normalised_text, normalised_in};

use bases::put::Writer;
use card::normal_text::normal;
use card::refusal::Refusal;
use files::file::ends_in_lf;
use files::given::Given;
use told::refused::{OPEN_FILE, put_refused};

// Writes what is printed for a reference file, a name and a list. The room that is left is not below the list's length.
fn normalise_text(file: &[u8], name: &[u8], text: &[u8], out: &mut Writer)
    requires { HasRoom out.old (length text.now)
        × HasRoom out.old refused_most }
    ensures { Wrote out.old (normalised_text file.now name.now text.now) out.new }
{
    if !ends_in_lf(file) {
        put_refused(OPEN_FILE, out);
        return;
    }
    let n = file.len() - 1;
    let answer = normal(&file[..n], name, text, &mut out.room[out.at..]);
    // By its number, since what card answers has the layout of the C interface.
    if answer.number != 0 {
        let refusal = Refusal {
            number: answer.number,
            list: answer.list,
            line: answer.line,
            place: answer.place,
        };
        put_refused(refusal, out);
        return;
    }
    out.at += answer.value as usize;
}

// The same for what the program is given.
pub fn normalise_given(room: &[u8], given: Given, out: &mut Writer)
    requires { Laid given (length room.now)
        × HasRoom out.old file_room }
    ensures { Wrote out.old (normalised_in room.now given) out.new }
{
    normalise_text(
        given.reference(room),
        given.name(room),
        given.first(room),
        out,
    );
}
