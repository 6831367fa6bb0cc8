// A table of entries. Search and donors' test know an entry by its row and by nothing else.
ghost use Rattle.std.specs.Prelude.{◌≡◌};
ghost use Rattle.donors.specs.Choice.{chosen?};
ghost use Rattle.donors.specs.Table.{choice_of, copy_of, allele_of, room_at?, row_takes?};

// The most rows that a table has.
pub const MOST: usize = 12;

// The two copies of each base. Any number but 0 is copy 1: `copy_of` of specs/Table.antt.
pub const COPY_0: usize = 0;

pub const COPY_1: usize = 1;

// An allele: whether it takes its entry's span, and where its bytes stand: in the text of its list or in the reference. `text` is no enum
// round `at` and `len`: `bases_from` and `stretch` of the definitions take the text and the place apart; `room` is asked of an allele by
// itself (`room_at?`). As all numbers of a table these are below 2^32: a sum of two does not wrap, and a table takes no more than 480
// bytes of the stack.
#[derive(Clone, Copy, Default)]
pub struct Allele {
    pub room: bool,
    pub text: bool,
    pub at: u32,
    pub len: u32,
}

// An entry of a table: whether it is of list 1, the span of REF, its weight, and its alleles for copies 0 and 1. The list stays a bool: the
// definitions have it so (`list1`, `list2` of specs/Rules.antt), and an enum would have to be turned into that in each theorem.
#[derive(Clone, Copy, Default)]
pub struct Row {
    pub first: bool,
    pub start: u32,
    pub len: u32,
    pub weight: u32,
    pub copy0: Allele,
    pub copy1: Allele,
}

// Choices are the bytes `+`, `-` and `0`, and no enum: card lends the marks as bytes, and put_choices of crate marks copies these there.
// Does the choice take the entry in? `+` and `-` do.
fn is_chosen(choice: u8) -> bool
    ensures { result ≡ chosen? (choice_of choice) }
{
    matches!(choice, b'+' | b'-')
}

// The allele that the entry of a row puts on a copy, if it is chosen: as written for `+`, the other copy's for `-`.
pub fn allele_of(row: &Row, choice: u8, copy: usize) -> Allele
    ensures { result ≡ allele_of row.now (choice_of choice) (copy_of copy) }
{
    if (choice == b'-') == (copy == COPY_0) {
        return row.copy1;
    }
    row.copy0
}

// Does the entry of a row, with this choice, take its span on a copy?
pub fn has_room(row: &Row, choice: u8, copy: usize) -> bool
    ensures { result ≡ room_at? row.now (choice_of choice) (copy_of copy) }
{
    is_chosen(choice) && allele_of(row, choice, copy).room
}

// Does the entry of a row, with this choice, take its span for list 1 (or 2) on a copy?
pub fn takes(row: &Row, choice: u8, first: bool, copy: usize) -> bool
    ensures { result ≡ row_takes? row.now (choice_of choice) first (copy_of copy) }
{
    first == row.first && has_room(row, choice, copy)
}
