// POS: row 8.
ghost use Rattle.std.specs.Prelude.{◌≡◌};
ghost use Rattle.fields.specs.Pos.{digit?, read_pos};

use bases::place::Pos;

// The largest POS.
pub const LARGEST_POS: usize = 65_535;

// Is the byte a decimal digit?
pub fn is_digit(byte: u8) -> bool
    ensures { result ≡ digit? byte }
{
    byte.is_ascii_digit()
}

// The POS that the field writes. `Pos(0)` is no POS, here and wherever there is none: POS counts from 1. (So the definitions read_pos and
// pos_on have it, and the theorems on them.)
pub fn read_pos(field: &[u8]) -> Pos
    ensures { result ≡ read_pos field.now }
{
    if field.is_empty() {
        return Pos(0);
    }
    if field[0] == b'0' {
        return Pos(0);
    }
    let mut value: usize = 0;
    for byte in field {
        if !is_digit(*byte) {
            return Pos(0);
        }
        value = value * 10 + (*byte - b'0') as usize;
        if LARGEST_POS < value {
            return Pos(0);
        }
    }
    Pos(value)
}
