// Counts, read from the fields of a line.
ghost use Rattle.std.specs.Prelude.{◌≡◌, T};
ghost use Rattle.fields.specs.Pos.{all_digits?};
ghost use Rattle.lot_report.specs.Count.{count?, count_of};

use fields::pos::is_digit;

// Is the field a count: decimal, no leading zero?
pub fn is_count(field: &[u8]) -> bool
    ensures { result ≡ count? field.now }
{
    match field {
        [] => false,
        [b'0', rest @ ..] => rest.is_empty(),
        _ => field.iter().all(|byte| is_digit(*byte)),
    }
}

// The count that a field of digits writes. What is above the largest is read as that, and what is behind is not looked at.
pub fn read_count(field: &[u8]) -> u32
    requires { T (all_digits? field.now) }
    ensures { result ≡ count_of field.now }
{
    let mut value: u32 = 0;
    for byte in field {
        if value == u32::MAX {
            return value;
        }
        value = value
            .saturating_mul(10)
            .saturating_add(u32::from(byte - b'0'));
    }
    value
}
