// Equal bytes, where bytes are compared as they are.
ghost use Rattle.std.specs.Prelude.{◌≡◌};
ghost use Rattle.bases.specs.Same.{agree?, same?};

// Are the two equal as far as both go?
pub fn agree(a: &[u8], b: &[u8]) -> bool
    ensures { result ≡ agree? a.now b.now }
{
    a.iter().zip(b).all(|(x, y)| *x == *y)
}

// Are the two the same bytes?
pub fn same_bytes(a: &[u8], b: &[u8]) -> bool
    ensures { result ≡ same? a.now b.now }
{
    a == b
}
