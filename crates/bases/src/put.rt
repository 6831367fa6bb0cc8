// Bytes written into lent room, one behind another. What writes says what it wrote, and leaves every other byte of the room as it was.
ghost use Rattle.std.specs.Prelude.{[], ◌∷◌, length};
ghost use Rattle.bases.specs.Letter.{bases_of};
ghost use Rattle.bases.specs.Wrote.{HasRoom, Wrote};

use crate::letter::letter;

// Lent room, and where the next byte is written.
#[derive(Drop)]
pub struct Writer<'a> {
    pub room: &'a mut [u8],
    pub at: usize,
}

impl<'a> Writer<'a> {
    // Writes the bytes.
    pub fn bytes(&mut self, bytes: &[u8])
        requires { HasRoom self.old (length bytes.now) }
        ensures { Wrote self.old bytes.now self.new }
    {
        for (i, byte) in bytes.iter().enumerate() {
            self.room[self.at + i] = *byte;
        }
        self.at += bytes.len();
    }

    // Writes the bases that the bytes spell, in upper case.
    pub fn bases(&mut self, bytes: &[u8])
        requires { HasRoom self.old (length bytes.now) }
        ensures { Wrote self.old (bases_of bytes.now) self.new }
    {
        for byte in bytes {
            self.byte(letter(*byte));
        }
    }

    // Writes one byte.
    pub fn byte(&mut self, byte: u8)
        requires { HasRoom self.old 1 }
        ensures { Wrote self.old (byte ∷ []) self.new }
    {
        self.room[self.at] = byte;
        self.at += 1;
    }
}
