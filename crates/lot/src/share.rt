// A share: a fraction as two whole numbers and as parts per million.
ghost use Rattle.std.specs.Prelude.{◌≡◌, ◌≤◌};
ghost use Rattle.lot.specs.Share.{share_of};

// `top` of `bottom`, and `ppm` parts per million, rounded down. Where `bottom` is 0 there is no such fraction, and `ppm` is NONE.
#[derive(Clone, Copy, Default)]
pub struct Share {
    pub top: u32,
    pub bottom: u32,
    pub ppm: u32,
}

// What stands for 'no parts per million': no share has as many. A number, not an Option: `ppm_of` and the theorem `ppm_none_iff` name it.
pub const NONE: u32 = 4294967295;

// The whole, in parts.
const MILLION: u64 = 1000000;

// The share that `matched` has of `of`.
pub fn share_of(matched: u32, of: u32) -> Share
    requires { matched ≤ of }
    ensures { result ≡ share_of matched of }
{
    let ppm = if of == 0 {
        NONE
    } else {
        (MILLION * matched as u64 / of as u64) as u32
    };
    Share {
        top: matched,
        bottom: of,
        ppm,
    }
}
