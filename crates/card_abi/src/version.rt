// The call `card_version`.
ghost use Rattle.std.specs.Prelude.{◌≡◌};
ghost use Rattle.card_abi.specs.Version.{card_version};

// The major part, raised whenever a call or a struct changes for its callers.
const MAJOR: u32 = 3;

// The minor part, raised whenever something is added.
const MINOR: u32 = 0;

// The version is so many times the major part, plus the minor part.
const MINORS: u32 = 65_536;

// The version of the calls.
#[unsafe(no_mangle)]
pub extern "C" fn card_version() -> u32
    ensures { result ≡ card_version }
{
    MAJOR * MINORS + MINOR
}
