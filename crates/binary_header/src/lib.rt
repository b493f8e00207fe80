// The seven bytes that begin a binary file (document 01, "Binary form"): its magic, then its version.
#![tactic(auto)]

ghost use Rattle.std.specs.Prelude.{◌≡◌};
ghost use Rattle.format.specs.Basics.{begins_with};
ghost use Rattle.format.specs.Binary.{header};

pub const MAGIC: [u8; 5] = [0x6F, 0x62, 0x6A, 0x21, 0x10];

pub const VERSION: [u8; 2] = [0x00, 0x01];

// The seven bytes.
pub fn file_header() -> [u8; 7]
    ensures { result ≡ header }
{
    let m = MAGIC;
    let v = VERSION;
    [m[0], m[1], m[2], m[3], m[4], v[0], v[1]]
}

// Whether the bytes of `front` come first.
fn begins_with(s: &[u8], front: &[u8]) -> bool
    ensures { result ≡ begins_with front.now s.now }
{
    s.starts_with(front)
}

// Whether the seven bytes come first.
pub fn has_header(s: &[u8]) -> bool
    ensures { result ≡ begins_with header s.now }
{
    let front = file_header();
    begins_with(s, &front)
}
