// A thin reader that borrows the input and holds a place in it. `take` and `take_slice` take it apart and call the covered functions over
// the cursor, `take_at` and `take_slice_at`; whoever needs no reader calls those, or `first_slice`, whose parameters are plain.
#![tactic(auto)]

ghost use Rattle.std.specs.Prelude.{◌≡◌, IfSome};
ghost use Rattle.format.specs.Binary.{bytes_at};
ghost use Rattle.cursor.specs.Taken.{taken, taken_bytes, take_number, take_bytes};
ghost use Rattle.reader.specs.Width.{bytes_in};

use cursor::Cursor;

#[derive(Clone, Copy)]
pub struct Reader<'a> {
    pub src: &'a [u8],
    pub at: usize,
}

// The lengths with which the source calls `take`.
#[derive(Clone, Copy)]
pub enum Width {
    One,
    Two,
    Eight,
}

// The number in the bytes at a place, low byte first.
pub fn take_at(s: &[u8], at: usize, width: Width) -> Option<(u64, Cursor)>
    ensures { taken result ≡ take_number (bytes_in width) s.now at }
{
    let c = Cursor { at };
    match width {
        Width::One => {
            let (v, next) = c.take_u8(s)?;
            Some((u64::from(v), next))
        }
        Width::Two => {
            let (v, next) = c.take_u16(s)?;
            Some((u64::from(v), next))
        }
        Width::Eight => c.take_u64(s),
    }
}

// The `n` bytes at a place.
pub fn take_slice_at(s: &[u8], at: usize, n: u64) -> Option<(&[u8], Cursor)>
    ensures places { taken_bytes result ≡ take_bytes n s.now at }
    ensures bytes { IfSome result (λ p. p.0.now ≡ bytes_at at n s.now) }
{
    let c = Cursor { at };
    c.take_bytes(s, n)
}

// A reader at the front of the input.
pub fn new<'a>(src: &'a [u8]) -> Reader<'a>
    ensures { (result.src ≡ src.entry) × (result.at ≡ 0) }
{
    Reader { src, at: 0 }
}

// The next bytes as a number, low byte first, and the place after them.
pub fn take<'a>(r: Reader<'a>, width: Width) -> Option<(u64, Cursor)>
    ensures { taken result ≡ take_number (bytes_in width) r.entry.src.now r.entry.at }
{
    take_at(r.src, r.at, width)
}

// The next `n` bytes, and the place after them.
pub fn take_slice<'a>(r: Reader<'a>, n: u64) -> Option<(&'a [u8], Cursor)>
    ensures places { taken_bytes result ≡ take_bytes n r.entry.src.now r.entry.at }
    ensures bytes { IfSome result (λ p. p.0.now ≡ bytes_at r.entry.at n r.entry.src.now) }
{
    take_slice_at(r.src, r.at, n)
}

// The first `n` bytes of the input, through a reader: its caller needs no proof by hand.
pub fn first_slice(s: &[u8], n: u64) -> Option<(&[u8], Cursor)>
    ensures places { taken_bytes result ≡ take_bytes n s.now 0 }
    ensures bytes { IfSome result (λ p. p.0.now ≡ bytes_at 0 n s.now) }
{
    take_slice(new(s), n)
}
