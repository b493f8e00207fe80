// A place in the input that moves on by value: each method takes the cursor and the input, and hands back what is there with the cursor
// moved past it, or nothing where bytes are missing. Numbers are low byte first.
#![tactic(auto)]

ghost use Rattle.std.specs.Prelude.{◌≡◌, ◌+◌, ◌≤◌, ◌<◌, length, IfSome, MatchOption};
ghost use Rattle.format.specs.Binary.{bytes_at};
ghost use Rattle.cursor.specs.Taken.{taken, taken_bytes, take_number, take_bytes};

use bytes_at::{u16_at, u64_at};

// The bytes of a 2-byte number.
const U16_BYTES: u64 = 2;

#[derive(Clone, Copy)]
pub struct Cursor {
    pub at: usize,
}

impl Cursor {
    // The cursor past `n` bytes, where all of them are there.
    fn past(self, s: &[u8], n: u64) -> Option<Cursor>
        ensures { MatchOption result (length s.now < self.at + n)
            (λ c. (self.at + n ≤ length s.now) × (c.at ≡ self.at + n)) }
    {
        let left = s.len().checked_sub(self.at)?;
        if (left as u64) < n {
            return None;
        }
        Some(Cursor {
            at: self.at + n as usize,
        })
    }

    // The next byte.
    pub fn take_u8(self, s: &[u8]) -> Option<(u8, Cursor)>
        ensures { taken result ≡ take_number 1 s.now self.at }
    {
        let next = self.past(s, 1)?;
        Some((s[self.at], next))
    }

    // The number in the next two bytes.
    pub fn take_u16(self, s: &[u8]) -> Option<(u16, Cursor)>
        ensures { taken result ≡ take_number 2 s.now self.at }
    {
        let next = self.past(s, U16_BYTES)?;
        Some((u16_at(s, self.at, 0), next))
    }

    // The number in the next eight bytes.
    pub fn take_u64(self, s: &[u8]) -> Option<(u64, Cursor)>
        ensures { taken result ≡ take_number 8 s.now self.at }
    {
        let next = self.past(s, 8)?;
        Some((u64_at(s, self.at, 0), next))
    }

    // The next `n` bytes.
    pub fn take_bytes<'a>(self, s: &'a [u8], n: u64) -> Option<(&'a [u8], Cursor)>
        ensures places { taken_bytes result ≡ take_bytes n s.now self.at }
        ensures bytes { IfSome result (λ p. p.0.now ≡ bytes_at self.at n s.now) }
    {
        let next = self.past(s, n)?;
        Some((&s[self.at..next.at], next))
    }
}
