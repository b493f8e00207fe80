// Part writers of numbers, low byte first. Each is lent the unused rest of the output, as those of `writing`.
#![tactic(auto)]

ghost use Rattle.format.specs.Digits.{digits_of};
ghost use Rattle.writing.specs.Written.{Put};

// The two bytes of a number.
pub fn put_u16_le(out: &mut [u8], v: u16) -> usize
    ensures { Put (digits_of 8 2 v) out.old result out.new }
{
    if out.len() < 2 {
        return 0;
    }
    out[..2].copy_from_slice(&v.to_le_bytes());
    2
}

// The eight bytes of a number.
pub fn put_u64_le(out: &mut [u8], v: u64) -> usize
    ensures { Put (digits_of 8 8 v) out.old result out.new }
{
    if out.len() < 8 {
        return 0;
    }
    out[..8].copy_from_slice(&v.to_le_bytes());
    8
}
