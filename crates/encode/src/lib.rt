// The bytes of a scalar value. A part writer: it is lent the unused rest of the output, writes at the front of it and returns the length
// filled. Where the room is too short it writes nothing and returns 0.
#![tactic(auto)]

ghost use Rattle.std.specs.Prelude.{◌<◌};
ghost use Rattle.writing.specs.Written.{Put};
ghost use Rattle.encode.specs.Scalar.{one, two, three, four, scalar_bytes};

// The first code after the surrogates.
const SURROGATES_END: u32 = 0xE000;

// One byte, 0xxxxxxx.
fn put_one(out: &mut [u8], c: u32) -> usize
    requires { c < 0x80 }
    ensures { Put (one c) out.old result out.new }
{
    if out.len() < 1 {
        return 0;
    }
    out[0] = c as u8;
    1
}

// Two bytes, 110xxxxx 10xxxxxx.
fn put_two(out: &mut [u8], c: u32) -> usize
    requires { c < 0x800 }
    ensures { Put (two c) out.old result out.new }
{
    if out.len() < 2 {
        return 0;
    }
    out[0] = (0xC0 + c / 64) as u8;
    out[1] = (0x80 + c % 64) as u8;
    2
}

// Three bytes, 1110xxxx 10xxxxxx 10xxxxxx.
fn put_three(out: &mut [u8], c: u32) -> usize
    requires { c < 0x10000 }
    ensures { Put (three c) out.old result out.new }
{
    if out.len() < 3 {
        return 0;
    }
    out[0] = (0xE0 + c / 4096) as u8;
    out[1] = (0x80 + c / 64 % 64) as u8;
    out[2] = (0x80 + c % 64) as u8;
    3
}

// Four bytes, 11110xxx 10xxxxxx 10xxxxxx 10xxxxxx.
fn put_four(out: &mut [u8], c: u32) -> usize
    requires { c < 0x110000 }
    ensures { Put (four c) out.old result out.new }
{
    if out.len() < 4 {
        return 0;
    }
    out[0] = (0xF0 + c / 262144) as u8;
    out[1] = (0x80 + c / 4096 % 64) as u8;
    out[2] = (0x80 + c / 64 % 64) as u8;
    out[3] = (0x80 + c % 64) as u8;
    4
}

// The bytes of a scalar value below the surrogates.
fn put_low(out: &mut [u8], c: u32) -> usize
    requires { c < 0xD800 }
    ensures { Put (scalar_bytes c) out.old result out.new }
{
    if c < 0x80 {
        return put_one(out, c);
    }
    if c < 0x800 {
        return put_two(out, c);
    }
    put_three(out, c)
}

// The bytes of a scalar value; none of a number that is no scalar value.
pub fn encode_scalar(out: &mut [u8], c: u32) -> usize
    ensures { Put (scalar_bytes c) out.old result out.new }
{
    if c < 0xD800 {
        return put_low(out, c);
    }
    if c < SURROGATES_END {
        return 0;
    }
    if c < 0x10000 {
        return put_three(out, c);
    }
    if c < 0x110000 {
        return put_four(out, c);
    }
    0
}
