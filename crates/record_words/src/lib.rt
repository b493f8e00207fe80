// Words of a binary file's records: memory, addresses, the source's text, and the first words of labels and relocations.
#![tactic(auto)]

ghost use Rattle.std.specs.Prelude.{◌≡◌, map};
ghost use Rattle.std.proofs.Math.Option.{some};
ghost use Rattle.format.specs.Words.{memory_word, text_words};
ghost use Rattle.format.specs.Binary.{memories_from, addresses_from};
ghost use Rattle.writing.specs.Written.{Put};
ghost use Rattle.record_words.specs.OneWord.{memory_of_bytes, text_word_of, label_head, relocation_head};

use bytes_at::u16_at;
use writing::put_text_words;

// The memory word of three bytes: the flag and the value, low byte first.
fn memory_word(f: u8, a: u8, b: u8) -> u32
    ensures { result ≡ memory_of_bytes f a b }
{
    if f == 0xFF {
        return 0x2001_0000 + u32::from(a) + 256 * u32::from(b);
    }
    0x2000_0000
}

// The memory words of a block, three bytes to a word. This writer and the two below keep a loop each: they differ in the word that their bytes
// make and in what is said of all words, which one function over both would have to be told by as much text.
pub fn put_memory_words(out: &mut [u32], s: &[u8]) -> usize
    ensures { Put (map memory_word (memories_from s.now)) out.old result out.new }
{
    let n = s.len() / 3;
    if out.len() < n {
        return 0;
    }
    for at in 0..n {
        let i = 3 * at;
        out[at] = memory_word(s[i], s[i + 1], s[i + 2]);
    }
    n
}

// The addresses of a line block, two bytes to a word.
pub fn put_address_words(out: &mut [u32], s: &[u8]) -> usize
    ensures { Put (map (λ a. memory_word (some a)) (addresses_from s.now)) out.old result out.new }
{
    let n = s.len() / 2;
    if out.len() < n {
        return 0;
    }
    for at in 0..n {
        let i = 2 * at;
        out[at] = memory_word(0xFF, s[i], s[i + 1]);
    }
    n
}

// The text word of three bytes, the first lowest.
fn text_word(a: u8, b: u8, c: u8) -> u32
    ensures { result ≡ text_word_of a b c }
{
    0xE300_0000 + u32::from(a) + 256 * u32::from(b) + 65536 * u32::from(c)
}

// The words of a text: where all are of three bytes, one test a word.
pub fn put_source_words(out: &mut [u32], s: &[u8]) -> usize
    ensures { Put (text_words s.now) out.old result out.new }
{
    if s.len() % 3 != 0 {
        return put_text_words(out, s);
    }
    let n = s.len() / 3;
    if out.len() < n {
        return 0;
    }
    for at in 0..n {
        let i = 3 * at;
        out[at] = text_word(s[i], s[i + 1], s[i + 2]);
    }
    n
}

// The first word of the label at a place: its address, and whether it is external.
pub fn label_head(s: &[u8], p: usize) -> u32
    ensures { result ≡ label_head s.now p }
{
    let a = u32::from(u16_at(s, p, 1));
    if u16_at(s, p, 3) % 256 == 0 {
        return 0x4000_0000 + a;
    }
    0x4001_0000 + a
}

// The first word of the relocation at a place: its address, low byte first.
pub fn relocation_head(s: &[u8], p: usize) -> u32
    ensures { result ≡ relocation_head s.now p }
{
    0xA000_0000 + u32::from(u16_at(s, p, 1))
}
