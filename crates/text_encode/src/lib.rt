// The bytes of a code point, and bytes stored where there is a place for them.
#![tactic(auto)]

ghost use Rattle.std.specs.Prelude.{◌≡◌, length, set};
ghost use Rattle.std.proofs.lemmas.List.Edits.{sets};
ghost use Rattle.text_encode.specs.Encode.{encoded};
ghost use Rattle.text_encode.specs.Places.{up_to};

// A place among n, or n where it is behind them.
pub fn up_to(n: usize, at: usize) -> usize
    ensures { result ≡ up_to n at }
{
    at.min(n)
}

// Stores a byte, if there is a place for it.
pub fn put(b: u8, out: &mut [u8], at: usize)
    ensures { out.new ≡ set out.old at b }
{
    if at < out.len() {
        out[at] = b;
    }
}

// Stores bytes from `at` on, those for which there is a place, and answers how many they are.
fn store(bytes: &[u8], out: &mut [u8], at: usize) -> usize
    ensures { (result ≡ length bytes.now) × (out.new ≡ sets out.old at bytes.now) }
{
    let start = up_to(out.len(), at);
    for (k, b) in bytes.iter().enumerate() {
        put(*b, out, start + k);
    }
    bytes.len()
}

// Stores the bytes of a code point from `at` on, those for which there is a place, and answers how many they are.
pub fn encode(c: u32, out: &mut [u8], at: usize) -> usize
    ensures { (result ≡ length (encoded c)) × (out.new ≡ sets out.old at (encoded c)) }
{
    if 0x10FFFF < c {
        return 0;
    }
    let last = (0x80 + c % 64) as u8;
    if c < 0x80 {
        return store(&[c as u8], out, at);
    }
    if c < 0x800 {
        return store(&[(0xC0 + c / 64) as u8, last], out, at);
    }
    let third = (0x80 + c / 64 % 64) as u8;
    if c < 0x10000 {
        return store(&[(0xE0 + c / 4096) as u8, third, last], out, at);
    }
    let second = (0x80 + c / 4096 % 64) as u8;
    store(&[(0xF0 + c / 262144) as u8, second, third, last], out, at)
}
