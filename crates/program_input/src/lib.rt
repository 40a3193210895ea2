// What the programs read: the bytes of a reader in a lent room, and what stands before and behind a byte.
#![tactic(auto)]

ghost use Rattle.std.specs.Prelude.{◌≡◌, ◌+◌, ◌≤◌, ◌==◌, length, take, drop, IfOk};
ghost use Rattle.std.specs.List.{position, position_or_len};

use std::io;
use std::io::Read;

// Reads until the room is full or the input ends: how many bytes. (std reads to the end into a Vec alone, and there is no heap.)
pub fn read(input: &mut impl Read, room: &mut [u8]) -> io::Result<usize>
    ensures { IfOk result (λ n. n ≤ length room.new) }
{
    let mut done = 0;
    while done < room.len() {
        let n = input.read(&mut room[done..])?;
        if n == 0 {
            return Ok(done);
        }
        done += n;
    }
    Ok(done)
}

// The place of the first b.
fn place_of(s: &[u8], b: u8) -> Option<usize>
    ensures { result ≡ position (λ x. x == b) s.now }
{
    s.iter().position(|x| *x == b)
}

// What stands before the first b, and what behind it; the whole and nothing where there is none.
pub fn cut(s: &[u8], b: u8) -> (&[u8], &[u8])
    ensures before { result.0.now ≡ take (position_or_len (λ x. x == b) s.now) s.now }
    ensures behind { result.1.now ≡ drop (position_or_len (λ x. x == b) s.now + 1) s.now }
{
    match place_of(s, b) {
        Some(k) => (&s[..k], &s[k + 1..]),
        None => (s, &[]),
    }
}
