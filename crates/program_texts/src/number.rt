// The digits of a number in decimal. (Of what `write!` leaves in a lent slice std promises no bytes, and a String needs a heap.)
ghost use Rattle.std.specs.Prelude.{◌≡◌, ◌≤◌, length, take};
ghost use Rattle.program_texts.specs.Digits.{last_digits, IsDigitCount};

// Puts a number's digits, as many as it takes, from the front of a room: how many.
pub(crate) fn put_digits(n: u64, out: &mut [u8; 20]) -> usize
    ensures in_bounds { result ≤ 20 }
    ensures count { IsDigitCount n result }
    ensures digits { take result out.new ≡ last_digits result n }
{
    let k = digit_count(n);
    put_last(n, k, out);
    k
}

// How many digits a number takes.
fn digit_count(n: u64) -> usize
    ensures { IsDigitCount n result }
{
    n.checked_ilog10().map_or(1, |k| k as usize + 1)
}

// Puts the last k digits of a number from the front of a room.
fn put_last(n: u64, k: usize, out: &mut [u8])
    requires { k ≤ length out.old }
    ensures { take k out.new ≡ last_digits k n }
{
    let mut rest = n;
    for i in (0..k).rev() {
        out[i] = b'0' + (rest % 10) as u8;
        rest /= 10;
    }
}
