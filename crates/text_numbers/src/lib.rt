// Decimal numbers: version numbers, and days, which are eight digits, a Gregorian day, year above 0.
#![tactic(auto)]

ghost use Rattle.std.specs.Prelude.{◌≡◌, true, ◌-◌, ◌≤◌, length};
ghost use Rattle.text_scan.specs.Bytes.{is_digit};
ghost use Rattle.text_scan.specs.Lists.{every};
ghost use Rattle.text_numbers.specs.Numbers.{decimal_of, version_of};
ghost use Rattle.text_numbers.specs.Days.{is_leap, month_length, is_date, is_day};

const MONTH_LENGTHS: [u32; 12] = [31, 28, 31, 30, 31, 30, 31, 31, 30, 31, 30, 31];

// The value of a digit, and a number above 9 for any other byte from `0` on.
fn digit(b: u8) -> u32
    ensures { result ≡ b - 48 }
{
    b.saturating_sub(b'0') as u32
}

// The value of at most nine digits.
fn value(s: &[u8]) -> u32
    requires { (length s.now ≤ 9) × (every is_digit s.now ≡ true) }
    ensures { result ≡ decimal_of s.now }
{
    let mut v: u32 = 0;
    for b in s {
        v = v * 10 + digit(*b);
    }
    v
}

// The value of a version number, or 0 where s is none: no Option, since `version_of` promises the 0.
pub fn version(s: &[u8]) -> u32
    ensures { result ≡ version_of s.now }
{
    if s.len() < 1 {
        return 0;
    }
    if 9 < s.len() {
        return 0;
    }
    if text_scan::all_digits(s) {
        return value(s);
    }
    0
}

fn is_leap(year: u32) -> bool
    ensures { result ≡ is_leap year }
{
    year % 4 == 0 && (year % 100 != 0 || year % 400 == 0)
}

fn month_length(year: u32, month: u32) -> u32
    requires { (1 ≤ month) × (month ≤ 12) }
    ensures { result ≡ month_length year month }
{
    if month == 2 {
        if is_leap(year) {
            return 29;
        }
        return 28;
    }
    MONTH_LENGTHS[(month - 1) as usize]
}

fn is_date(year: u32, month: u32, day: u32) -> bool
    ensures { result ≡ is_date year month day }
{
    if year < 1 {
        return false;
    }
    if month < 1 {
        return false;
    }
    if 12 < month {
        return false;
    }
    if day < 1 {
        return false;
    }
    day <= month_length(year, month)
}

// Whether s is a day.
pub fn is_day(s: &[u8]) -> bool
    ensures { result ≡ is_day s.now }
{
    if s.len() != 8 {
        return false;
    }
    if text_scan::all_digits(s) {
        let year = value(&s[0..4]);
        let month = value(&s[4..6]);
        let day = value(&s[6..8]);
        return is_date(year, month, day);
    }
    false
}
