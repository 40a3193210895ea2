// The pieces of markup that are read over: comments and processing instructions.
#![tactic(auto)]

ghost use Rattle.std.specs.Prelude.{◌≡◌};
ghost use Rattle.xml_markup.specs.Comments.{comment_end};
ghost use Rattle.xml_markup.specs.AnyCase.{stands_any_case};
ghost use Rattle.xml_markup.specs.Instructions.{is_target, close_end, data_end, instruction_end};

use refusals::Reason;
use text_scan::AnyCase;
use xml_reader::Reader;

// The place after the comment that begins at `at`.
pub fn comment_end(s: &[u8], at: usize) -> Option<usize>
    ensures { result ≡ comment_end s.now at }
{
    if text_scan::text_at(s, at, b"<!--") {
        for i in at + 4..s.len() {
            if s[i] != 45 {
                continue;
            }
            if text_scan::byte(s, i + 1) != 45 {
                continue;
            }
            if text_scan::byte(s, i + 2) == 62 {
                return Some(i + 3);
            }
            return None;
        }
        return None;
    }
    None
}

// Whether the text t, of small letters, stands at `at`, in any case of its letters.
pub fn text_any_case_at(s: &[u8], at: usize, t: &[u8]) -> bool
    ensures { result ≡ stands_any_case t.now s.now at }
{
    text_scan::text_read_at::<AnyCase>(s, at, t)
}

// Whether the bytes from `at` to `n` are a name that an instruction can have.
fn is_target(s: &[u8], at: usize, n: usize) -> bool
    ensures { result ≡ is_target s.now at n }
{
    if n <= at {
        return false;
    }
    if n - at != 3 {
        return true;
    }
    if text_any_case_at(s, at, b"xml") {
        return false;
    }
    true
}

// The place after the first `?>` from `at` on.
fn close_end(s: &[u8], at: usize) -> Option<usize>
    ensures { result ≡ close_end s.now at }
{
    for i in at..s.len() {
        if s[i] != 63 {
            continue;
        }
        if text_scan::byte(s, i + 1) == 62 {
            return Some(i + 2);
        }
    }
    None
}

// The same behind a target, which ends at `n`.
fn data_end(s: &[u8], n: usize) -> Option<usize>
    ensures { result ≡ data_end s.now n }
{
    if s.len() <= n {
        return None;
    }
    if xml_names::is_space(s[n]) {
        return close_end(s, n);
    }
    if text_scan::text_at(s, n, b"?>") {
        return close_end(s, n);
    }
    None
}

// The place after the processing instruction that begins at `at`, which is no XML declaration.
pub fn instruction_end(s: &[u8], at: usize) -> Result<usize, Reason>
    ensures { result ≡ instruction_end s.now at }
{
    if text_scan::text_at(s, at, b"<?") {
        let n = xml_names::name_end(s, at + 2);
        if is_target(s, at + 2, n) {
            let Some(j) = data_end(s, n) else {
                return Err(Reason::Malformed);
            };
            if Reader::NAME < n - (at + 2) {
                return Err(Reason::PastLimit);
            }
            return Ok(j);
        }
        return Err(Reason::Malformed);
    }
    Err(Reason::Malformed)
}
