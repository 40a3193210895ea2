// The XML declaration.
#![tactic(auto)]

ghost use Rattle.std.specs.Prelude.{◌≡◌};
ghost use Rattle.xml_declaration.specs.Declaration.{is_declaration, stands_in, setting_end, standalone_end, declaration_end};

// Whether the text t stands at `at`, as it is or in any case of its letters.
fn text_in_at(s: &[u8], at: usize, t: &[u8], any: bool) -> bool
    ensures { result ≡ stands_in any t.now s.now at }
{
    if any {
        return xml_markup::text_any_case_at(s, at, t);
    }
    text_scan::text_at(s, at, t)
}

// White space, the name, `=` and the value in quotes: the place after them, which is `at` where they do not stand.
fn setting_end(s: &[u8], at: usize, name: &[u8], value: &[u8], any: bool) -> usize
    ensures { result ≡ setting_end any name.now value.now s.now at }
{
    let n = xml_names::space_end(s, at);
    if n == at {
        return at;
    }
    if text_scan::text_at(s, n, name) {
        let Some(v) = xml_names::value_start(s, n + name.len()) else {
            return at;
        };
        if text_in_at(s, v, value, any) {
            let e = v + value.len();
            if text_scan::byte(s, e) == text_scan::byte(s, v - 1) {
                return e + 1;
            }
            return at;
        }
        return at;
    }
    at
}

// The place after `standalone` and its value from `at` on, which is `at` where they do not stand.
fn standalone_end(s: &[u8], at: usize) -> usize
    ensures { result ≡ standalone_end s.now at }
{
    let yes = setting_end(s, at, b"standalone", b"yes", false);
    if at < yes {
        return yes;
    }
    setting_end(s, at, b"standalone", b"no", false)
}

// Whether the document begins with an XML declaration, well formed or not.
pub fn is_declaration(s: &[u8]) -> bool
    ensures { result ≡ is_declaration s.now }
{
    if s.len() < 6 {
        return false;
    }
    if xml_names::is_space(s[5]) {
        return text_scan::text_at(s, 0, b"<?xml");
    }
    false
}

// The place after the XML declaration.
pub fn declaration_end(s: &[u8]) -> Option<usize>
    ensures { result ≡ declaration_end s.now }
{
    if text_scan::text_at(s, 0, b"<?xml") {
        let v = setting_end(s, 5, b"version", b"1.0", false);
        if v <= 5 {
            return None;
        }
        let e = setting_end(s, v, b"encoding", b"utf-8", true);
        let q = xml_names::space_end(s, standalone_end(s, e));
        if text_scan::text_at(s, q, b"?>") {
            return Some(q + 2);
        }
        return None;
    }
    None
}
