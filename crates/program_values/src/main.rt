// Shows values of elements: each line has the element, the name that was asked for, how the value is shown, and its bytes.
#![tactic(auto)]

use std::io;
use xml_reader::Reader;
use xml_values::View;

fn put(rt: &impl Print, bytes: &[u8]) -> io::Result<()> {
    rt.write_all(bytes)
}

fn put_number(rt: &impl Print, n: usize) -> io::Result<()> {
    print!(rt; " {n}")
}

fn put_view(rt: &impl Print, view: View) -> io::Result<()> {
    match view {
        View::Document(a, e) => {
            put(rt, b"document")?;
            put_number(rt, a)?;
            put_number(rt, e)
        }
        View::Scratch(n) => {
            put(rt, b"scratch")?;
            put_number(rt, n)
        }
    }
}

// The value in the bytes from `first` to `after`.
fn show_range(
    rt: &impl Print,
    document: &[u8],
    first: usize,
    after: usize,
    name: &[u8],
) -> io::Result<()> {
    put(rt, document)?;
    put(rt, b" [")?;
    put(rt, name)?;
    put(rt, b"] ")?;
    let mut scratch = [0u8; Reader::SCRATCH];
    put_view(
        rt,
        xml_value_reader::fill(document, &mut scratch, first, after, name),
    )?;
    put(rt, b" [")?;
    put(
        rt,
        xml_value_reader::value(document, &mut scratch, first, after, name),
    )?;
    put(rt, b"]\n")
}

fn show(rt: &impl Print, document: &[u8], name: &[u8]) -> io::Result<()> {
    show_range(rt, document, 0, document.len(), name)
}

fn attributes(rt: &impl Print) -> io::Result<()> {
    show(rt, b"<id root='1.2' extension=\"a&amp;b\"/>", b"root")?;
    show(rt, b"<id root='1.2' extension=\"a&amp;b\"/>", b"extension")?;
    show(rt, b"<id root='1.2' extension=\"a&amp;b\"/>", b"roo")?;
    show(rt, b"<id root='1.2' extension=\"a&amp;b\"/>", b"roots")?;
    show(rt, b"<id root=''/>", b"root")?;
    show(rt, b"<id root='1' root='2'/>", b"root")?;
    show(rt, b"<id root='&#65;&#x42;&lt;'>", b"root")?;
    show(rt, b"<id root='1'", b"root")?;
    show(rt, b"<id root='\xFF'/>", b"root")?;
    show(rt, b"<a b='1'>\xFF", b"b")?;
    show(rt, b"x<a b='1'/>", b"b")?;
    show_range(rt, b"x<a b='1'/>y", 1, 11, b"b")?;
    show_range(rt, b"x<a b='&gt;'/>y", 1, 14, b"b")?;
    show_range(rt, b"<a b='1'/>", 0, 11, b"b")?;
    show_range(rt, b"<a b='1'/>", 10, 0, b"b")
}

fn texts(rt: &impl Print) -> io::Result<()> {
    show(rt, b"<a>plain</a>", b"")?;
    show(rt, b"<a></a >", b"")?;
    show(rt, b"<a/>", b"")?;
    show(rt, b"<a>x<!-- c -->y</a>", b"")?;
    show(rt, b"<a><!-- c --></a>", b"")?;
    show(rt, b"<a>R&amp;D<?p q?></a>", b"")?;
    show(rt, b"<a>x<b/></a>", b"")?;
    show(rt, b"<a>x</b>", b"")?;
    show(rt, b"<a>x</ab>", b"")?;
    show(rt, b"<a>x</a> ", b"")?;
    show(rt, b"<a>x", b"")?;
    show(rt, b"<a><![CDATA[x]]></a>", b"")?;
    show(rt, b"<a>x & y</a>", b"")?;
    show(rt, b"<a>\xC3\xA9</a>", b"")?;
    show(rt, b"<a>\xC3</a>", b"")?;
    show(rt, b"<a b='1' b='1'>x</a>", b"")?;
    show_range(rt, b"<r><a>x</a></r>", 3, 11, b"")?;
    show_range(rt, b"<r><a>&#233;</a></r>", 3, 16, b"")
}

fn main(rt: HostRuntime) -> io::Result<()> {
    attributes(&rt)?;
    texts(&rt)
}
