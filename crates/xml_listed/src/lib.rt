// The values of three attributes of a tag.
#![tactic(auto)]

ghost use Rattle.std.specs.Prelude.{◌≡◌};
ghost use Rattle.xml_listed.specs.Listed.{listed_in};

use xml_values::Place;

#[derive(Clone, Copy)]
pub struct Listed {
    pub x: Option<Place>,
    pub y: Option<Place>,
    pub z: Option<Place>,
    pub other: bool,
}

pub fn listed_in(s: &[u8], first: usize, x: &[u8], y: &[u8], z: &[u8]) -> Listed
    ensures { result ≡ listed_in s.now first x.now y.now z.now }
{
    Listed {
        x: xml_values::plain_attribute(s, first, x),
        y: xml_values::plain_attribute(s, first, y),
        z: xml_values::plain_attribute(s, first, z),
        other: xml_values::has_other_attribute(s, first, x, y, z),
    }
}
