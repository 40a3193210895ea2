// The reader's state and its limits.
#![tactic(auto)]

ghost use Rattle.std.specs.Prelude.{◌≡◌};

// Where a reading stands: the place of the next piece, the elements so far, how many of them are open, and the number of the
// innermost open one.
#[derive(Clone, Copy)]
pub struct Reader {
    pub at: usize,
    pub count: usize,
    pub depth: usize,
    pub top: usize,
}

impl Reader {
    // Bytes of a document, and of a tables file.
    pub const DOCUMENT: usize = 1048576;

    pub const TABLES: usize = 1048576;
    // Elements of a document, open elements, attributes of a tag.
    pub const ELEMENTS: usize = 16384;

    pub const DEPTH: usize = 32;

    pub const ATTRIBUTES: usize = 16;
    // Bytes of a name, and of a raw value.
    pub const NAME: usize = 64;

    pub const VALUE: usize = 4096;
    // Bytes of scratch that are asked for: room for one value.
    pub const SCRATCH: usize = 4096;
    // Rows of a section of a tables file, and bytes of a row before its line feed.
    pub const ROWS: usize = 65535;

    pub const ROW: usize = 4096;

    // A reader at a document's first byte.
    pub fn new() -> Self
        ensures { (result.at ≡ 0) × (result.count ≡ 0) × (result.depth ≡ 0) × (result.top ≡ 0) }
    {
        Self {
            at: 0,
            count: 0,
            depth: 0,
            top: 0,
        }
    }
}
