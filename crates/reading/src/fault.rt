// Why bytes are refused, and where.
ghost use Rattle.std.specs.Prelude.{◌≡◌};
ghost use Rattle.reading.specs.Link.{refusal};

// The reasons, in the order of document 01's table; its desk word stands behind each.
#[derive(Clone, Copy, Debug, PartialEq, Eq)]
pub enum Fault {
    // 1, bulky: the document is over 65,535 bytes long.
    TooLong,
    // 2, torn: the bytes end inside an item, or before one that is due.
    Truncated,
    // 3, padded: additional information 28 to 31, or a longer head than needed.
    NonCanonical,
    // 4, misfiled: another kind, field count or case than is due.
    Unexpected,
    // 5, outsize: a list, string or number over its limit, or an empty name.
    OutOfRange,
    // 6, smudged: a byte outside the string's alphabet.
    OutsideAlphabet,
    // 7, nested: an expression or formula would start at depth 33.
    TooDeep,
    // 8, overhang: bytes follow the document.
    Trailing,
    // 9, unborn: ir_version over 1.
    UnknownVersion,
}

// A fault, and the place in the document that it is found at.
#[derive(Clone, Copy, Debug, PartialEq, Eq)]
pub struct Refusal {
    pub fault: Fault,
    pub place: usize,
}

impl Fault {
    pub(crate) fn at(self, place: usize) -> Refusal
        ensures { result ≡ refusal self place }
    {
        Refusal { fault: self, place }
    }
}
