// What the calls of this crate answer.
ghost use Rattle.std.specs.Prelude.{◌≡◌};
ghost use Rattle.findings.specs.declared.reply.Denied.TheVariants as denied;
ghost use Rattle.findings.specs.declared.reply.Absent.TheVariants as absent;

use reading::Refusal;

// How many errors and how many warnings there are.
#[derive(Clone, Copy, Debug, PartialEq, Eq)]
pub struct Counts {
    pub errors: usize,
    pub warnings: usize,
}

// Why no findings are written: the document is refused; or the lent words are too few for so many.
#[derive(Clone, Copy, Debug, PartialEq, Eq)]
pub enum Denied {
    Refused(Refusal),
    Short(usize),
}

impl From<Refusal> for Denied {
    ghost from_gives = { λ r d. d ≡ denied.Refused r };

    fn from(refusal: Refusal) -> Self {
        Denied::Refused(refusal)
    }
}

// Why there is no such finding: the document is refused; or there are only so many.
#[derive(Clone, Copy, Debug, PartialEq, Eq)]
pub enum Absent {
    Refused(Refusal),
    Missing(usize),
}

impl From<Refusal> for Absent {
    ghost from_gives = { λ r d. d ≡ absent.Refused r };

    fn from(refusal: Refusal) -> Self {
        Absent::Refused(refusal)
    }
}
