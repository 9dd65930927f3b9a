// Why no message is written.
ghost use Rattle.std.specs.Prelude.{◌≡◌};
ghost use Rattle.text.specs.Told.{untold_of};

use findings::Absent;
use reading::Refusal;

// The document is refused; or there is no message of that number; or the lent bytes are too few for its length.
#[derive(Clone, Copy, Debug, PartialEq, Eq)]
pub enum Untold {
    Refused(Refusal),
    Missing(usize),
    Short(usize),
}

// Why there is no message number k, by why there is no finding.
pub(crate) fn why_untold(absent: Absent, k: usize) -> Untold
    ensures { result ≡ untold_of k absent }
{
    match absent {
        Absent::Refused(refusal) => Untold::Refused(refusal),
        Absent::Missing(_) => Untold::Missing(k),
    }
}
