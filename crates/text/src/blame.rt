// What is wrong, where it stands alone.
ghost use Rattle.std.specs.Prelude.{◌≡◌};
ghost use Rattle.typing.specs.Means.{unfit_of, blame_of};
ghost use Rattle.text.specs.CauseText.{alone_blame};
ghost use Rattle.text.specs.Says.{Untyped};

use typing::{Blame, Cause, Typed, Within};

// Why an expression has no type.
pub(crate) fn untyped(doc: &[u8], t: Typed) -> Result<(), Blame>
    ensures { Untyped doc.now t result }
{
    match t {
        Ok((_, _)) => Ok(()),
        Err(cause) => Err(Blame {
            within: Within::Alone,
            cause,
        }),
    }
}

// Why a formula doesn't fit.
#[tactic(auto, using(crate::proofs::BlameLaws::fine_blame, crate::proofs::BlameLaws::unfit_blame))]
pub(crate) fn unfit(doc: &[u8], f: Result<(), Cause>) -> Result<(), Blame>
    ensures { blame_of doc.now result ≡ alone_blame (unfit_of doc.now f) }
{
    match f {
        Ok(()) => Ok(()),
        Err(cause) => Err(Blame {
            within: Within::Alone,
            cause,
        }),
    }
}
