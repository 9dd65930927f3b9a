// What a message says, as plain data: the arguments of its form, and what is wrong.
ghost use Rattle.std.specs.Prelude.{◌≡◌};
ghost use Rattle.text.specs.Said.{line};
ghost use Rattle.text.specs.declared.said.Arg.TheVariants.{Blank};

use typing::{Blame, Ty, What};

// An argument. A name is the place where it stands in the document, and a path the place of its list.
#[derive(Clone, Copy)]
pub enum Arg {
    Blank,
    Name(usize),
    Number(u64),
    Debug(Ty),
    Path(usize),
    Word(What),
}

// Five arguments, of which those not used are blank, and what is wrong.
#[derive(Clone, Copy)]
pub struct Said {
    pub args: [Arg; 5],
    pub blame: Result<(), Blame>,
}

// Two arguments.
pub(crate) fn two(a: Arg, b: Arg, w: Result<(), Blame>) -> Option<Said>
    ensures { result ≡ line a b Blank Blank Blank w }
{
    Some(Said {
        args: [a, b, Arg::Blank, Arg::Blank, Arg::Blank],
        blame: w,
    })
}

// Three.
pub(crate) fn three(a: Arg, b: Arg, c: Arg, w: Result<(), Blame>) -> Option<Said>
    ensures { result ≡ line a b c Blank Blank w }
{
    Some(Said {
        args: [a, b, c, Arg::Blank, Arg::Blank],
        blame: w,
    })
}
