// What is said of a module, its initial state and version, and its variables: sites 1 to 5, and 23.
ghost use Rattle.findings.specs.Scene.{Scene};
ghost use Rattle.reading.specs.Limits.{max_list};
ghost use Rattle.text.specs.Near.{Kept};
ghost use Rattle.text.specs.Message.{of_module, initial_said, version_said, init_said, var_said};
ghost use Rattle.text.specs.Says.{WithNames, Says};

use crate::blame::untyped;
use crate::entry::{Near, entry_at};
use crate::said::{Arg, Said, two};
use typing::{after, after_head, null_at, type_expr, word};

// Sites 1 and 3: of the module alone.
#[tactic(auto, using(crate::proofs::ForeLaws::module_said))]
pub(crate) fn say_module<'a>(doc: &'a [u8], places: &'a [usize]) -> Option<Said>
    ensures { Says (Scene doc.now places.now) doc.now of_module result }
{
    two(Arg::Name(word(places, 0)), Arg::Blank, Ok(()))
}

// Site 2: of the initial state, which may be absent.
#[tactic(auto, using(crate::proofs::ForeLaws::initial_absent, crate::proofs::ForeLaws::initial_said_lem))]
pub(crate) fn say_initial<'a>(doc: &'a [u8], places: &'a [usize]) -> Option<Said>
    ensures { Says (Scene doc.now places.now) doc.now initial_said result }
{
    let at = word(places, 4);
    if null_at(doc, at) {
        return None;
    }
    two(Arg::Name(word(places, 0)), Arg::Name(at), Ok(()))
}

// Site 4: of the version, which may be absent.
#[tactic(auto, using(crate::proofs::ForeLaws::version_absent, crate::proofs::ForeLaws::version_said_lem))]
pub(crate) fn say_version<'a>(doc: &'a [u8], places: &'a [usize]) -> Option<Said>
    ensures { Says (Scene doc.now places.now) doc.now version_said result }
{
    let at = word(places, 1);
    if null_at(doc, at) {
        return None;
    }
    two(Arg::Name(word(places, 0)), Arg::Name(at), Ok(()))
}

// Site 5: of the first value of variable i.
pub(crate) fn say_init<'a>(
    doc: &'a [u8],
    places: &'a [usize],
    names: &'a [usize],
    enums: &'a [usize],
    i: usize,
    near: Option<Near>,
) -> Option<Said>
    requires { Kept max_list doc.now near }
    ensures { Says (WithNames doc.now places.now names.now enums.now) doc.now (init_said i) result }
{
    let k = entry_at(doc, word(places, 7), i, near)?;
    let name = after_head(doc, k);
    let ty = after(doc, name);
    let init = after(doc, ty);
    let t = type_expr(doc, init, 32, names, enums);
    let w = untyped(doc, t);
    two(Arg::Name(word(places, 0)), Arg::Name(name), w)
}

// Site 23: of variable i.
pub(crate) fn say_var<'a>(
    doc: &'a [u8],
    places: &'a [usize],
    i: usize,
    near: Option<Near>,
) -> Option<Said>
    requires { Kept max_list doc.now near }
    ensures { Says (Scene doc.now places.now) doc.now (var_said i) result }
{
    let k = entry_at(doc, word(places, 7), i, near)?;
    two(
        Arg::Name(word(places, 0)),
        Arg::Name(after_head(doc, k)),
        Ok(()),
    )
}
