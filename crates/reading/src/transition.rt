// Transitions, and what they emit and set.
ghost use Rattle.std.specs.Prelude.{◌≡◌};
ghost use Rattle.reading.specs.Transition.{read_output_expr, read_assignment, read_on_error, read_transition};
ghost use Rattle.reading.specs.Link.{stands};

use crate::cursor::Cursor;
use crate::expr::Expr;
use crate::fault::Refusal;
use crate::limits;
use crate::list::{Item, Name, U32, U64};
use crate::pattern::Pattern;

// An output that is emitted.
pub(crate) struct OutputExpr {}

impl OutputExpr {
    pub(crate) const FIELDS: u64 = 3;
}

impl Item for OutputExpr {
    ghost ends = { λ s at. stands (read_output_expr s at) };

    fn pass(c: Cursor, doc: &[u8]) -> Result<Cursor, Refusal>
        ensures value { result ≡ stands (read_output_expr doc.now c.at) }
        ensures fields { OutputExpr.FIELDS ≡ 3 }
    {
        c.fields(doc, OutputExpr::FIELDS)?
            .past::<Name>(doc)?
            .optional::<Name>(doc)?
            .list::<Expr>(doc, limits::LIST)
    }
}

// A variable that is set.
pub(crate) struct Assignment {}

impl Assignment {
    pub(crate) const FIELDS: u64 = 2;
}

impl Item for Assignment {
    ghost ends = { λ s at. stands (read_assignment s at) };

    fn pass(c: Cursor, doc: &[u8]) -> Result<Cursor, Refusal>
        ensures value { result ≡ stands (read_assignment doc.now c.at) }
        ensures fields { Assignment.FIELDS ≡ 2 }
    {
        c.fields(doc, Assignment::FIELDS)?
            .past::<Name>(doc)?
            .past::<Expr>(doc)
    }
}

// What is done on an error.
pub(crate) struct OnError {}

impl OnError {
    pub(crate) const FIELDS: u64 = 2;
}

impl Item for OnError {
    ghost ends = { λ s at. stands (read_on_error s at) };

    fn pass(c: Cursor, doc: &[u8]) -> Result<Cursor, Refusal>
        ensures value { result ≡ stands (read_on_error doc.now c.at) }
        ensures fields { OnError.FIELDS ≡ 2 }
    {
        c.fields(doc, OnError::FIELDS)?
            .past::<Name>(doc)?
            .list::<OutputExpr>(doc, limits::LIST)
    }
}

// A transition.
pub(crate) struct Transition {}

impl Transition {
    pub(crate) const FIELDS: u64 = 8;
}

impl Item for Transition {
    ghost ends = { λ s at. stands (read_transition s at) };

    fn pass(c: Cursor, doc: &[u8]) -> Result<Cursor, Refusal>
        ensures value { result ≡ stands (read_transition doc.now c.at) }
        ensures fields { Transition.FIELDS ≡ 8 }
    {
        c.fields(doc, Transition::FIELDS)?
            .past::<U64>(doc)?
            .past::<Name>(doc)?
            .past::<Pattern>(doc)?
            .optional::<Expr>(doc)?
            .past::<Name>(doc)?
            .list::<OutputExpr>(doc, limits::LIST)?
            .list::<Assignment>(doc, limits::LIST)?
            .optional::<U32>(doc)
    }
}
