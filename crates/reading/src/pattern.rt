// Patterns of events and outputs.
ghost use Rattle.std.specs.Prelude.{◌≡◌};
ghost use Rattle.reading.specs.Pattern.{read_pattern_expr, read_pattern_field, read_pattern_variant, read_pattern};
ghost use Rattle.reading.specs.Link.{stands};

use crate::cursor::Cursor;
use crate::expr::Path;
use crate::fault::{Fault, Refusal};
use crate::limits;
use crate::list::{Bool, Item, Name, U64};

// What a field has to be.
pub(crate) struct PatternExpr {}

impl Item for PatternExpr {
    ghost ends = { λ s at. stands (read_pattern_expr s at) };

    fn pass(c: Cursor, doc: &[u8]) -> Result<Cursor, Refusal> {
        let (tag, next) = c.tag(doc)?;
        match tag.case {
            0 => next.sized(tag, 1),
            1 => next.one::<Name>(doc, tag),
            2 => next.one::<U64>(doc, tag),
            3 => next.one::<Bool>(doc, tag),
            4 => next.one::<Path>(doc, tag),
            5..=u64::MAX => Err(Fault::Unexpected.at(tag.place)),
        }
    }
}

// A field of a pattern.
pub(crate) struct PatternField {}

impl PatternField {
    pub(crate) const FIELDS: u64 = 2;
}

impl Item for PatternField {
    ghost ends = { λ s at. stands (read_pattern_field s at) };

    fn pass(c: Cursor, doc: &[u8]) -> Result<Cursor, Refusal>
        ensures value { result ≡ stands (read_pattern_field doc.now c.at) }
        ensures fields { PatternField.FIELDS ≡ 2 }
    {
        c.fields(doc, PatternField::FIELDS)?
            .optional::<Name>(doc)?
            .past::<PatternExpr>(doc)
    }
}

// The variant of a pattern.
pub(crate) struct PatternVariant {}

impl Item for PatternVariant {
    ghost ends = { λ s at. stands (read_pattern_variant s at) };

    fn pass(c: Cursor, doc: &[u8]) -> Result<Cursor, Refusal> {
        let (tag, next) = c.tag(doc)?;
        match tag.case {
            0 => next.one::<Name>(doc, tag),
            1 => next
                .sized(tag, 3)?
                .past::<Name>(doc)?
                .list::<PatternField>(doc, limits::LIST),
            2..=u64::MAX => Err(Fault::Unexpected.at(tag.place)),
        }
    }
}

// EventPattern and OutputPattern.
pub(crate) struct Pattern {}

impl Pattern {
    pub(crate) const FIELDS: u64 = 2;
}

impl Item for Pattern {
    ghost ends = { λ s at. stands (read_pattern s at) };

    fn pass(c: Cursor, doc: &[u8]) -> Result<Cursor, Refusal>
        ensures value { result ≡ stands (read_pattern doc.now c.at) }
        ensures fields { Pattern.FIELDS ≡ 2 }
    {
        c.fields(doc, Pattern::FIELDS)?
            .past::<Name>(doc)?
            .optional::<PatternVariant>(doc)
    }
}
