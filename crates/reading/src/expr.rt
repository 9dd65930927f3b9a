// Expressions.
ghost use Rattle.std.specs.Prelude.{◌≡◌};
ghost use Rattle.reading.specs.Expr.{read_path, read_expr, expr_cases};
ghost use Rattle.reading.specs.Transition.{read_top_expr};
ghost use Rattle.reading.specs.Link.{stands};

use crate::cursor::Cursor;
use crate::fault::{Fault, Refusal};
use crate::item::Tag;
use crate::limits;
use crate::list::{Bool, Item, Name, U64};

// A path.
pub(crate) struct Path {}

impl Item for Path {
    ghost ends = { λ s at. stands (read_path s at) };

    fn pass(c: Cursor, doc: &[u8]) -> Result<Cursor, Refusal> {
        c.list::<Name>(doc, limits::PATH)
    }
}

// An expression that stands in no other.
pub(crate) struct Expr {}

impl Item for Expr {
    ghost ends = { λ s at. stands (read_top_expr s at) };

    fn pass(c: Cursor, doc: &[u8]) -> Result<Cursor, Refusal> {
        c.expr(doc, limits::DEPTH)
    }
}

impl Cursor {
    // An expression at whose start as many levels are left.
    #[cycle(expr_case_expr)]
    pub(crate) fn expr(self, doc: &[u8], left: u64) -> Result<Cursor, Refusal>
        ensures { result ≡ stands (read_expr left doc.now self.at) }
    {
        if left == 0 {
            return Err(Fault::TooDeep.at(self.at));
        }
        let (tag, next) = self.tag(doc)?;
        // The place alone is handed on: the whole result would be copied in pieces that overlap, and the caller would wait for them.
        let end = next.expr_case(doc, tag, left - 1)?;
        Ok(end)
    }

    // The fields of an expression's case; its operands have as many levels left.
    #[cycle(expr_case_expr)]
    fn expr_case(self, doc: &[u8], tag: Tag, left: u64) -> Result<Cursor, Refusal>
        ensures { result ≡ stands (expr_cases (read_expr left) doc.now tag self.at) }
    {
        match tag.case {
            0 => self.one::<U64>(doc, tag),
            1 => self.one::<Bool>(doc, tag),
            2 => self.one::<Path>(doc, tag),
            3 => {
                let (_, operand) = self.sized(tag, 3)?.case_number(doc, limits::UNARY_OPS)?;
                operand.expr(doc, left)
            }
            4 => {
                let (_, first) = self.sized(tag, 4)?.case_number(doc, limits::BIN_OPS)?;
                first.expr(doc, left)?.expr(doc, left)
            }
            5..=u64::MAX => Err(Fault::Unexpected.at(tag.place)),
        }
    }
}
