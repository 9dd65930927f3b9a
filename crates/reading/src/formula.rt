// Formulas.
ghost use Rattle.std.specs.Prelude.{◌≡◌};
ghost use Rattle.reading.specs.Limits.{max_u64};
ghost use Rattle.reading.specs.Item.{read_number};
ghost use Rattle.reading.specs.Combine.{◌then◌, sized};
ghost use Rattle.reading.specs.Expr.{read_expr};
ghost use Rattle.reading.specs.Formula.{read_formula, formula_cases};
ghost use Rattle.reading.specs.Link.{stands};

use crate::cursor::Cursor;
use crate::fault::{Fault, Refusal};
use crate::item::Tag;
use crate::list::U64;
use crate::pattern::Pattern;

impl Cursor {
    // A formula at whose start as many levels are left.
    #[cycle(bound_and_formula_formula_case_one_formula_two_formulas_formula)]
    pub(crate) fn formula(self, doc: &[u8], left: u64) -> Result<Cursor, Refusal>
        ensures { result ≡ stands (read_formula left doc.now self.at) }
    {
        if left == 0 {
            return Err(Fault::TooDeep.at(self.at));
        }
        let (tag, next) = self.tag(doc)?;
        next.formula_case(doc, tag, left - 1)
    }

    fn one_expr(self, doc: &[u8], tag: Tag, left: u64) -> Result<Cursor, Refusal>
        ensures { result ≡ stands (sized tag 2 (read_expr left doc.now self.at)) }
    {
        self.sized(tag, 2)?.expr(doc, left)
    }

    #[cycle(bound_and_formula_formula_case_one_formula_two_formulas_formula)]
    fn one_formula(self, doc: &[u8], tag: Tag, left: u64) -> Result<Cursor, Refusal>
        ensures { result ≡ stands (sized tag 2 (read_formula left doc.now self.at)) }
    {
        self.sized(tag, 2)?.formula(doc, left)
    }

    #[cycle(bound_and_formula_formula_case_one_formula_two_formulas_formula)]
    fn two_formulas(self, doc: &[u8], tag: Tag, left: u64) -> Result<Cursor, Refusal>
        ensures { result ≡ stands (sized tag 3 ((read_formula left then read_formula left) doc.now self.at)) }
    {
        self.sized(tag, 3)?.formula(doc, left)?.formula(doc, left)
    }

    #[cycle(bound_and_formula_formula_case_one_formula_two_formulas_formula)]
    fn bound_and_formula(self, doc: &[u8], tag: Tag, left: u64) -> Result<Cursor, Refusal>
        ensures { result ≡ stands (sized tag 3 ((read_number max_u64 then read_formula left) doc.now self.at)) }
    {
        self.sized(tag, 3)?.past::<U64>(doc)?.formula(doc, left)
    }

    // The fields of a formula's case, a row of `formula_cases` each; what is inside has as many levels left.
    #[cycle(bound_and_formula_formula_case_one_formula_two_formulas_formula)]
    fn formula_case(self, doc: &[u8], tag: Tag, left: u64) -> Result<Cursor, Refusal>
        ensures { result ≡ stands (formula_cases (read_formula left) (read_expr left) doc.now tag self.at) }
    {
        match tag.case {
            0 => self.one::<Pattern>(doc, tag),
            1 => self.one::<Pattern>(doc, tag),
            2 => self.one_expr(doc, tag, left),
            3 => self.one_formula(doc, tag, left),
            4 => self.two_formulas(doc, tag, left),
            5 => self.two_formulas(doc, tag, left),
            6 => self.two_formulas(doc, tag, left),
            7 => self.one_formula(doc, tag, left),
            8 => self.one_formula(doc, tag, left),
            9 => self.bound_and_formula(doc, tag, left),
            10 => self.bound_and_formula(doc, tag, left),
            11 => self.one_formula(doc, tag, left),
            12 => self.two_formulas(doc, tag, left),
            13..=u64::MAX => Err(Fault::Unexpected.at(tag.place)),
        }
    }
}
