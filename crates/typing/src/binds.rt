// Patterns in formulas: whether one binds a name.
ghost use Rattle.std.specs.Prelude.{◌≡◌, get_or, eqb};
ghost use Rattle.typing.specs.Judges.{FieldBinds, FieldsBind, VariantBinds, ChecksGroup};

use crate::cause::Cause;
use crate::entries::fields_at;
use crate::fill::after_head;
use crate::table::after;

// Whether null stands at a place.
pub fn null_at(doc: &[u8], at: usize) -> bool
    ensures { result ≡ eqb (get_or doc.now at 0) 246 }
{
    if at < doc.len() {
        return doc[at] == 246;
    }
    false
}

// Whether the pattern's field at a place has a name.
pub(crate) fn field_binds(doc: &[u8], at: usize) -> bool
    ensures { FieldBinds doc.now at result }
{
    let name = after_head(doc, at);
    if null_at(doc, name) {
        return false;
    }
    true
}

// Whether one of so many from a place on has.
pub(crate) fn fields_bind(doc: &[u8], at: usize, fields: u64) -> bool
    ensures { FieldsBind doc.now at fields result }
{
    let mut k = at;
    for _ in 0..fields {
        if field_binds(doc, k) {
            return true;
        }
        k = after(doc, k);
    }
    false
}

// Whether the variant at a place has such a field; it may be absent.
pub(crate) fn variant_binds(doc: &[u8], at: usize) -> bool
    ensures { VariantBinds doc.now at result }
{
    if null_at(doc, at) {
        return false;
    }
    let e = fields_at(doc, at);
    fields_bind(doc, e.first, e.many)
}

// What is wrong with the pattern at a place in a formula, if anything.
pub(crate) fn check_pattern_group(doc: &[u8], at: usize) -> Result<(), Cause>
    ensures { ChecksGroup doc.now at result }
{
    let group = after_head(doc, at);
    let variant = after(doc, group);
    if variant_binds(doc, variant) {
        return Err(Cause::BindingInFormula);
    }
    Ok(())
}
