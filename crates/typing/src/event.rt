// Event patterns, by the groups of events that a module declares.
ghost use Rattle.std.specs.Prelude.{◌≡◌};
ghost use Rattle.typing.specs.Blames.{Spares, JudgesPattern};
ghost use Rattle.typing.specs.Event.{blamed, JudgesStruct, JudgesVariant, JudgesGroup};

use crate::binds::null_at;
use crate::cause::{Bindings, Blame, Cause, Within};
use crate::entries::{fields_at, has_case};
use crate::field::judge_fields;
use crate::fill::{after_head, after_tag};
use crate::first::{first_variant, first_variants};
use crate::table::after;
use reading::text_at;

// Nothing is bound, for that cause.
fn alone(cause: Cause) -> Bindings
    ensures { result ≡ blamed cause }
{
    Bindings {
        blame: Err(Blame {
            within: Within::Alone,
            cause,
        }),
        words: 0,
    }
}

// The pattern's variant at a place, of the declared variant at another; both have fields.
fn judge_struct(doc: &[u8], at: usize, declared: usize, table: &mut [usize], k: usize) -> Bindings
    ensures judges_struct { JudgesStruct doc.now at declared table.old k result table.new }
    ensures spares { Spares table.old k result table.new }
{
    let given = fields_at(doc, at);
    let due = fields_at(doc, declared);
    let m = due.many;
    let n = given.many;
    if m != n {
        return alone(Cause::FieldCount(after_tag(doc, at), m, n));
    }
    judge_fields(doc, given.first, due.first, n as u8, table, k)
}

// The same for any two variants.
fn judge_variant(doc: &[u8], at: usize, declared: usize, table: &mut [usize], k: usize) -> Bindings
    ensures judges_variant { JudgesVariant doc.now at declared table.old k result table.new }
    ensures spares { Spares table.old k result table.new }
{
    let due = has_case(doc, declared, 1);
    if has_case(doc, at, 1) {
        if due {
            return judge_struct(doc, at, declared, table, k);
        }
        return alone(Cause::UnitWithFields(after_tag(doc, at)));
    }
    if due {
        return alone(Cause::FieldsWithout(after_tag(doc, at)));
    }
    Bindings {
        blame: Ok(()),
        words: 0,
    }
}

// The pattern's variant at a place, of the group whose variants stand at another, and whose name stands at a third.
fn judge_group(
    doc: &[u8],
    at: usize,
    variants: usize,
    name: usize,
    table: &mut [usize],
    k: usize,
) -> Bindings
    ensures judges_group { JudgesGroup doc.now at variants name table.old k result table.new }
    ensures spares { Spares table.old k result table.new }
{
    let variant = after_tag(doc, at);
    let f = first_variant(doc, variants, text_at(doc, variant));
    let Some(declared) = f else {
        return alone(Cause::UnknownEventVariant(variant, name));
    };
    judge_variant(doc, at, declared, table, k)
}

// What is wrong with the pattern at a place, by a table of the groups of events, if anything; and the bindings it makes, also those
// before a fault: they are put into the table from word k on.
pub fn validate_event_pattern<'a>(
    doc: &'a [u8],
    at: usize,
    events: &'a [usize],
    table: &mut [usize],
    k: usize,
) -> Bindings
    ensures judges_pattern { JudgesPattern doc.now at events.now table.old k result table.new }
    ensures spares { Spares table.old k result table.new }
{
    let name = after_head(doc, at);
    let f = first_variants(doc, events, text_at(doc, name));
    let Some(variants) = f else {
        return alone(Cause::UnknownEventGroup(name));
    };
    let variant = after(doc, name);
    if null_at(doc, variant) {
        return Bindings {
            blame: Ok(()),
            words: 0,
        };
    }
    judge_group(doc, variant, variants, name, table, k)
}
