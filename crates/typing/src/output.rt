// What is emitted: an output by the groups of outputs.
ghost use Rattle.std.specs.Prelude.{◌≡◌, ◌<◌, length};
ghost use Rattle.typing.specs.Blocks.{env_at};
ghost use Rattle.typing.specs.Rolls.{Bytes, variants_in, FindsVariant};
ghost use Rattle.typing.specs.Emits.{OnlyVariant, NamesVariant, JudgesVariant, JudgesName, JudgesGroup};
ghost use Rattle.typing.specs.Blames.{JudgesOutput};

use crate::args::judge_args;
use crate::binds::null_at;
use crate::cause::{Blame, Cause, Within};
use crate::entries::{entries_at, fields_at};
use crate::fill::{after_head, after_tag, word};
use crate::first::first_variant;
use crate::roll::roll_find;
use crate::table::after;
use reading::text_at;

// The place of the name of the only one in the list of variants at a place.
pub(crate) fn only_variant(doc: &[u8], at: usize) -> Option<usize>
    ensures { OnlyVariant doc.now at result }
{
    let e = entries_at(doc, at);
    if e.many != 1 {
        return None;
    }
    Some(after_tag(doc, e.first))
}

// The place of the variant's name: the one given, or that of the only one in a list.
pub(crate) fn variant_name(doc: &[u8], at: usize, variants: usize) -> Option<usize>
    ensures { NamesVariant doc.now at variants result }
{
    if null_at(doc, at) {
        return only_variant(doc, variants);
    }
    Some(at)
}

// What is wrong with the arguments at a place, of the variant that is declared at another and whose name is given.
pub(crate) fn judge_output_variant<'a>(
    doc: &'a [u8],
    args: usize,
    name: usize,
    decl: usize,
    names: &'a [usize],
    enums: &'a [usize],
) -> Result<(), Blame>
    ensures { JudgesVariant (env_at doc.now names.now enums.now) doc.now args name decl result }
{
    let given = entries_at(doc, args);
    let fields = fields_at(doc, decl);
    let m = given.many;
    let n = fields.many;
    if m != n {
        return Err(Blame {
            within: Within::Alone,
            cause: Cause::ArgumentCount(name, m, n),
        });
    }
    judge_args(doc, given.first, fields.first, m, names, enums)
}

// The place of the variants of group k of a table of outputs.
pub(crate) fn variants_in<'a>(doc: &'a [u8], outputs: &'a [usize], k: usize) -> usize
    requires { k < length outputs.now }
    ensures value { result ≡ variants_in doc.now outputs.now k }
    ensures bytes { Bytes doc.now }
{
    let name = after_head(doc, word(outputs, 1 + k));
    after(doc, name)
}

// The first variant of a name in group k of a table of outputs, whose variants stand at a place: by their roll, if they have one.
pub(crate) fn find_variant<'a>(
    doc: &'a [u8],
    outputs: &'a [usize],
    k: usize,
    variants: usize,
    name: &'a [u8],
) -> Option<usize>
    requires { k < length outputs.now }
    ensures { FindsVariant doc.now outputs.now k variants name.now result }
{
    let n = word(outputs, 0) % 256;
    let q = word(outputs, 1 + n + k) / 281474976710656;
    if q == 0 {
        return first_variant(doc, variants, name);
    }
    let i = roll_find(doc, outputs, q, true, name)?;
    Some(word(outputs, q + 1 + i))
}

// The same by the variants of group k of a table of outputs, which stand at a place: the first of the name.
pub(crate) fn judge_output_name<'a>(
    doc: &'a [u8],
    group: usize,
    args: usize,
    name: usize,
    outputs: &'a [usize],
    k: usize,
    variants: usize,
    names: &'a [usize],
    enums: &'a [usize],
) -> Result<(), Blame>
    requires { k < length outputs.now }
    ensures { JudgesName (env_at doc.now names.now enums.now) doc.now group args name outputs.now k variants result }
{
    let f = find_variant(doc, outputs, k, variants, text_at(doc, name));
    let Some(decl) = f else {
        return Err(Blame {
            within: Within::Alone,
            cause: Cause::UnknownOutputVariant(name, group),
        });
    };
    judge_output_variant(doc, args, name, decl, names, enums)
}

// What is wrong with the output whose group's name stands at a place, by group k of a table of outputs.
pub(crate) fn judge_output<'a>(
    doc: &'a [u8],
    group: usize,
    outputs: &'a [usize],
    k: usize,
    names: &'a [usize],
    enums: &'a [usize],
) -> Result<(), Blame>
    requires { k < length outputs.now }
    ensures { JudgesGroup (env_at doc.now names.now enums.now) doc.now group outputs.now k result }
{
    let variant = after(doc, group);
    let args = after(doc, variant);
    let variants = variants_in(doc, outputs, k);
    let f = variant_name(doc, variant, variants);
    let Some(name) = f else {
        return Err(Blame {
            within: Within::Alone,
            cause: Cause::BareOutput(group),
        });
    };
    judge_output_name(doc, group, args, name, outputs, k, variants, names, enums)
}

// What is wrong with the output at a place, by a table of outputs, if anything.
pub fn validate_output_expr<'a>(
    doc: &'a [u8],
    at: usize,
    outputs: &'a [usize],
    names: &'a [usize],
    enums: &'a [usize],
) -> Result<(), Blame>
    ensures { JudgesOutput (env_at doc.now names.now enums.now) doc.now at outputs.now result }
{
    let group = after_head(doc, at);
    let f = roll_find(doc, outputs, 0, false, text_at(doc, group));
    let Some(k) = f else {
        return Err(Blame {
            within: Within::Alone,
            cause: Cause::UnknownOutputGroup(group),
        });
    };
    judge_output(doc, group, outputs, k, names, enums)
}
