// The arguments of an output, each with its field.
ghost use Rattle.typing.specs.Blocks.{env_at};
ghost use Rattle.typing.specs.Arguments.{AcceptsTyped, AcceptsArg};
ghost use Rattle.typing.specs.Emits.{JudgesArg, JudgesArgs};

use crate::cause::{Blame, Cause, Typed, Within};
use crate::expr::type_expr;
use crate::fill::after_head;
use crate::quick::quickly_compatible;
use crate::table::{after, after_case, ty_at};

// What is wrong, if anything, with an argument that was typed, of a field whose type stands at a place.
pub(crate) fn typed_compatible(doc: &[u8], t: Typed, ty: usize) -> Result<(), Cause>
    ensures { AcceptsTyped doc.now t ty result }
{
    let (given, _) = t?;
    quickly_compatible(doc, given, ty_at(doc, ty))
}

// The argument at a place, of a field whose type stands at another: what is wrong with it, if anything.
pub fn arg_compatible<'a>(
    doc: &'a [u8],
    at: usize,
    ty: usize,
    names: &'a [usize],
    enums: &'a [usize],
) -> Result<(), Cause>
    ensures { AcceptsArg (env_at doc.now names.now enums.now) doc.now at ty result }
{
    typed_compatible(doc, type_expr(doc, at, 32, names, enums), ty)
}

// What is wrong with an argument that was typed, if anything; its field's name stands at a place, and its type at another.
pub(crate) fn judge_arg(doc: &[u8], t: Typed, name: usize, ty: usize) -> Result<(), Blame>
    ensures { JudgesArg doc.now t name ty result }
{
    let f = typed_compatible(doc, t, ty);
    match f {
        Ok(()) => Ok(()),
        Err(cause) => Err(Blame {
            within: Within::Arg(name),
            cause,
        }),
    }
}

// The same of so many arguments from a place on, and as many fields from another.
pub(crate) fn judge_args<'a>(
    doc: &'a [u8],
    at: usize,
    fields: usize,
    count: u64,
    names: &'a [usize],
    enums: &'a [usize],
) -> Result<(), Blame>
    ensures { JudgesArgs (env_at doc.now names.now enums.now) doc.now at fields count result }
{
    let mut k = at;
    let mut f = fields;
    for _ in 0..count {
        let name = after_head(doc, f);
        let ty = after(doc, name);
        let t = type_expr(doc, k, 32, names, enums);
        judge_arg(doc, t, name, ty)?;
        let Ok((_, next)) = t else {
            return Ok(());
        };
        k = next;
        f = after_case(doc, ty);
    }
    Ok(())
}
