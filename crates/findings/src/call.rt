// The answers to a document that reads.
ghost use Rattle.std.specs.Prelude.{◌≡◌, ◌+◌, ◌*◌, ◌≤◌, length};
ghost use Rattle.std.proofs.Math.Seq.{paste};
ghost use Rattle.findings.specs.Walks.{PutsErrors, PutsWarnings, PutsAll, PutsKept, Replies, ByKind, WarningLine, Lines};

use crate::reply::{Absent, Counts, Denied};
use crate::whole::walk_all;

// Copies so many words into another buffer, from its word at on.
fn copy_words(from: &[u32], len: usize, out: &mut [u32], at: usize)
    requires len_in_bounds { len ≤ length from.now }
    requires len_in_bounds_2 { at + len ≤ length out.old }
    ensures { out.new ≡ paste out.old at from.now len }
{
    out[at..at + len].copy_from_slice(&from[..len]);
}

// Writes all errors: those that a walk kept, where it kept all.
fn put_errors(doc: &[u8], kept: &[u32], errors: usize, out: &mut [u32])
    requires errors_bound { errors ≤ 532733824 }
    requires errors_in_bounds { 5 * errors ≤ length out.old }
    ensures { PutsErrors doc.now kept.now errors out.old out.new }
{
    let len = 5 * errors;
    if kept.len() < len {
        let mut none = [0u32; 1];
        walk_all(doc, out, 0, 0, &mut none, 0, 0);
        return;
    }
    copy_words(kept, len, out, 0);
}

// Writes all warnings after so many errors: those that a walk kept, where it kept all.
fn put_warnings(doc: &[u8], kept: &[u32], errors: usize, warnings: usize, out: &mut [u32])
    requires errors_bound { errors ≤ 532733824 }
    requires warnings_bound { warnings ≤ 531656640 }
    requires warnings_in_bounds { 5 * errors + 5 * warnings ≤ length out.old }
    ensures { PutsWarnings doc.now kept.now errors warnings out.old out.new }
{
    let len = 5 * warnings;
    if kept.len() < len {
        let mut none = [0u32; 1];
        walk_all(doc, &mut none, 0, 0, out, 0, errors);
        return;
    }
    copy_words(kept, len, out, 5 * errors);
}

// All findings, where the words suffice, from what a walk over the document kept and counted.
fn put_all(
    doc: &[u8],
    first: &[u32],
    second: &[u32],
    totals: Counts,
    out: &mut [u32],
) -> Result<Counts, Denied>
    requires errors_bound { totals.errors ≤ 532733824 }
    requires warnings_bound { totals.warnings ≤ 531656640 }
    ensures { PutsAll doc.now first.now second.now totals out.old result out.new }
{
    let all = totals.errors + totals.warnings;
    if out.len() < 5 * all {
        return Err(Denied::Short(all));
    }
    put_errors(doc, first, totals.errors, out);
    put_warnings(doc, second, totals.errors, totals.warnings, out);
    Ok(totals)
}

// All findings, where the words suffice, with room for 819 of each kind that a walk finds.
fn reply_long(doc: &[u8], out: &mut [u32]) -> Result<Counts, Denied>
    ensures { Replies doc.now out.old result out.new }
{
    let mut first = [0u32; 4095];
    let mut second = [0u32; 4095];
    let totals = walk_all(doc, &mut first, 0, 0, &mut second, 0, 0);
    put_all(doc, &first, &second, totals, out)
}

// The same where the walk kept all of them.
fn put_kept(
    first: &[u32],
    second: &[u32],
    totals: Counts,
    out: &mut [u32],
) -> Result<Counts, Denied>
    requires errors_bound { totals.errors ≤ 128 }
    requires warnings_bound { totals.warnings ≤ 128 }
    requires first_len { length first.now ≡ 640 }
    requires second_len { length second.now ≡ 640 }
    ensures { PutsKept first.now second.now totals out.old result out.new }
{
    let errors = 5 * totals.errors;
    let warnings = 5 * totals.warnings;
    if out.len() < errors + warnings {
        return Err(Denied::Short(totals.errors + totals.warnings));
    }
    copy_words(first, errors, out, 0);
    copy_words(second, warnings, out, errors);
    Ok(totals)
}

// All findings, where the words suffice, with room for 128 of each kind, if that is enough.
fn reply_short(doc: &[u8], out: &mut [u32]) -> Result<Counts, Denied>
    ensures { Replies doc.now out.old result out.new }
{
    let mut first = [0u32; 640];
    let mut second = [0u32; 640];
    let totals = walk_all(doc, &mut first, 0, 0, &mut second, 0, 0);
    if 128 < totals.errors || 128 < totals.warnings {
        return reply_long(doc, out);
    }
    put_kept(&first, &second, totals, out)
}

// All findings, where the words suffice: a long document gets more room, so that few have to be walked twice.
pub(crate) fn reply(doc: &[u8], out: &mut [u32]) -> Result<Counts, Denied>
    ensures { Replies doc.now out.old result out.new }
{
    if doc.len() < 8192 {
        return reply_short(doc, out);
    }
    reply_long(doc, out)
}

// The errors into one buffer and the warnings into another, as far as they fit.
pub(crate) fn kinds(doc: &[u8], errors: &mut [u32], warnings: &mut [u32]) -> Counts
    ensures by_kind { ByKind doc.now errors.old warnings.old result errors.new warnings.new }
    ensures result_bound { result.errors + result.warnings ≤ 1064390464 }
{
    walk_all(doc, errors, 0, 0, warnings, 0, 0)
}

// Finding number k, where it is a warning: so many errors come before the warnings.
fn warning_line(doc: &[u8], k: usize, errors: usize) -> Result<[u32; 5], Absent>
    requires { errors ≤ 532733824 }
    ensures { WarningLine doc.now k errors result }
{
    let mut none = [0u32; 1];
    let mut w = [0u32; 5];
    walk_all(doc, &mut none, 0, 0, &mut w, k, errors);
    Ok(w)
}

// Finding number k.
pub(crate) fn line(doc: &[u8], k: usize) -> Result<[u32; 5], Absent>
    ensures { Lines doc.now k result }
{
    let mut first = [0u32; 5];
    let mut second = [0u32; 1];
    let totals = walk_all(doc, &mut first, k, 0, &mut second, 0, 0);
    let errors = totals.errors;
    let all = errors + totals.warnings;
    if k < errors {
        return Ok(first);
    }
    if all <= k {
        return Err(Absent::Missing(all));
    }
    warning_line(doc, k, errors)
}
