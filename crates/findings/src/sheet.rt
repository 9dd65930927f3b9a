// Writing findings into lent words. The words, the numbers skip and n and the owner stay parameters: `Noted` tells them one by one, with
// the words before and after.
ghost use Rattle.std.specs.Prelude.{◌≡◌, [], ◌∷◌, ◌+◌, ◌*◌, ◌<◌, ◌≤◌, ◌^◌, length};
ghost use Rattle.std.proofs.lemmas.List.Edits.{sets};
ghost use Rattle.findings.specs.Finding.{note, in_module, words, noted};
ghost use Rattle.findings.specs.Noting.{Noted, numbered};

// The five words of a finding, from word w on.
fn write_words(
    out: &mut [u32],
    w: usize,
    owner: u32,
    site: u32,
    first: u32,
    second: u32,
    cause: u32,
)
    requires { w + 5 ≤ length out.old }
    ensures { out.new ≡ sets out.old w (words (in_module owner (note site first second cause))) }
{
    out[w] = owner;
    out[w + 1] = site;
    out[w + 2] = first;
    out[w + 3] = second;
    out[w + 4] = cause;
}

// Writes a note of a module as finding number n, where it is not before number skip and fits wholly; the next number.
pub(crate) fn emit(
    out: &mut [u32],
    skip: usize,
    n: usize,
    owner: u32,
    site: u32,
    first: u32,
    second: u32,
    cause: u32,
) -> usize
    requires { n < 2 ^ 40 }
    ensures { Noted owner out.old skip n (note site first second cause ∷ []) result out.new }
{
    if skip <= n && n - skip < out.len() / 5 {
        write_words(out, (n - skip) * 5, owner, site, first, second, cause);
    }
    n + 1
}

// The same where the test holds.
pub(crate) fn emit_if(
    test: bool,
    out: &mut [u32],
    skip: usize,
    n: usize,
    owner: u32,
    site: u32,
    first: u32,
    second: u32,
) -> usize
    requires { n < 2 ^ 40 }
    ensures noted { Noted owner out.old skip n (noted test (note site first second 0)) result out.new }
    ensures upper_bound { result ≤ n + 1 }
{
    if test {
        return emit(out, skip, n, owner, site, first, second, 0);
    }
    n
}

// The same where there is a cause: its number is not 0.
pub(crate) fn emit_cause(
    cause: u32,
    out: &mut [u32],
    skip: usize,
    n: usize,
    owner: u32,
    site: u32,
    first: u32,
    second: u32,
) -> usize
    requires { n < 2 ^ 40 }
    ensures noted { Noted owner out.old skip n (numbered site first second cause) result out.new }
    ensures upper_bound { result ≤ n + 1 }
{
    if cause == 0 {
        return n;
    }
    emit(out, skip, n, owner, site, first, second, cause)
}
