// Lanes of transitions, one for each remainder of a print: those whose states' prints have it, by rising places. A head is the place where a
// lane starts, a link the next place on it; a place that no transition has ends it.
ghost use Rattle.std.specs.Prelude.{◌≡◌, ◌≤◌, length, replicate};
ghost use Rattle.findings.specs.Links.{Linked, Rising, Forth};

// Fills the heads and the links.
pub(crate) fn link_all(prints: &[u32; 768], count: u8, heads: &mut [u8; 256], links: &mut [u8; 256])
    requires { heads.old ≡ replicate 256 255 }
    ensures { Linked prints.now count 0 heads.new links.new }
{
    for i in (0..count).rev() {
        let at = 3 * (i as usize);
        let h = (prints[at] % 256) as usize;
        let k = i as usize;
        links[k] = heads[h];
        heads[h] = i;
    }
}

// The first place on a lane, from a place on, that is not taken.
pub(crate) fn next_free<'a>(marks: &'a [u8; 256], links: &'a [u8; 256], count: u8, from: u8) -> u8
    requires { Rising count links.now }
    ensures { Forth count links.now marks.now from result }
{
    let mut i = from;
    // A lane is followed by its links, not counted.
    while i < count {
        let k = i as usize;
        if marks[k] == 0 {
            return i;
        }
        i = links[k];
    }
    i
}
