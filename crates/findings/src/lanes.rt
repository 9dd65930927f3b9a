// Lanes of a whole table.
ghost use Rattle.std.specs.Prelude.{◌≡◌, ◌/◌, ◌≤◌, length};
ghost use Rattle.typing.specs.Lanes.{Lanes};

use typing::lane_add;

// The variables of a table, with their names on lanes.
#[derive(Clone, Copy)]
pub(crate) struct Variables<'a> {
    pub doc: &'a [u8],
    pub names: &'a [usize],
    pub heads: &'a [u16],
    pub links: &'a [u16],
    pub ghost lanes: { Lanes doc.now names.now (length names.now / 2) heads.now links.now },
}

// Puts all pairs of a table on their lanes.
pub(crate) fn add_all(doc: &[u8], table: &[usize], heads: &mut [u16], links: &mut [u16])
    requires lanes { Lanes doc.now table.now 0 heads.old links.old }
    requires table_len_bound { length table.now ≤ 510 }
    requires links_len { length links.old ≡ 255 }
    ensures { Lanes doc.now table.now (length table.now / 2) heads.new links.new }
{
    let many = table.len() / 2;
    for k in 0..many {
        lane_add(doc, table, k, heads, links);
    }
}
