// A table's links laid out as a web: which routers each router is linked to, and the weights.
#![tactic(auto)]

ghost use Rattle.std.specs.Prelude.{◌≡◌};
ghost use Rattle.webs.specs.Webs.{LaysOut, numbers_of, web_with};

use links::{Link, link_by_number};
use sets::no_sets;
use tables::Outline;

// The links of a table as an adjacency matrix: 64 rows of 64 weights, 0 for no link; and for each router its neighbours, as a 64-bit number. Two arrays,
// since a walk reads one number for a router's neighbours and then a weight for each; the rows stand in one, as `web_of` promises them.
#[derive(Clone, Copy)]
pub struct Web {
    pub near: [u64; 64],
    pub weights: [u16; 4096],
}

impl Web {
    // One more link, both ways. One that cannot be laid changes nothing: not between two of 64 routers, not a < b, or with no weight.
    fn lay(&mut self, link: Link)
        ensures { self.new ≡ web_with (numbers_of link) self.old }
    {
        if link.a < link.b && link.b < 64 && link.weight != 0 {
            let i = link.a as usize;
            let k = link.b as usize;
            self.near[i] |= 1u64 << k;
            self.near[k] |= 1u64 << i;
            self.weights[64 * i + k] = link.weight;
            self.weights[64 * k + i] = link.weight;
        }
    }
}

// The web of the links that an outline tells of, whatever outline that is: so bytes and outline are two arguments and no `Table`. It is made as one
// value and changed in place: put together at the end it would be copied.
pub fn web_of(table: &[u8], t: Outline) -> Web
    ensures { LaysOut table.now t result }
{
    let mut web = Web {
        near: no_sets(),
        weights: [0; 4096],
    };
    for i in 0..t.links {
        if let Some(link) = link_by_number(table, t.start, i) {
            web.lay(link);
        }
    }
    web
}
