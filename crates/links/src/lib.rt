// Links of a table, one at a time.
#![tactic(auto)]

ghost use Rattle.std.specs.Prelude.{◌≡◌, ◌-◌, length};
ghost use Rattle.std.specs.Iterator.{at_most};
ghost use Rattle.links.specs.Links.{Tells, TellsByNumber, reader_start};
ghost use Rattle.links.specs.Runs.{Made, Moved};

use records::{LINK, joined};
use tables::accept;

// A link and the place behind its record.
#[derive(Clone, Copy, Debug, PartialEq, Eq)]
pub struct Link {
    pub a: u8,
    pub b: u8,
    pub weight: u16,
    pub behind: usize,
}

// The link whose record stands at a place, if one does.
pub fn link_at(table: &[u8], place: usize) -> Option<Link>
    ensures { Tells table.now place result }
{
    match table.get(place..)? {
        [LINK, 0, 4, a, b, high, low, ..] => Some(Link {
            a: *a,
            b: *b,
            weight: joined(*high, *low),
            behind: place + 7,
        }),
        _ => None,
    }
}

// Link i of those that start at a place: their records are 7 bytes each.
#[tactic(auto, unfolding(crate::specs::Links::link_there, crate::specs::Links::link_at, crate::specs::Links::behind, crate::specs::Links::next_numbers, crate::specs::Links::place_in))]
pub fn link_by_number(table: &[u8], start: usize, i: u16) -> Option<Link>
    ensures { TellsByNumber table.now start i result }
{
    let place = start.checked_add(7 * (i as usize))?;
    link_at(table, place)
}

// Where a reader starts: at the first link; of a refused table at its end, where no link stands.
fn first_place(table: &[u8]) -> usize
    ensures { result ≡ reader_start table.now }
{
    match accept(table) {
        Ok(t) => t.outline.start,
        Err(_) => table.len(),
    }
}

// The link reader: the table and the place of the next link, kept together, as document 01 names the form.
#[derive(Drop)]
pub struct LinkReader<'a> {
    pub table: &'a [u8],
    pub place: usize,
}

// The reader of a table's links.
pub fn read_links<'a>(table: &'a [u8]) -> LinkReader<'a>
    ensures { Made table.entry result }
{
    let place = first_place(table);
    LinkReader { table, place }
}

// The link that comes next, or no more; the reader moves behind it.
#[tactic(auto, unfolding(crate::specs::Links::place_in))]
pub fn next_link<'s, 'a>(reader: &'s mut LinkReader<'a>) -> Option<Link>
    ensures { Moved reader.old result reader.new }
{
    let next = link_at(reader.table, reader.place);
    if let Some(link) = next {
        reader.place = link.behind;
    }
    next
}

// The reader as an iterator over the links that are left; no more come than bytes are left.
impl<'a> Iterator for LinkReader<'a> {
    type Item = Link;

    ghost next_gives = { Moved };

    ghost remaining = { λ s. at_most (length s.table.now - s.place) };

    fn next(&mut self) -> Option<Link> {
        next_link(self)
    }
}
