// The name of a router, handed back as the very bytes inside the caller's table, and the companion question.
#![tactic(auto)]

ghost use Rattle.std.specs.Prelude.{◌≡◌, ◌+◌, ◌≤◌, length};
ghost use Rattle.rules.specs.NameQuestions.{name_for};
ghost use Rattle.names.specs.Namings.{NamesIn, NamesInTwo, part_of, part_of_two};
ghost use Rattle.names.specs.Parts.{PartAt, GivesName, GivesNameOfTwo};

use records::NAME;
use refusals::{Reason, Refusal, Which};
use tables::{Table, accept};

// The part that a name is: which table, the place of its first byte there, and its length.
#[derive(Clone, Copy, Debug, PartialEq, Eq)]
pub struct Part {
    pub table: Which,
    pub place: usize,
    pub size: usize,
}

// The name in an accepted table. Its name records follow each other behind the routers record; their length is at most 17, so its low byte tells it.
// The place is part of the answer, so it is counted.
#[tactic(auto, using(crate::proofs::Seeking::seeks_first, crate::proofs::Seeking::seeks_on))]
fn find(table: Table, which: Which, router: u8) -> Option<Part>
    ensures { result ≡ part_of which (name_for table.entry.bytes.now router) }
{
    let bytes = table.bytes;
    let mut place = 4;
    while bytes[place] == NAME {
        let size = (bytes[place + 2] as usize) - 1;
        if bytes[place + 3] == router {
            return Some(Part {
                table: which,
                place: place + 4,
                size,
            });
        }
        place += 4 + size;
    }
    None
}

// The name in the new of two accepted tables, or else the one in the old.
#[tactic(auto, unfolding(crate::specs::Namings::part_of, crate::specs::Namings::part_of_two))]
fn find_in_two(old: Table, new: Table, router: u8) -> Option<Part>
    ensures { result ≡ part_of_two (name_for old.entry.bytes.now router) (name_for new.entry.bytes.now router) }
{
    match find(new, Which::New, router) {
        Some(part) => Some(part),
        None => find(old, Which::Old, router),
    }
}

// The companion question for one table: the part that the name is, if there is one.
pub fn naming_in(table: &[u8], router: u64) -> Result<Option<Part>, Refusal>
    ensures { NamesIn (record { table = table.now; router = router }) result }
{
    let t = accept(table)?;
    if (t.outline.routers as u64) <= router {
        return Err(Reason::NoSuchRouter.into());
    }
    Ok(find(t, Which::Old, router as u8))
}

// The companion question for two tables: another question, with other refusals.
pub fn naming_in_two(old: &[u8], new: &[u8], router: u64) -> Result<Option<Part>, Refusal>
    ensures { NamesInTwo (record { old = old.now; new = new.now; router = router }) result }
{
    let o = accept(old)?;
    let n = accept(new).map_err(Refusal::in_new)?;
    if (o.outline.routers as u64) <= router || (n.outline.routers as u64) <= router {
        return Err(Reason::NoSuchRouter.into());
    }
    Ok(find_in_two(o, n, router as u8))
}

// The very part of a table that begins at a place and has so many bytes.
fn part_at<'a>(table: &'a [u8], place: usize, size: usize) -> &'a [u8]
    requires { place + size ≤ length table.now }
    ensures { PartAt table.entry place size result }
{
    &table[place..place + size]
}

// The name in one table; the empty part at its end where there is none, or a refusal. One table and two are two questions, as above.
pub fn name_in<'a>(table: &'a [u8], router: u64) -> &'a [u8]
    ensures { GivesName table.entry router result }
{
    let Ok(Some(part)) = naming_in(table, router) else {
        return part_at(table, table.len(), 0);
    };
    part_at(table, part.place, part.size)
}

// The name in the new table, or else the one in the old; the empty part at the end of the new one where there is none, or a refusal.
pub fn name_in_two<'a>(old: &'a [u8], new: &'a [u8], router: u64) -> &'a [u8]
    ensures { GivesNameOfTwo old.entry new.entry router result }
{
    let Ok(Some(part)) = naming_in_two(old, new, router) else {
        return part_at(new, new.len(), 0);
    };
    match part.table {
        Which::Old => part_at(old, part.place, part.size),
        Which::New => part_at(new, part.place, part.size),
    }
}
