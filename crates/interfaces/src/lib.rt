// The full interface table of a router: row 255 first, then a row for each previous hop, with a column for each destination.
#![tactic(auto)]

ghost use Rattle.std.specs.Prelude.{◌≡◌, ◌++◌, map, ◌≤◌, ◌<◌, length, drop, OnOk};
ghost use Rattle.rules.specs.Words.{pick, below};
ghost use Rattle.rules.specs.Table.{says};
ghost use Rattle.rules.specs.NextHops.{has, next_hops};
ghost use Rattle.rules.specs.Entries.{discard, code, interfaces};
ghost use Rattle.rules.specs.Answers.{number_in};
ghost use Rattle.rules.specs.InterfacesQuestion.{cells, interfaces_refusals};
ghost use Rattle.refusals.specs.Refusals.{found_number};
ghost use Rattle.interfaces.specs.Interfaces.{Writes, start_codes, code_from, cell_from, members_of, rows};

use entries::{Entry, STARTS_HERE, code, decide};
use refusals::{Reason, Refusal};
use search::all_from;
use sets::has;
use std::array;
use tables::{Table, accept};
use webs::web_of;

// What stands in the whole row of the router itself.
const OWN_ROW: u8 = 131;

// What the rows are written from: a router, its next-hop set and its code in row 255 for each destination, and the members of all sets.
#[derive(Clone, Copy)]
struct Rows<'a> {
    router: u8,
    sets: &'a [u64; 64],
    codes: &'a [u8; 64],
    members: u64,
    ghost gathered: { members ≡ members_of sets.now },
}

// The codes of row 255, by the router's next-hop sets for each destination.
fn start_codes(sets: &[u64; 64], router: u8) -> [u8; 64]
    ensures { result ≡ start_codes sets.now router }
{
    array::from_fn(|d| code(decide(sets[d], sets[d], router, STARTS_HERE, d as u8)))
}

// The routers that are in any of the sets.
fn all_members(sets: &[u64; 64]) -> u64
    ensures { result ≡ members_of sets.now }
{
    sets.iter().fold(0, |members, set| members | *set)
}

// Discard where the previous hop is a member of the set, else the code of row 255.
#[tactic(auto, unfolding(entries::specs::Entries::entry_told))]
fn code_from(set: u64, previous: u8, start: u8) -> u8
    ensures { result ≡ pick (has set previous) (code discard) start }
{
    if has(set, previous) {
        return code(Entry::Discard);
    }
    start
}

impl<'a> Rows<'a> {
    // The row of a previous hop that is in some of the sets. That a row has a place for 64 routers at most is asked here and of a whole row: it is a
    // fact of what is lent, not of what is written from.
    #[tactic(auto, using(crate::proofs::Cells::filling), unfolding(crate::specs::Interfaces::code_from))]
    fn write_other(&self, previous: u8, row: &mut [u8])
        requires { length row.old ≤ 64 }
        ensures { row.new ≡ map (code_from self.now.sets.now self.now.codes.now previous) (below (length row.old)) }
    {
        for (d, cell) in row.iter_mut().enumerate() {
            *cell = code_from(self.sets[d], previous, self.codes[d]);
        }
    }

    // The row of a previous hop: 131 throughout if it is the router itself, row 255 if it is in no set.
    #[tactic(auto, using(crate::proofs::Cells::own_row, crate::proofs::Cells::other_row, crate::proofs::Cells::same_row))]
    fn write_row(&self, previous: u8, row: &mut [u8])
        requires { (previous < 64) × (length row.old ≤ 64) }
        ensures { row.new
            ≡ map (cell_from self.now.sets.now self.now.codes.now self.now.router previous) (below (length row.old)) }
    {
        if previous == self.router {
            row.fill(OWN_ROW);
        } else if has(self.members, previous) {
            self.write_other(previous, row);
        } else {
            let codes = self.codes;
            row.copy_from_slice(&codes[..row.len()]);
        }
    }

    // All rows, for each of n destinations.
    #[tactic(auto, using(crate::proofs::Cells::start_row, crate::proofs::RowByRow::first_row, crate::proofs::RowByRow::row_written))]
    fn write_all(&self, n: usize, out: &mut [u8])
        requires { (n ≤ 64) × (cells n ≤ length out.old) }
        ensures { out.new
            ≡ rows (cell_from self.now.sets.now self.now.codes.now self.now.router) n n ++ drop (cells n) out.old }
    {
        let codes = self.codes;
        out[..n].copy_from_slice(&codes[..n]);
        for previous in 0..n {
            let start = (previous + 1) * n;
            self.write_row(previous as u8, &mut out[start..start + n]);
        }
    }
}

// How many bytes the table has for this many routers.
fn size_for(routers: u8) -> u16
    ensures { result ≡ cells routers }
{
    ((routers as u16) + 1) * (routers as u16)
}

// 9 and 10, of a table of so many routers, with so many bytes of room.
#[tactic(auto, using(std::proofs::lemmas::Bool::Decides::nat_tests), unfolding(rules::specs::InterfacesQuestion::interfaces_refusals))]
fn judge_interfaces(routers: u8, router: u64, room: usize) -> Result<(), Reason>
    ensures found { found_number result ≡ number_in (interfaces_refusals routers router room) }
    ensures fits { OnOk result ((router < routers) × (cells routers ≤ room)) }
{
    if (routers as u64) <= router {
        return Err(Reason::NoSuchRouter);
    }
    if room < (size_for(routers) as usize) {
        return Err(Reason::NoRoom);
    }
    Ok(())
}

// A router's next-hop sets for all destinations, of an accepted table. A function of its own, so that the web's 8,704 bytes are free again before the
// rows are written: as part of write_accepted the same lines take `tracer_interfaces` 512 bytes more of stack and 1 to 3% more time.
#[tactic(auto, using(search::proofs::OfTable::found_sets))]
fn sets_of(table: Table, router: u8) -> [u64; 64]
    ensures { result ≡ map (next_hops (says table.entry.bytes.now) router) (below 64) }
{
    let web = web_of(table.bytes, table.outline);
    all_from(&web, router).sets
}

// The interface table of an accepted table's router.
#[tactic(auto, using(tables::proofs::Asked::few_routers, crate::proofs::Cells::rows_of_table))]
fn write_accepted(table: Table, router: u8, out: &mut [u8])
    requires { (router < table.outline.routers) × (cells table.outline.routers ≤ length out.old) }
    ensures { out.new ≡ interfaces (says table.entry.bytes.now) router ++ drop (cells table.entry.outline.routers) out.old }
{
    let n = table.outline.routers as usize;
    let sets = sets_of(table, router);
    let codes = start_codes(&sets, router);
    let rows = Rows {
        router,
        sets: &sets,
        codes: &codes,
        members: all_members(&sets),
    };
    rows.write_all(n, out);
}

// The full interface table of a router; the answer is how many bytes are written.
pub fn interfaces(table: &[u8], router: u64, out: &mut [u8]) -> Result<u16, Refusal>
    ensures { Writes (record { table = table.now; router = router; out = out.old }) result out.new }
{
    let t = accept(table)?;
    let n = t.outline.routers;
    judge_interfaces(n, router, out.len())?;
    write_accepted(t, router as u8, out);
    Ok(size_for(n))
}
