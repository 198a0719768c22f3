// What a router does with a packet: the entry by a next-hop set, its code, and the entry question.
#![tactic(auto)]

ghost use Rattle.std.specs.Prelude.{◌≡◌, ◌<◌};
ghost use Rattle.rules.specs.Answers.{number_in};
ghost use Rattle.rules.specs.EntryQuestion.{entry_refusals, entry_asked};
ghost use Rattle.refusals.specs.Refusals.{found_number};
ghost use Rattle.entries.specs.Entries.{entry_told, Decides, Codes, Enters};

use refusals::{Reason, Refusal};
use routes::next_hops;
use search::costs_from;
use sets::{chosen, has};
use tables::{Table, accept};
use webs::web_of;

// The entry of a router: what it does with a packet.
#[derive(Clone, Copy, Debug, PartialEq, Eq)]
pub enum Entry {
    Deliver,
    Discard,
    NoRoute,
    Forward(u8),
}

// The previous hop of a packet that starts here: a number like any previous hop, since `decide` answers for each.
pub const STARTS_HERE: u8 = 255;

// The entry of a router, the first line that applies: by its next-hop set for the destination, and by the previous hops whose packets are discarded
// (rule PIPO: the same set).
#[tactic(auto, unfolding(rules::specs::Entries::entry_by, crate::specs::Entries::entry_told, crate::specs::Entries::rules_by))]
pub fn decide(set: u64, discarded: u64, router: u8, previous: u8, destination: u8) -> Entry
    ensures { Decides set discarded router previous destination result }
{
    if router == destination {
        return Entry::Deliver;
    }
    if set == 0 {
        return Entry::NoRoute;
    }
    if has(discarded, previous) {
        return Entry::Discard;
    }
    Entry::Forward(chosen(set))
}

// The code of an entry in an interface table. By hand, since a hop is its own code.
#[tactic(auto, unfolding(crate::specs::Entries::entry_told))]
pub fn code(entry: Entry) -> u8
    ensures { Codes entry result }
{
    match entry {
        Entry::Deliver => 128,
        Entry::Discard => 129,
        Entry::NoRoute => 130,
        Entry::Forward(k) => k,
    }
}

// 9 for a router or a destination that is not below N, or a previous hop that is neither 255 nor below N, or is the router itself.
#[tactic(auto, unfolding(rules::specs::EntryQuestion::entry_refusals))]
fn judge_entry(routers: u8, router: u64, previous: u64, destination: u64) -> Result<(), Reason>
    ensures { found_number result ≡ number_in (entry_refusals routers router previous destination) }
{
    let n = routers as u64;
    if n <= router || n <= destination || previous == router {
        return Err(Reason::NoSuchRouter);
    }
    if previous != (STARTS_HERE as u64) && n <= previous {
        return Err(Reason::NoSuchRouter);
    }
    Ok(())
}

// The entry in an accepted table, by the costs to the destination and the router's next-hop set.
#[tactic(auto, using(crate::proofs::Entries::over_web))]
fn entry_in(table: Table, router: u8, previous: u8, destination: u8) -> Entry
    requires { destination < 64 }
    ensures { entry_told result
        ≡ entry_asked (record { table = table.entry.bytes.now; router = router; previous = previous; destination = destination }) }
{
    let web = web_of(table.bytes, table.outline);
    let costs = costs_from(&web, destination);
    let set = next_hops(&web, &costs, router);
    decide(set, set, router, previous, destination)
}

// The entry of a router for a previous hop (255: the packet starts here) and a destination.
#[tactic(auto, using(tables::proofs::Asked::few_routers), unfolding(rules::specs::EntryQuestion::entry_refusals))]
pub fn entry_of(
    table: &[u8],
    router: u64,
    previous: u64,
    destination: u64,
) -> Result<Entry, Refusal>
    ensures { Enters (record { table = table.now; router = router; previous = previous; destination = destination }) result }
{
    let t = accept(table)?;
    judge_entry(t.outline.routers, router, previous, destination)?;
    Ok(entry_in(t, router as u8, previous as u8, destination as u8))
}
