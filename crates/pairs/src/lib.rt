// Two tables together: how many links differ, and number 8.
#![tactic(auto)]

ghost use Rattle.std.specs.Prelude.{◌≡◌};
ghost use Rattle.rules.specs.Table.{says};
ghost use Rattle.rules.specs.Pairs.{differing};
ghost use Rattle.pairs.specs.Fronts.{front_at};
ghost use Rattle.pairs.specs.Together.{AcceptsTogether};
ghost use Rattle.pairs.specs.Pairings.{Pairs};

mod both;

pub use both::Together;
use links::link_at;
use records::joined;
use refusals::{Reason, Refusal};
use tables::{Outline, Table, accept};

// Two tables that go together: how many links differ, 0 or 1, and what each table holds.
#[derive(Clone, Copy, Debug, PartialEq, Eq)]
pub struct Pairing {
    pub differ: u8,
    pub old: Outline,
    pub new: Outline,
}

// A number above every pair, for "no more": so the end of either list needs no case of its own.
const NO_PAIR: u32 = 65536;

// The link in front of those that are not compared yet: its pair as one number, its weight, and the place behind it.
#[derive(Clone, Copy)]
struct Front {
    pair: u32,
    weight: u16,
    behind: usize,
}

// What stands in front at a place of a table.
#[tactic(auto, using(crate::proofs::Fronts::front_some, crate::proofs::Fronts::front_none))]
fn front_at(table: &[u8], place: usize) -> Front
    ensures { result ≡ front_at table.now place }
{
    match link_at(table, place) {
        Some(link) => Front {
            pair: joined(link.a, link.b) as u32,
            weight: link.weight,
            behind: link.behind,
        },
        None => Front {
            pair: NO_PAIR,
            weight: 0,
            behind: place,
        },
    }
}

// How many links differ. The links of both tables rise: of two pairs in front the lower is in one table only. By two tests: a `match` on how the
// pairs compare takes half as long again.
fn count_differing(old: Table, new: Table) -> u16
    ensures { result ≡ differing (says old.entry.bytes.now) (says new.entry.bytes.now) }
{
    let mut o = front_at(old.bytes, old.outline.start);
    let mut n = front_at(new.bytes, new.outline.start);
    let mut count = 0;
    loop {
        if o.pair < n.pair {
            count += 1;
            o = front_at(old.bytes, o.behind);
        } else if n.pair < o.pair {
            count += 1;
            n = front_at(new.bytes, n.behind);
        } else if o.pair == NO_PAIR {
            return count;
        } else {
            count += u16::from(o.weight != n.weight);
            o = front_at(old.bytes, o.behind);
            n = front_at(new.bytes, n.behind);
        }
    }
}

// Two accepted tables: 8 for different N, or for more than one link that differs.
fn compare<'a>(old: Table<'a>, new: Table<'a>) -> Result<Together<'a>, Refusal>
    ensures { AcceptsTogether old.entry.bytes new.entry.bytes result }
{
    if old.outline.routers != new.outline.routers {
        return Err(Reason::TooDifferent.into());
    }
    let differ = count_differing(old, new);
    if 1 < differ {
        return Err(Reason::TooDifferent.into());
    }
    Ok(Together {
        old,
        new,
        differ: differ as u8,
    })
}

// Two whole byte strings as tables that go together: each is accepted, the old one first, and then they are compared.
pub fn together<'a>(old: &'a [u8], new: &'a [u8]) -> Result<Together<'a>, Refusal>
    ensures { AcceptsTogether old.entry new.entry result }
{
    let o = accept(old)?;
    let n = accept(new).map_err(Refusal::in_new)?;
    compare(o, n)
}

// The question about two tables together: how many links differ, and what each table holds.
pub fn pair(old: &[u8], new: &[u8]) -> Result<Pairing, Refusal>
    ensures { Pairs (record { old = old.now; new = new.now }) result }
{
    let tables = together(old, new)?;
    Ok(Pairing {
        differ: tables.differ,
        old: tables.old.outline,
        new: tables.new.outline,
    })
}
