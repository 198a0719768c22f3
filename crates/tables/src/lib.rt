// Reading a whole table: judging up to the end record, the reading question.
#![tactic(auto)]

ghost use Rattle.std.specs.Prelude.{◌≡◌, true, ◌<◌, length};
ghost use Rattle.rules.specs.Table.{length_allowed, key, keep};
ghost use Rattle.records.specs.Steps.{kept_of};
ghost use Rattle.tables.specs.Readings.{record_with, IsRefused, GivesRefusal, JudgedTo, Reads};
ghost use Rattle.tables.specs.Accepted.{Accepts};

mod accepted;

pub use accepted::Table;
use records::{END, Kept, LINK, NAME, ROUTERS, Step, joined, next_record};
use refusals::{Reason, Refusal};

// What a table holds up to its end record: N, how many links, and where the table ends.
#[derive(Clone, Copy, Debug, PartialEq, Eq)]
pub struct Judged {
    pub routers: u8,
    pub links: u16,
    pub end: usize,
}

// What an accepted table holds: N, how many links, and where the links start.
#[derive(Clone, Copy, Debug, PartialEq, Eq)]
pub struct Outline {
    pub routers: u8,
    pub links: u16,
    pub start: usize,
}

// What orders the records of one tag: the router of a name, the pair of a link.
#[tactic(auto, unfolding(rules::specs::Table::key, rules::specs::Table::length_allowed))]
fn order_of(contents: &[u8], tag: u8) -> u16
    requires { length_allowed tag (length contents.now) ≡ true }
    ensures { result ≡ key tag contents.now }
{
    match tag {
        LINK => joined(contents[0], contents[1]),
        NAME => u16::from(contents[0]),
        _ => 0,
    }
}

// What is kept behind one more record.
#[tactic(auto, unfolding(rules::specs::Table::keep, rules::specs::Table::length_allowed))]
fn kept_behind(kept: Kept, tag: u8, contents: &[u8]) -> Kept
    requires { (length_allowed tag (length contents.now) ≡ true) × (kept.links < 65535) }
    ensures { kept_of result ≡ keep (kept_of kept) (record_with tag contents.now) }
{
    let behind = Kept {
        tag,
        last: order_of(contents, tag),
        ..kept
    };
    match tag {
        LINK => Kept {
            links: kept.links + 1,
            ..behind
        },
        ROUTERS => Kept {
            routers: contents[0],
            ..behind
        },
        _ => behind,
    }
}

// The refusal that a step gave. Apart from judging, since the else of `let .. else` binds nothing.
fn refusal_of(step: Step) -> Refusal
    requires { IsRefused step }
    ensures { GivesRefusal step result }
{
    match step {
        Step::Record { .. } => unreachable!(),
        Step::Refused { reason, place } => reason.at(place),
    }
}

// Records are judged in file order, up to the end record, and the first bad one decides. What stands behind the end record is not looked at. A loop
// over places, since what was kept decides what comes next, and the place is part of the answer.
pub fn judge(table: &[u8]) -> Result<Judged, Refusal>
    ensures { JudgedTo table.now result }
{
    let mut kept = Kept::default();
    let mut place = 0;
    loop {
        let step = next_record(table, place, kept);
        let Step::Record { tag, end } = step else {
            return Err(refusal_of(step));
        };
        if tag == END {
            return Ok(Judged {
                routers: kept.routers,
                links: kept.links,
                end,
            });
        }
        kept = kept_behind(kept, tag, &table[place + 3..end]);
        place = end;
    }
}

// The reading question: a whole byte string, behind whose end record nothing may stand.
pub fn read(table: &[u8]) -> Result<Outline, Refusal>
    ensures { Reads table.now result }
{
    let judged = judge(table)?;
    if judged.end < table.len() {
        return Err(Reason::BytesBehind.at(judged.end));
    }
    Ok(Outline {
        routers: judged.routers,
        links: judged.links,
        start: judged.end - 3 - usize::from(judged.links) * 7,
    })
}

// A whole byte string as an accepted table.
pub fn accept<'a>(bytes: &'a [u8]) -> Result<Table<'a>, Refusal>
    ensures { Accepts bytes.entry result }
{
    let outline = read(bytes)?;
    Ok(Table { bytes, outline })
}
