// One record of a table: the tests of tag, length and contents, the inner reader, the reading step.
#![tactic(auto)]

ghost use Rattle.std.specs.Prelude.{◌≡◌, true, ◌&&◌, ◌+◌, ◌≤◌, length, drop};
ghost use Rattle.rules.specs.Words.{◌=?◌, ◌≤?◌, every};
ghost use Rattle.rules.specs.Layout.{tag_name, tag_link};
ghost use Rattle.rules.specs.Table.{byte, bad_tag, length_allowed, routers_fit, name_byte, name_fits, link_fits, link_of};
ghost use Rattle.records.specs.Steps.{Joins, kept_of, contents_number, StepsTo};
ghost use Rattle.refusals.specs.Refusals.{found_number};

use refusals::Reason;

// The tags of the four kinds of records. They stay bytes: `next_record` answers for whatever tag is kept, also one of no kind.
pub const ROUTERS: u8 = 0x01;

pub const NAME: u8 = 0x02;

pub const LINK: u8 = 0x04;

pub const END: u8 = 0x7F;

// What is kept of the records before: N, the last tag, the last router or pair, the number of links. All are 0 before the first record; they are no
// `Option`s, since `next_record` answers for whatever is kept.
#[derive(Clone, Copy, Debug, Default, PartialEq, Eq)]
pub struct Kept {
    pub routers: u8,
    pub tag: u8,
    pub last: u16,
    pub links: u16,
}

// The reading step's answer: the next record and where it ends, or a reason and a place. An enum of its own, since document 01 names it: `let .. else`
// takes the record out of it.
#[derive(Clone, Copy, Debug, PartialEq, Eq)]
pub enum Step {
    Record { tag: u8, end: usize },
    Refused { reason: Reason, place: usize },
}

// Two bytes as one number, high byte first. As a product: read as one word of two bytes, a table of links takes 7 % more time.
pub fn joined(high: u8, low: u8) -> u16
    ensures { Joins high low result }
{
    u16::from(high) * 256 + u16::from(low)
}

// 2: unknown tag, first tag not 0x01, a second 0x01, or a tag below the one before.
#[tactic(auto, unfolding(rules::specs::Table::bad_tag, rules::specs::Table::known_tag))]
fn tag_is_bad(kept: Kept, tag: u8) -> bool
    ensures { result ≡ bad_tag (kept_of kept) tag }
{
    if kept.tag == 0 {
        return tag != ROUTERS;
    }
    tag < kept.tag || !matches!(tag, NAME | LINK | END)
}

// The lengths that a tag allows.
#[tactic(auto, unfolding(rules::specs::Table::length_allowed))]
fn length_fits(tag: u8, len: usize) -> bool
    ensures { result ≡ length_allowed tag len }
{
    match tag {
        LINK => len == 4,
        NAME => (2..=17).contains(&len),
        ROUTERS => len == 1,
        END => len == 0,
        _ => false,
    }
}

// Every byte may stand in a name.
fn is_plain(name: &[u8]) -> bool
    ensures { result ≡ every name_byte name.now }
{
    name.iter().all(|byte| byte.is_ascii_graphic())
}

// N is in range.
#[tactic(auto, unfolding(rules::specs::Table::routers_fit))]
fn routers_are_fit(routers: u8) -> bool
    ensures { result ≡ routers_fit routers }
{
    (1..=64).contains(&routers)
}

// A name's contents are in range: its router, then its bytes.
#[tactic(auto, unfolding(rules::specs::Table::name_fits))]
fn name_is_fit(contents: &[u8], routers: u8) -> bool
    requires { 1 ≤ length contents.now }
    ensures { result ≡ name_fits routers (byte contents.now 0) (drop 1 contents.now) }
{
    contents[0] < routers && is_plain(&contents[1..])
}

// A link's contents are in range. Both ends are below N if b is, and two bytes cannot exceed 65535.
#[tactic(auto, unfolding(rules::specs::Table::link_fits))]
fn link_is_fit(contents: &[u8], routers: u8) -> bool
    requires { 4 ≤ length contents.now }
    ensures { result ≡ link_fits routers (link_of contents.now) }
{
    let a = contents[0];
    let b = contents[1];
    a < b && b < routers && joined(contents[2], contents[3]) != 0
}

// 5: a name or link not above the record before it, where that has the same tag.
fn is_not_above(kept: Kept, tag: u8, order: u16) -> bool
    ensures { result ≡ (tag =? kept.tag && order ≤? kept.last) }
{
    tag == kept.tag && order <= kept.last
}

// 4, 5 or 6: the contents of a link are refused.
#[tactic(auto, unfolding(rules::specs::Table::contents_fit, rules::specs::Table::not_above, rules::specs::Table::too_many, rules::specs::Table::key))]
fn judge_link(contents: &[u8], kept: Kept) -> Result<(), Reason>
    requires { 4 ≤ length contents.now }
    ensures { found_number result ≡ contents_number (kept_of kept) tag_link contents.now }
{
    if !link_is_fit(contents, kept.routers) {
        return Err(Reason::OutOfRange);
    }
    if is_not_above(kept, LINK, joined(contents[0], contents[1])) {
        return Err(Reason::NotAbove);
    }
    if 256 <= kept.links {
        return Err(Reason::TooManyLinks);
    }
    Ok(())
}

// 4 or 5: the contents of a name are refused.
#[tactic(auto, unfolding(rules::specs::Table::contents_fit, rules::specs::Table::not_above, rules::specs::Table::too_many, rules::specs::Table::key))]
fn judge_name(contents: &[u8], kept: Kept) -> Result<(), Reason>
    requires { 1 ≤ length contents.now }
    ensures { found_number result ≡ contents_number (kept_of kept) tag_name contents.now }
{
    if !name_is_fit(contents, kept.routers) {
        return Err(Reason::OutOfRange);
    }
    if is_not_above(kept, NAME, u16::from(contents[0])) {
        return Err(Reason::NotAbove);
    }
    Ok(())
}

// The inner reader: the contents of a record, judged as a part of their own, are refused by 4, 5 or 6.
#[tactic(auto, unfolding(rules::specs::Table::contents_fit, rules::specs::Table::not_above, rules::specs::Table::too_many, rules::specs::Table::length_allowed))]
fn judge_contents(contents: &[u8], tag: u8, kept: Kept) -> Result<(), Reason>
    requires { length_allowed tag (length contents.now) ≡ true }
    ensures { found_number result ≡ contents_number (kept_of kept) tag contents.now }
{
    match tag {
        LINK => judge_link(contents, kept),
        NAME => judge_name(contents, kept),
        ROUTERS if !routers_are_fit(contents[0]) => Err(Reason::OutOfRange),
        _ => Ok(()),
    }
}

// The reading step behind the tag: the record with this tag at a place, its header inside the table. A `Step` and no `Result`: where its contents are
// refused, the place that is told and the record's end stand side by side, and only one of them is the record's place.
#[tactic(auto, unfolding(rules::specs::Table::step, crate::specs::Steps::step_of))]
fn record_of(table: &[u8], place: usize, tag: u8, kept: Kept) -> Step
    requires { (place + 3 ≤ length table.now) × (tag ≡ byte table.now place) }
    ensures { StepsTo table.now place kept result }
{
    if tag_is_bad(kept, tag) {
        return Step::Refused {
            reason: Reason::BadTag,
            place,
        };
    }
    let size = usize::from(joined(table[place + 1], table[place + 2]));
    if !length_fits(tag, size) {
        return Step::Refused {
            reason: Reason::BadLength,
            place,
        };
    }
    let end = place + 3 + size;
    if table.len() < end {
        return Step::Refused {
            reason: Reason::CutOff,
            place,
        };
    }
    if let Err(reason) = judge_contents(&table[place + 3..end], tag, kept) {
        return Step::Refused { reason, place };
    }
    Step::Record { tag, end }
}

// The reading step: the record at a place, behind the records of which this is kept.
#[tactic(auto, unfolding(rules::specs::Table::step, crate::specs::Steps::step_of))]
pub fn next_record(table: &[u8], place: usize, kept: Kept) -> Step
    ensures { StepsTo table.now place kept result }
{
    let len = table.len();
    if len < 3 || len - 3 < place {
        return Step::Refused {
            reason: Reason::CutOff,
            place,
        };
    }
    let tag = table[place];
    // Most records are links: with the tag as a constant, the compiler makes a copy for them that tests no other tag.
    if tag == LINK {
        return record_of(table, place, LINK, kept);
    }
    record_of(table, place, tag, kept)
}
