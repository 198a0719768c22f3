// Each question but the link reader's: asked, and its line printed.
#![tactic(auto, using(streams::proofs::Grows::grows_in_turn))]

ghost use Rattle.streams.specs.Streams.{Grows};

use case_files::{arrays, say};
use names::Part;
use refusals::Refusal;
use std::io;
use std::io::Write;

pub fn reading<W: Write>(out: &mut W, table: &[u8]) -> io::Result<()>
    ensures { Grows (W.contents out.old) (W.contents out.new) }
{
    let answer = tables::read(table).map(|t| [t.routers as u64, t.links as u64]);
    say::answer(out, b'r', answer)?;
    say::end(out)
}

pub fn pairing<W: Write>(out: &mut W, old: &[u8], new: &[u8]) -> io::Result<()>
    ensures { Grows (W.contents out.old) (W.contents out.new) }
{
    let answer = pairs::pair(old, new).map(|p| [p.new.routers as u64, p.differ as u64]);
    say::answer(out, b'p', answer)?;
    say::end(out)
}

pub fn entry<W: Write>(
    out: &mut W,
    table: &[u8],
    router: u64,
    previous: u64,
    destination: u64,
) -> io::Result<()>
    ensures { Grows (W.contents out.old) (W.contents out.new) }
{
    let answer = entries::entry_of(table, router, previous, destination);
    say::answer(out, b'e', answer.map(|entry| [entries::code(entry) as u64]))?;
    say::end(out)
}

pub fn interfaces<W: Write>(out: &mut W, table: &[u8], router: u64, room: usize) -> io::Result<()>
    ensures { Grows (W.contents out.old) (W.contents out.new) }
{
    let mut array = arrays::bytes();
    let behind = 8 + room.min(4200);
    let answer = interfaces::interfaces(table, router, &mut array[8..behind]);
    say::answer(out, b'i', answer.map(|written| [written as u64]))?;
    say::bytes(out, &array, behind + 8)?;
    say::end(out)
}

pub fn filling<W: Write>(
    out: &mut W,
    table: &[u8],
    destination: u64,
    room: usize,
    second_room: usize,
) -> io::Result<()>
    ensures { Grows (W.contents out.old) (W.contents out.new) }
{
    let mut costs = arrays::costs();
    let mut sets = arrays::sets();
    let behind_costs = 8 + room.min(80);
    let behind_sets = 8 + second_room.min(80);
    let answer = routes::fill(
        table,
        destination,
        &mut costs[8..behind_costs],
        &mut sets[8..behind_sets],
    );
    say::answer(out, b'f', answer.map(|routers| [routers as u64]))?;
    say::costs(out, &costs, behind_costs + 8)?;
    say::sets(out, &sets, behind_sets + 8)?;
    say::end(out)
}

pub fn chosen<W: Write>(out: &mut W, set: u64) -> io::Result<()>
    ensures { Grows (W.contents out.old) (W.contents out.new) }
{
    say::letter(out, b'c')?;
    say::numbers(out, &[sets::chosen(set) as u64, sets::size(set) as u64])?;
    say::end(out)
}

pub fn path<W: Write>(
    out: &mut W,
    old: &[u8],
    new: &[u8],
    source: u64,
    destination: u64,
    views: &[u8],
    room: usize,
) -> io::Result<()>
    ensures { Grows (W.contents out.old) (W.contents out.new) }
{
    let mut array = arrays::bytes();
    let behind = 8 + room.min(4200);
    let answer = paths::path(old, new, source, destination, views, &mut array[8..behind]).map(
        |e| {
            let outcome = paths::outcome_code(e.outcome);
            [outcome as u64, e.router as u64, e.hops as u64]
        },
    );
    say::answer(out, b't', answer)?;
    say::bytes(out, &array, behind + 8)?;
    say::end(out)
}

// The companion's numbers of a name.
fn numbers(name: Option<Part>) -> [u64; 4] {
    name.map_or([0; 4], |part| {
        [
            1,
            part.table.number() as u64,
            part.size as u64,
            part.place as u64,
        ]
    })
}

// The companion's fields of a name, and the part that is handed back.
fn name<W: Write>(
    out: &mut W,
    letter: u8,
    answer: Result<Option<Part>, Refusal>,
    part: &[u8],
) -> io::Result<()>
    ensures { Grows (W.contents out.old) (W.contents out.new) }
{
    say::answer(out, letter, answer.map(numbers))?;
    say::text(out, b" =")?;
    say::text(out, part)?;
    say::end(out)
}

pub fn naming<W: Write>(out: &mut W, table: &[u8], router: u64) -> io::Result<()>
    ensures { Grows (W.contents out.old) (W.contents out.new) }
{
    name(
        out,
        b'a',
        names::naming_in(table, router),
        names::name_in(table, router),
    )
}

pub fn naming_of_two<W: Write>(out: &mut W, old: &[u8], new: &[u8], router: u64) -> io::Result<()>
    ensures { Grows (W.contents out.old) (W.contents out.new) }
{
    name(
        out,
        b'b',
        names::naming_in_two(old, new, router),
        names::name_in_two(old, new, router),
    )
}
