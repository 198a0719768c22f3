// The C side: each question for C control programs, with its answer as one 64-bit number.
#![tactic(auto)]

ghost use Rattle.std.specs.Prelude.{◌≡◌, ◌^◌, ◌<◌};
ghost use Rattle.refusals.specs.Refusals.{number_of, table_number};
ghost use Rattle.tracer.specs.Packed.{refusal_bytes, named_word, NamedFits, PacksRead, PacksPair, PacksFill, PacksChosen, PacksEntry, PacksInterfaces, PacksPath, PacksName, PacksTwoNames};

use entries::{code, entry_of};
use interfaces::interfaces;
use names::{Part, naming_in, naming_in_two};
use pairs::pair;
use paths::{outcome_code, path};
use refusals::Refusal;
use routes::fill;
use sets::{chosen, size};
use tables::read;

// What 1 is in each of the bytes that are used, byte 0 the lowest. Answers are sums of products and not made of bytes, since places and counts take
// several.
const BYTE_1: u64 = 1 << 8;

const BYTE_2: u64 = 1 << 16;

const BYTE_3: u64 = 1 << 24;

const BYTE_4: u64 = 1 << 32;

const BYTE_6: u64 = 1 << 48;

const BYTE_7: u64 = 1 << 56;

// A refusal: the number in byte 7, the table in byte 6, the place below them.
#[tactic(auto, unfolding(crate::specs::Packed::refusal_bytes))]
fn refused(refusal: Refusal) -> u64
    requires { refusal.place < 256 ^ 6 }
    ensures { result ≡ refusal_bytes (number_of refusal.reason) (table_number refusal.table) refusal.place }
{
    let number = refusal.reason.number() as u64;
    let table = refusal.table.number() as u64;
    number * BYTE_7 + table * BYTE_6 + (refusal.place as u64)
}

// One table: N in byte 0, the number of links in bytes 2 and 1.
#[tactic(auto, using(crate::proofs::Packing::told_near, rules::proofs::ReadQuestion::read_proved))]
#[unsafe(no_mangle)]
pub extern "C" fn tracer_read(table: &[u8]) -> u64
    ensures { PacksRead table.now result }
{
    read(table).map_or_else(refused, |t| {
        (t.routers as u64) + (t.links as u64) * BYTE_1
    })
}

// Two tables together: N in byte 0, how many links differ in byte 1.
#[tactic(auto, using(crate::proofs::Packing::told_near, rules::proofs::PairQuestion::pair_proved))]
#[unsafe(no_mangle)]
pub extern "C" fn tracer_pair(old: &[u8], new: &[u8]) -> u64
    ensures { PacksPair (record { old = old.now; new = new.now }) result }
{
    pair(old, new).map_or_else(refused, |p| {
        (p.new.routers as u64) + (p.differ as u64) * BYTE_1
    })
}

// The entry of a router for a previous hop (255: the packet starts here) and a destination: its code in byte 0.
#[tactic(auto, using(crate::proofs::Packing::told_near, rules::proofs::EntryQuestion::entry_proved))]
#[unsafe(no_mangle)]
pub extern "C" fn tracer_entry(table: &[u8], router: u64, previous: u64, destination: u64) -> u64
    ensures { PacksEntry (record { table = table.now; router = router; previous = previous; destination = destination }) result }
{
    entry_of(table, router, previous, destination).map_or_else(refused, |entry| {
        code(entry) as u64
    })
}

// The full interface table of a router, into the output: the bytes written in bytes 1 and 0.
#[tactic(auto, using(crate::proofs::Packing::told_near, rules::proofs::InterfacesQuestion::interfaces_proved))]
#[unsafe(no_mangle)]
pub extern "C" fn tracer_interfaces(table: &[u8], router: u64, out: &mut [u8]) -> u64
    ensures { PacksInterfaces (record { table = table.now; router = router; out = out.old }) result out.new }
{
    interfaces(table, router, out).map_or_else(refused, u64::from)
}

// Costs and next-hop sets of a destination, into the two outputs: N in byte 0.
#[tactic(auto, using(crate::proofs::Packing::told_near, rules::proofs::FillQuestion::fill_proved))]
#[unsafe(no_mangle)]
pub extern "C" fn tracer_fill(
    table: &[u8],
    destination: u64,
    costs: &mut [u32],
    sets: &mut [u64],
) -> u64
    ensures { PacksFill (record { table = table.now; destination = destination; costs = costs.old; sets = sets.old })
        result costs.new sets.new }
{
    fill(table, destination, costs, sets).map_or_else(refused, u64::from)
}

// A next-hop set: the chosen hop in byte 0, the size in byte 1.
#[tactic(auto, unfolding(rules::specs::ChosenQuestion::chosen_answer, crate::specs::Packed::chosen_bytes))]
#[unsafe(no_mangle)]
pub extern "C" fn tracer_chosen(set: u64) -> u64
    ensures { PacksChosen (record { set = set }) result }
{
    (chosen(set) as u64) + (size(set) as u64) * BYTE_1
}

// The path of one packet, its routers into the trace: where it ended in byte 0, the hops in byte 1, the outcome in byte 2.
#[unsafe(no_mangle)]
pub extern "C" fn tracer_path(
    old: &[u8],
    new: &[u8],
    source: u64,
    destination: u64,
    views: &[u8],
    trace: &mut [u8],
) -> u64
    ensures { PacksPath (record {
      old = old.now;
      new = new.now;
      source = source;
      destination = destination;
      views = views.now;
      trace = trace.old;
    }) result trace.new }
{
    path(old, new, source, destination, views, trace).map_or_else(refused, |e| {
        let outcome = outcome_code(e.outcome) as u64;
        (e.router as u64) + (e.hops as u64) * BYTE_1 + outcome * BYTE_2
    })
}

// A name: 1 in byte 3, the table in byte 2, the length in byte 1, the place of its first byte in bytes 5 and 4. Unnamed is 0.
#[tactic(auto, unfolding(crate::specs::Packed::named_word, crate::specs::Packed::named_bytes))]
fn named(name: Option<Part>) -> u64
    requires { NamedFits name }
    ensures { result ≡ named_word name }
{
    match name {
        Some(p) => {
            let table = p.table.number() as u64;
            (p.place as u64) * BYTE_4 + BYTE_3 + table * BYTE_2 + (p.size as u64) * BYTE_1
        }
        None => 0,
    }
}

// The name of a router in the new table, or else in the old.
#[tactic(auto, using(crate::proofs::Packing::told_near, rules::proofs::NameQuestions::two_names_proved))]
#[unsafe(no_mangle)]
pub extern "C" fn tracer_name(old: &[u8], new: &[u8], router: u64) -> u64
    ensures { PacksTwoNames (record { old = old.now; new = new.now; router = router }) result }
{
    naming_in_two(old, new, router).map_or_else(refused, named)
}

// The name of a router in one table.
#[tactic(auto, using(crate::proofs::Packing::told_near, rules::proofs::NameQuestions::name_proved))]
#[unsafe(no_mangle)]
pub extern "C" fn tracer_name_in(table: &[u8], router: u64) -> u64
    ensures { PacksName (record { table = table.now; router = router }) result }
{
    naming_in(table, router).map_or_else(refused, named)
}
