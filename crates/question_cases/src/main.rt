// Asks the library every question of a question file on standard input and prints the answers, as tests/README.md lays both out.
#![tactic(auto, using(streams::proofs::Grows::grows_in_turn))]

ghost use Rattle.streams.specs.Streams.{Grows};

mod readers;

use case_files::records::{Load, MOST_RECORDS, Question, next_question};
use std::io;
use std::io::Write;

// The line of one question; what is no question has none. The letter is input, so it is matched.
#[tactic(auto, using(streams::proofs::Grows::grows_by_none))]
fn answer<W: Write>(
    out: &mut W,
    q: Question,
    old: &[u8],
    new: &[u8],
    views: &[u8],
) -> io::Result<()>
    ensures { Grows (W.contents out.old) (W.contents out.new) }
{
    match q.letter {
        b'r' => case_answers::reading(out, old),
        b'l' => readers::links(out, old),
        b'p' => case_answers::pairing(out, old, new),
        b'e' => case_answers::entry(out, old, q.x, q.y, q.z),
        b'i' => case_answers::interfaces(out, old, q.x, q.room),
        b'f' => case_answers::filling(out, old, q.x, q.room, q.second_room),
        b'c' => case_answers::chosen(out, q.x),
        b't' => case_answers::path(out, old, new, q.x, q.y, views, q.room),
        b'a' => case_answers::naming(out, old, q.x),
        b'b' => case_answers::naming_of_two(out, old, new, q.x),
        _ => Ok(()),
    }
}

fn main(rt: HostRuntime) -> io::Result<()> {
    let mut input = rt.stdin();
    let mut out = rt.stdout();
    let mut old = Load::new();
    let mut new = Load::new();
    let mut views = Load::new();
    for _ in 0..MOST_RECORDS {
        let Some(q) = next_question(&mut input)? else {
            return Ok(());
        };
        // input, as in `answer`: which load comes
        match q.letter {
            b'o' => old.read(&mut input, q.load)?,
            b'n' => new.read(&mut input, q.load)?,
            b't' => views.read(&mut input, q.load)?,
            _ => {}
        }
        answer(&mut out, q, old.bytes(), new.bytes(), views.bytes())?;
    }
    Ok(())
}
