// The link reader's question: a reader is made, and asked for every link and then three times more.
ghost use Rattle.streams.specs.Streams.{Grows};

use case_files::say;
use links::{Link, read_links};
use std::io;
use std::io::Write;
use tables::read;

// How often a reader of the table is asked: for each link, and three times more.
fn askings(table: &[u8]) -> usize {
    read(table).map_or(3, |t| (t.links as usize) + 3)
}

// The field of what is told.
fn told_field<W: Write>(out: &mut W, next: Option<Link>) -> io::Result<()>
    ensures { Grows (W.contents out.old) (W.contents out.new) }
{
    match next {
        Some(link) => {
            say::number(out, link.a as u64)?;
            say::text(out, b"-")?;
            say::digits(out, link.b as u64)?;
            say::text(out, b":")?;
            say::digits(out, link.weight as u64)
        }
        None => say::text(out, b" ."),
    }
}

// The line of the question.
pub fn links<W: Write>(out: &mut W, table: &[u8]) -> io::Result<()>
    ensures { Grows (W.contents out.old) (W.contents out.new) }
{
    say::letter(out, b'l')?;
    let mut reader = read_links(table);
    for _ in 0..askings(table) {
        told_field(out, reader.next())?;
    }
    say::end(out)
}
