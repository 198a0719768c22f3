// A table's listing printed page by page.
#![tactic(auto)]

ghost use mathlib.Core.List.{flatten};
ghost use Rattle.std.specs.Io.KnownBytes.{Appends};
ghost use Rattle.std.specs.Prelude.{Ok, OnErr, OnOk};
ghost use Rattle.rules.specs.Listing.{listing, refusal_line as line_of_refusal};
ghost use Rattle.refusals.specs.Refusals.{number_of};
ghost use Rattle.printing.specs.Listings.{pieces};
ghost use Rattle.streams.specs.Streams.{AppendsFront};

use lines::{header, refusal_line, router_lines};
use refusals::Refusal;
use std::io;
use std::io::Write;
use streams::write_whole;
use tables::{Outline, read};
use webs::web_of;

// Prints the lines of an accepted table, a page for each router: by its bytes and its outline, as reading answers and `web_of` takes them.
fn print_lines<W: Write>(out: &mut W, table: &[u8], t: Outline) -> io::Result<()>
    ensures ok { OnOk result (Appends (W.contents out.old) (W.contents out.new)
        (flatten (pieces table.now (Ok t)))) }
    ensures err { OnErr result (AppendsFront (W.contents out.old) (W.contents out.new)
        (flatten (pieces table.now (Ok t)))) }
{
    let mut page = [0; 16384];
    let length = header(&mut page);
    write_whole(out, &page[..length])?;
    let web = web_of(table, t);
    for router in 0..t.routers {
        let length = router_lines(&mut page, &web, t.routers, router);
        write_whole(out, &page[..length])?;
    }
    Ok(())
}

// Prints a refusal.
fn print_refusal<W: Write>(out: &mut W, refusal: Refusal) -> io::Result<()>
    ensures ok { OnOk result (Appends (W.contents out.old) (W.contents out.new)
        (line_of_refusal (number_of refusal.reason) refusal.place)) }
    ensures err { OnErr result (AppendsFront (W.contents out.old) (W.contents out.new)
        (line_of_refusal (number_of refusal.reason) refusal.place)) }
{
    let mut page = [0; 16384];
    let length = refusal_line(&mut page, refusal.reason.number(), refusal.place);
    write_whole(out, &page[..length])
}

// Prints the listing of a table.
pub fn print_listing<W: Write>(out: &mut W, table: &[u8]) -> io::Result<()>
    ensures ok { OnOk result (Appends (W.contents out.old) (W.contents out.new)
        (listing table.now)) }
    ensures err { OnErr result (AppendsFront (W.contents out.old) (W.contents out.new)
        (listing table.now)) }
{
    match read(table) {
        Ok(t) => print_lines(out, table, t),
        Err(refusal) => print_refusal(out, refusal),
    }
}
