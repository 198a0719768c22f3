// Prints every listing that a question file on standard input asks for, as tests/README.md lays the file out.
#![tactic(auto)]

use case_files::records::{Load, MOST_RECORDS, next_question};
use std::io;

// As many bytes as the program `listing` reads.
const MOST_BYTES: usize = 4096;

fn main(rt: HostRuntime) -> io::Result<()> {
    let mut input = rt.stdin();
    let mut out = rt.stdout();
    let mut table = Load::new();
    for _ in 0..MOST_RECORDS {
        let Some(q) = next_question(&mut input)? else {
            return Ok(());
        };
        // input: a table comes, or its listing is asked for
        match q.letter {
            b'o' => table.read(&mut input, q.load)?,
            b's' => {
                let bytes = table.bytes();
                printing::print_listing(&mut out, &bytes[..bytes.len().min(MOST_BYTES)])?;
            }
            _ => {}
        }
    }
    Ok(())
}
