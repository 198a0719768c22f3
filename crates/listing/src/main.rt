// Prints the listing of the table on standard input.
#![tactic(auto)]

use std::io;
use std::io::Write;
use streams::read_full;

fn main(rt: HostRuntime) -> io::Result<()> {
    let mut table = [0u8; 4096];
    // at most 4,096 bytes: a longer table is refused by then with the same number and place
    let length = read_full(&mut rt.stdin(), &mut table)?;
    let printed = printing::print_listing(&mut rt.stdout(), &table[..length]);
    if printed.is_err() {
        rt.stderr()
            .write_all(b"listing: not all could be written\n")?;
    }
    printed
}
