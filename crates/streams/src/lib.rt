// Reading and writing with what an error leaves, of which std's `write_all` and `read_exact` say nothing.
// What is done is counted in both: two wrong versions take the last count for all of it, which parts of a slice could not say.
#![tactic(auto)]

ghost use Rattle.std.specs.Io.KnownBytes.{Appends, Consumes, IsAtEnd};
ghost use Rattle.std.specs.Io.{ReadsAtMost};
ghost use Rattle.std.specs.IoError.{error_kind};
ghost use Rattle.std.specs.Prelude.{◌<◌, ◌≢◌, length, take, IfErr, IfOk, OnErr, OnOk};
ghost use Rattle.streams.specs.Streams.{AppendsFront, Shrinks};

use std::io;
use std::io::{ErrorKind, Read, Write};

// Writes all of some bytes, by the steps of std's `write_all`.
pub fn write_whole<W: Write>(out: &mut W, bytes: &[u8]) -> io::Result<()>
    ensures ok { OnOk result (Appends (W.contents out.old) (W.contents out.new) bytes.now) }
    ensures err { OnErr result (AppendsFront (W.contents out.old) (W.contents out.new) bytes.now) }
    ensures retried { IfErr result (λ e. error_kind e ≢ ErrorKind.Interrupted) }
{
    let mut done = 0;
    for _ in 0..u64::MAX {
        if done >= bytes.len() {
            return Ok(());
        }
        match out.write(&bytes[done..]) {
            Ok(0) => {
                let message = "failed to write whole buffer";
                return Err(io::Error::new(ErrorKind::WriteZero, message));
            }
            Ok(n) => done += n,
            Err(e) => {
                if e.kind() != ErrorKind::Interrupted {
                    return Err(e);
                }
            }
        }
    }
    let message = "gave up writing after 2^64 - 1 tries";
    Err(io::Error::new(ErrorKind::TimedOut, message))
}

// Reads until the array is full or the input ends, and answers how many bytes there were.
pub fn read_full<R: Read>(input: &mut R, array: &mut [u8]) -> io::Result<usize>
    ensures in_bounds { ReadsAtMost result array.new }
    ensures ok { IfOk result (λ n.
        Consumes (R.remaining input.old) (R.remaining input.new) (take n array.new)) }
    ensures end { IfOk result (λ n. n < length array.new → IsAtEnd (R.remaining input.new)) }
    ensures err { OnErr result (Shrinks (R.remaining input.old) (R.remaining input.new)) }
{
    let mut done = 0;
    while done < array.len() {
        let got = input.read(&mut array[done..])?;
        if got == 0 {
            break;
        }
        done += got;
    }
    Ok(done)
}
