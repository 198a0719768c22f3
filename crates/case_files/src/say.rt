// Printing the fields of an answer's line.
ghost use Rattle.std.specs.Prelude.{◌<◌, ◌≤◌, ◌*◌, length};
ghost use Rattle.streams.specs.Streams.{Grows};

use refusals::Refusal;
use std::io;
use std::io::Write;
use streams::write_whole;

// A text as it stands.
#[tactic(auto, using(streams::proofs::Grows::grows_by_written))]
pub fn text<W: Write>(out: &mut W, bytes: &[u8]) -> io::Result<()>
    ensures { Grows (W.contents out.old) (W.contents out.new) }
{
    write_whole(out, bytes)
}

// The end of a line.
pub fn end<W: Write>(out: &mut W) -> io::Result<()>
    ensures { Grows (W.contents out.old) (W.contents out.new) }
{
    text(out, b"\n")
}

// A number's decimal digits at the end of an array, and the place of the first. By hand, and then written by `text`: of what `write!` leaves in a
// writer after an error nothing is known.
fn decimal(array: &mut [u8], x: u64) -> usize
    ensures { result ≤ length array.old }
{
    let mut rest = x;
    for (at, digit) in array.iter_mut().enumerate().rev() {
        *digit = b'0' + (rest % 10) as u8;
        rest /= 10;
        if rest == 0 {
            return at;
        }
    }
    0
}

// A number in decimal digits.
pub fn digits<W: Write>(out: &mut W, x: u64) -> io::Result<()>
    ensures { Grows (W.contents out.old) (W.contents out.new) }
{
    let mut array = [0u8; 20];
    let first = decimal(&mut array, x);
    text(out, &array[first..])
}

// A field that is a number, in one piece with the space in front: what is written to standard output is not gathered first.
pub fn number<W: Write>(out: &mut W, x: u64) -> io::Result<()>
    ensures { Grows (W.contents out.old) (W.contents out.new) }
{
    let mut array = [b' '; 21];
    let first = decimal(&mut array[1..], x);
    text(out, &array[first..])
}

// A line's letter.
pub fn letter<W: Write>(out: &mut W, byte: u8) -> io::Result<()>
    ensures { Grows (W.contents out.old) (W.contents out.new) }
{
    text(out, &[byte])
}

// Fields that are numbers.
#[tactic(auto, using(streams::proofs::Grows::grows_by_none, streams::proofs::Grows::grows_in_turn))]
pub fn numbers<W: Write>(out: &mut W, all: &[u64]) -> io::Result<()>
    ensures { Grows (W.contents out.old) (W.contents out.new) }
{
    for x in all {
        number(out, *x)?;
    }
    Ok(())
}

// A question's letter, its refusal and the numbers that it answers, each 0 where there is none.
pub fn answer<W: Write, const N: usize>(
    out: &mut W,
    question: u8,
    answer: Result<[u64; N], Refusal>,
) -> io::Result<()>
    ensures { Grows (W.contents out.old) (W.contents out.new) }
{
    letter(out, question)?;
    match answer {
        Ok(values) => {
            text(out, b" 0 0 0")?;
            numbers(out, &values)
        }
        Err(r) => {
            let reason = r.reason.number();
            let table = r.table.number();
            numbers(out, &[reason as u64, table as u64, r.place as u64])?;
            numbers(out, &[0; N])
        }
    }
}

// A hexadecimal digit: worked out and not looked up, so that the compiler makes many at once.
fn digit(x: u8) -> u8
    requires { x < 16 }
{
    if x < 10 { b'0' + x } else { b'a' - 10 + x }
}

// The last hexadecimal digits of a number, as many as an array has places.
fn hexadecimal(array: &mut [u8], x: u64) {
    let mut rest = x;
    for place in array.iter_mut().rev() {
        *place = digit((rest % 16) as u8);
        rest /= 16;
    }
}

// A field that is an array of so many bytes, as pairs of digits: by `elements`, which divides for each digit, it takes several times as long.
pub fn bytes<W: Write>(out: &mut W, array: &[u8; 4216], size: usize) -> io::Result<()>
    ensures { Grows (W.contents out.old) (W.contents out.new) }
{
    let all = size.min(4216);
    let mut page = [[0u8; 2]; 4216];
    for (pair, byte) in page.iter_mut().zip(&array[..all]) {
        *pair = [digit(*byte / 16), digit(*byte % 16)];
    }
    text(out, b" ")?;
    text(out, page[..all].as_flattened())
}

// A field that is an array's elements, each in so many hexadecimal digits.
fn elements<W: Write, T: Copy + Into<u64>>(
    out: &mut W,
    array: &[T],
    digits: usize,
) -> io::Result<()>
    requires some { 0 < digits }
    requires room { digits * length array.now ≤ 1536 }
    ensures { Grows (W.contents out.old) (W.contents out.new) }
{
    let mut page = [0u8; 1536];
    for (place, x) in page.chunks_mut(digits).zip(array) {
        hexadecimal(place, (*x).into());
    }
    text(out, b" ")?;
    text(out, &page[..digits * array.len()])
}

// A field that is an array of so many costs. This and the next give the room that `elements` asks for.
pub fn costs<W: Write>(out: &mut W, array: &[u32; 96], size: usize) -> io::Result<()>
    ensures { Grows (W.contents out.old) (W.contents out.new) }
{
    elements(out, &array[..size.min(96)], 8)
}

// A field that is an array of so many sets.
pub fn sets<W: Write>(out: &mut W, array: &[u64; 96], size: usize) -> io::Result<()>
    ensures { Grows (W.contents out.old) (W.contents out.new) }
{
    elements(out, &array[..size.min(96)], 16)
}
