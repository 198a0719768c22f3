// The records of a question file, and the loads that are held.
ghost use Rattle.std.specs.Io.KnownBytes.{Consumes};
ghost use Rattle.std.specs.Prelude.{◌≡◌, ◌≤◌, ℕ, List, [], length, take, OnErr, OnOk};
ghost use Rattle.streams.specs.Streams.{Shrinks};

use std::io;
use std::io::Read;
use std::marker::Model;
use streams::read_full;

// More records than any file has.
pub const MOST_RECORDS: u32 = 1000000;

// A record's header. The letter stays a byte: an enum of the kinds would be the `match` on it once more.
#[derive(Clone, Copy)]
pub struct Question {
    pub letter: u8,
    pub load: usize,
    pub room: usize,
    pub second_room: usize,
    pub x: u64,
    pub y: u64,
    pub z: u64,
}

// The number in some bytes, two or eight of them, high byte first.
fn number(bytes: &[u8]) -> u64 {
    bytes.iter().fold(0, |x, byte| (x << 8) | u64::from(*byte))
}

impl Question {
    // The header in its bytes.
    fn from_bytes(head: &[u8; 32]) -> Question {
        Question {
            letter: head[0],
            load: number(&head[2..4]) as usize,
            room: number(&head[4..6]) as usize,
            second_room: number(&head[6..8]) as usize,
            x: number(&head[8..16]),
            y: number(&head[16..24]),
            z: number(&head[24..32]),
        }
    }
}

// The next record's header, until the file ends or a header has the letter 0.
pub fn next_question<R: Read>(input: &mut R) -> io::Result<Option<Question>>
    ensures { Shrinks (R.remaining input.old) (R.remaining input.new) }
{
    let mut head = [0; 32];
    if read_full(input, &mut head)? < head.len() || head[0] == 0 {
        return Ok(None);
    }
    Ok(Some(Question::from_bytes(&head)))
}

// A load that is held until another comes: the first bytes of an array.
#[derive(Drop)]
pub struct Load {
    array: [u8; 8192],
    held: usize,
}

impl Model for Load {
    ghost Value = { List ℕ };

    ghost view = { λ load. take load.held load.array };

    ghost invariant = { λ load. load.held ≤ 8192 };
}

impl Load {
    // Nothing is held.
    pub fn new() -> Load
        ensures { result ≡ [] }
    {
        Load {
            array: [0; 8192],
            held: 0,
        }
    }

    // The bytes that are held.
    pub fn bytes(&self) -> &[u8]
        ensures { result.now ≡ self.now }
    {
        &self.array[..self.held]
    }

    // Reads so many bytes, or those that are left, in place of what is held.
    pub fn read<R: Read>(&mut self, input: &mut R, size: usize) -> io::Result<()>
        ensures ok { OnOk result (Consumes (R.remaining input.old) (R.remaining input.new) self.new) }
        ensures err { OnErr result (Shrinks (R.remaining input.old) (R.remaining input.new)
            × (length self.new ≡ length self.old)) }
        ensures fits { length self.new ≤ 8192 }
    {
        self.held = read_full(input, &mut self.array[..size.min(8192)])?;
        Ok(())
    }
}
