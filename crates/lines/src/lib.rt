// The listing, line by line into a lent page.
#![tactic(auto)]

ghost use Rattle.std.specs.Prelude.{[], ◌∷◌, map, ◌+◌, ◌≤◌, length};
ghost use Rattle.rules.specs.Listing.{decimal, joined_by_commas, cost_and_next, line_of};
ghost use Rattle.rules.specs.NextHops.{members};
ghost use Rattle.lines.specs.Lines.{Begins, Puts, WritesHeader, WritesRefusal, WritesLines};

use search::{NO_COST, all_from};
use sets::members;
use webs::Web;

// A lent page, and the place behind what is written on it.
#[derive(Drop)]
struct Page<'a> {
    bytes: &'a mut [u8; 16384],
    end: usize,
}

impl<'a> Page<'a> {
    // A page with nothing written on it.
    fn begin(bytes: &'a mut [u8; 16384]) -> Self
        ensures { Begins bytes.entry result }
    {
        Page { bytes, end: 0 }
    }

    // A byte is put behind what is written. This and the methods below hand the page on by value, so that it stays in registers.
    #[tactic(auto, using(std::proofs::lemmas::List::take_more_set))]
    fn byte(self, byte: u8) -> Self
        requires { self.end + 1 ≤ 16384 }
        ensures { Puts self.entry (byte ∷ []) result }
    {
        let Page { bytes, end } = self;
        bytes[end] = byte;
        Page {
            bytes,
            end: end + 1,
        }
    }

    // A text.
    #[tactic(auto, using(std::proofs::lemmas::Slice::overwrites))]
    fn text(self, text: &[u8]) -> Self
        requires { self.end + length text.now ≤ 16384 }
        ensures { Puts self.entry text.now result }
    {
        let Page { bytes, end: start } = self;
        let end = start + text.len();
        bytes[start..end].copy_from_slice(text);
        Page { bytes, end }
    }

    // A number in decimal digits: one, two, or all but the last and the last. Most numbers have one or two, and take no further call. By hand, since
    // std's formatting would test the room again.
    #[tactic(auto, using(crate::proofs::Decimals::some_digit, crate::proofs::Decimals::one_digit_more))]
    fn decimal(self, x: u64) -> Self
        requires { self.end + length (decimal x) ≤ 16384 }
        ensures { Puts self.entry (decimal x) result }
    {
        if x < 10 {
            return self.byte(b'0' + x as u8);
        }
        if x < 100 {
            return self.byte(b'0' + (x / 10) as u8).byte(b'0' + (x % 10) as u8);
        }
        self.decimal(x / 10).byte(b'0' + (x % 10) as u8)
    }

    // A set's members, rising, with commas between them.
    fn members(self, set: u64) -> Self
        requires { self.end + 192 ≤ 16384 }
        ensures { Puts self.entry (joined_by_commas (map decimal (members set))) result }
    {
        let mut left = members(set);
        let Some(first) = left.next() else {
            return self;
        };
        let mut page = self.decimal(first as u64);
        for k in left {
            page = page.byte(b',').decimal(k as u64);
        }
        page
    }

    // Cost and members, or `-` twice.
    #[tactic(auto, using(crate::proofs::Decimals::cost_digits))]
    fn cost_and_next(self, cost: u32, set: u64) -> Self
        requires { self.end + 203 ≤ 16384 }
        ensures { Puts self.entry (cost_and_next cost set) result }
    {
        if cost == NO_COST {
            return self.text(b"- -");
        }
        self.decimal(cost as u64).byte(b' ').members(set)
    }

    // A whole line, which has at most 256 bytes.
    #[tactic(auto, using(crate::proofs::Decimals::byte_digits, crate::proofs::Lines::cost_short))]
    fn line(self, router: u8, destination: u8, cost: u32, set: u64) -> Self
        requires { self.end + 256 ≤ 16384 }
        ensures { Puts self.entry (line_of router destination cost set) result }
    {
        self.decimal(router as u64)
            .byte(b' ')
            .decimal(destination as u64)
            .byte(b' ')
            .cost_and_next(cost, set)
            .byte(b'\n')
    }
}

// The first line of every listing. This and the next two answer how many bytes they write, and promise what stands behind them.
pub fn header(page: &mut [u8; 16384]) -> usize
    ensures { WritesHeader page.old result page.new }
{
    Page::begin(page).text(b"router dest cost next\n").end
}

// The only line of a refusal.
#[tactic(auto, using(crate::proofs::Decimals::byte_digits, crate::proofs::Decimals::place_digits))]
pub fn refusal_line(page: &mut [u8; 16384], number: u8, place: usize) -> usize
    ensures { WritesRefusal page.old number place result page.new }
{
    let page = Page::begin(page).text(b"refused ").decimal(number as u64);
    page.text(b" at ").decimal(place as u64).byte(b'\n').end
}

// One router's lines to all others of so many routers, of which the first 64 count, by a search from it over a web. Never inlined: where it is, the
// compiler copies its caller's web once more, 8,704 bytes of stack.
#[inline(never)]
pub fn router_lines(page: &mut [u8; 16384], web: &Web, routers: u8, router: u8) -> usize
    ensures { WritesLines page.old web.now routers router result page.new }
{
    let found = all_from(web, router);
    let mut page = Page::begin(page);
    for d in 0..routers.min(64) {
        if d != router {
            page = page.line(router, d, found.costs[d as usize], found.sets[d as usize]);
        }
    }
    page.end
}
