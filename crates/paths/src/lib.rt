// Following one packet from router to router: arriving and leaving take turns, and the path question.
#![tactic(auto)]

ghost use Rattle.std.specs.Prelude.{◌≡◌, ◌<◌, ◌≤◌, set};
ghost use Rattle.rules.specs.Paths.{entry_at, listed};
ghost use Rattle.rules.specs.Answers.{number_in};
ghost use Rattle.rules.specs.PathQuestion.{bad_views, bad_numbers, packet_refusals};
ghost use Rattle.refusals.specs.Refusals.{found_number};
ghost use Rattle.entries.specs.Entries.{entry_told};
ghost use Rattle.paths.specs.Following.{sets_over, sets_of, near_of, sets_in_view, guides_to, site_over, path_over, Ends, written, Standing, Arrives, Leaves, Lent};
ghost use Rattle.paths.specs.PathAnswers.{Codes, Tells, asked_of, Followable, AnswersPath};

use entries::{Entry, STARTS_HERE, decide};
use pairs::{Together, together};
use refusals::{Reason, Refusal};
use routes::sets_by;
use search::costs_from;
use sets::has;
use tables::Table;
use webs::{Web, web_of};

// How a packet ended.
#[derive(Clone, Copy, Debug, PartialEq, Eq)]
pub enum Outcome {
    Delivered,
    Discarded,
    NoRoute,
    Lost,
}

// How a packet ended, at which router, and how many links it really crossed.
#[derive(Clone, Copy, Debug, PartialEq, Eq)]
pub struct Ending {
    pub outcome: Outcome,
    pub router: u8,
    pub hops: u8,
}

// The code of an outcome: a match by hand and no discriminants with `as`, since two wrong versions give one outcome the code of another, which two
// equal discriminants could not say.
#[tactic(auto, unfolding(crate::specs::Following::outcome_told))]
pub fn outcome_code(outcome: Outcome) -> u8
    ensures { Codes outcome result }
{
    match outcome {
        Outcome::Delivered => 128,
        Outcome::Discarded => 129,
        Outcome::NoRoute => 130,
        Outcome::Lost => 132,
    }
}

// What following reads, for one destination: each router's next-hop set in the old view and in the new, and its row of neighbours over links that
// carry: the adjacency matrix's pattern, one 64-bit number a row.
#[derive(Drop)]
struct Guides {
    old: [u64; 64],
    new: [u64; 64],
    carriers: [u64; 64],
}

// What one packet meets: the guides, the view of each hop, and its destination.
#[derive(Clone, Copy)]
struct Site<'a> {
    guides: &'a Guides,
    views: &'a [u8; 64],
    destination: u8,
}

// The routers that a packet visits, source first, and how many links it has crossed.
#[derive(Drop)]
struct Visited {
    routers: [u8; 64],
    hops: u8,
}

// The next-hop sets of all routers over a web, for a destination. Never inlined: where it is, the compiler copies the web once more.
#[tactic(auto, unfolding(crate::specs::Following::sets_over))]
#[inline(never)]
fn sets_to(web: &Web, destination: u8) -> [u64; 64]
    ensures { result ≡ sets_over web.now destination }
{
    let costs = costs_from(web, destination);
    sets_by(web, &costs)
}

// What a table says for a destination is laid into the guides: the next-hop sets of all routers, and the set of those that each is linked to. A
// function of its own, so that its web, 8,704 bytes, has left the stack before the other table's is made.
fn lay_table(table: Table, destination: u8, sets: &mut [u64; 64], near: &mut [u64; 64])
    ensures { (sets.new ≡ sets_of table.entry destination) × (near.new ≡ near_of table.entry) }
{
    let web = web_of(table.bytes, table.outline);
    *sets = sets_to(&web, destination);
    near.copy_from_slice(&web.near);
}

// The guides of two tables: the sets of both, and the links of the new one, which is laid last, and so carry.
fn guides_to(tables: Together, destination: u8) -> Guides
    ensures { result ≡ guides_to tables.entry destination }
{
    let mut guides = Guides {
        old: [0; 64],
        new: [0; 64],
        carriers: [0; 64],
    };
    lay_table(
        tables.old,
        destination,
        &mut guides.old,
        &mut guides.carriers,
    );
    lay_table(
        tables.new,
        destination,
        &mut guides.new,
        &mut guides.carriers,
    );
    guides
}

impl Guides {
    // The sets of a view, by the byte of the list that says it: 1 the new view, else the old.
    #[tactic(auto, unfolding(crate::specs::Following::sets_in_view))]
    fn sets(&self, view: u8) -> &[u64; 64]
        ensures { result.now ≡ sets_in_view self.now view }
    {
        if view == 1 {
            return &self.new;
        }
        &self.old
    }
}

impl Visited {
    // The router is written behind those that were visited before it.
    fn visit(&mut self, hops: u8, router: u8)
        requires { hops < 64 }
        ensures { (self.new.routers ≡ set self.old.routers hops router) × (self.new.hops ≡ hops) }
    {
        self.routers[hops as usize] = router;
        self.hops = hops;
    }
}

// Arriving and leaving call one another, as the rules of a path do, and both ask for a packet that stands at one of 64 routers (`Standing`). An outcome
// alone comes back, so that the compiler makes one loop of them: an ending would come back through memory, with a frame for each hop and in 2.2 times
// the instructions. The hops are an argument too, since read back from memory they take 10 % more.
impl<'a> Site<'a> {
    // The entry of the router that decides after so many hops: its byte of the list says the view for the whole entry. The destination delivers in
    // either view and reads no byte.
    fn entry_at(&self, router: u8, previous: u8, hops: u8) -> Entry
        requires { (router < 64) × (hops < 64) }
        ensures { entry_told result
            ≡ entry_at (site_over self.now.destination self.now.guides.now) (listed self.now.views.now) hops router previous }
    {
        if router == self.destination {
            return Entry::Deliver;
        }
        let sets = self.guides.sets(self.views[hops as usize]);
        // Two operands of one view, which says that the entry is by one: a wrong version takes the second from the other view.
        let set = sets[router as usize];
        let discarded = sets[router as usize];
        decide(set, discarded, router, previous, self.destination)
    }

    // The packet arrives at a router: its entry is applied.
    #[cycle(arrive_leave)]
    fn arrive(&self, router: u8, previous: u8, hops: u8, left: u8, visited: &mut Visited) -> Outcome
        requires { Standing router hops left }
        ensures { Arrives self.now router previous hops left visited.old result visited.new }
    {
        visited.visit(hops, router);
        match self.entry_at(router, previous, hops) {
            Entry::Deliver => Outcome::Delivered,
            Entry::Discard => Outcome::Discarded,
            Entry::NoRoute => Outcome::NoRoute,
            Entry::Forward(hop) => self.leave(router, hop, hops, left, visited),
        }
    }

    // The packet leaves a router for a hop: with no hop left, or over a link that does not carry, it is lost.
    #[cycle(arrive_leave)]
    fn leave(&self, router: u8, hop: u8, hops: u8, left: u8, visited: &mut Visited) -> Outcome
        requires { Standing router hops left × (visited.old.hops ≡ hops) }
        ensures { Leaves self.now router hop hops left visited.old result visited.new }
    {
        if left == 0 {
            return Outcome::Lost;
        }
        if has(self.guides.carriers[router as usize], hop) {
            return self.arrive(hop, router, hops + 1, left - 1, visited);
        }
        Outcome::Lost
    }
}

// One packet is followed by the first N - 1 views: how it ended, and the routers that it visited.
fn follow_packet(
    guides: &Guides,
    routers: u8,
    source: u8,
    destination: u8,
    views: &[u8],
    visited: &mut Visited,
) -> Ending
    requires { Lent routers source views.now }
    ensures { Ends result (path_over guides.now routers source destination views.now)
        × (visited.new.routers ≡ written (path_over guides.now routers source destination views.now) visited.old.routers) }
{
    let left = routers - 1;
    let mut list = [0; 64];
    list[..left as usize].copy_from_slice(&views[..left as usize]);
    let site = Site {
        guides,
        views: &list,
        destination,
    };
    let outcome = site.arrive(source, STARTS_HERE, 0, left, visited);
    Ending {
        outcome,
        router: visited.routers[visited.hops as usize],
        hops: visited.hops,
    }
}

// The trace gets the routers that a packet visited, one more than its hops; 10 where it has no room for N.
fn tell(ending: Ending, routers: u8, visited: &[u8; 64], trace: &mut [u8]) -> Result<(), Reason>
    requires { (ending.hops < routers) × (routers ≤ 64) }
    ensures { Tells ending routers visited.now trace.old result trace.new }
{
    let found = (ending.hops as usize) + 1;
    if trace.len() < (routers as usize) {
        return Err(Reason::NoRoom);
    }
    trace[..found].copy_from_slice(&visited[..found]);
    Ok(())
}

// 11: fewer than N - 1 views, or one of the first N - 1 that is neither 0 nor 1.
#[tactic(auto, unfolding(rules::specs::PathQuestion::bad_views, rules::specs::PathQuestion::few_views))]
fn views_are_bad(views: &[u8], routers: usize) -> bool
    requires { 0 < routers }
    ensures { result ≡ bad_views routers views.now }
{
    let count = routers - 1;
    if views.len() < count {
        return true;
    }
    views[..count].iter().any(|view| 1 < *view)
}

// 9: a source or a destination that is not below N.
#[tactic(auto, unfolding(rules::specs::PathQuestion::bad_numbers, rules::specs::Answers::bad_router))]
fn numbers_are_bad(routers: u8, source: u64, destination: u64) -> bool
    ensures { result ≡ bad_numbers routers source destination }
{
    (routers as u64) <= source || (routers as u64) <= destination
}

// 9 and 11, of tables of so many routers.
fn judge_packet(routers: u8, source: u64, destination: u64, views: &[u8]) -> Result<(), Reason>
    requires { 0 < routers }
    ensures { found_number result ≡ number_in (packet_refusals routers (bad_numbers routers source destination) views.now) }
{
    if numbers_are_bad(routers, source, destination) {
        return Err(Reason::NoSuchRouter);
    }
    if views_are_bad(views, routers as usize) {
        return Err(Reason::BadViews);
    }
    Ok(())
}

// The path of one packet in two tables that go together, where neither 9 nor 11 refuses.
fn path_in(
    tables: Together,
    source: u8,
    destination: u8,
    views: &[u8],
    trace: &mut [u8],
) -> Result<Ending, Refusal>
    requires { Followable (asked_of tables source destination views.now trace.old) }
    ensures { AnswersPath (asked_of tables.entry source destination views.now trace.old) result trace.new }
{
    let routers = tables.new.outline.routers;
    let guides = guides_to(tables, destination);
    let mut visited = Visited {
        routers: [0; 64],
        hops: 0,
    };
    let ending = follow_packet(&guides, routers, source, destination, views, &mut visited);
    tell(ending, routers, &visited.routers, trace)?;
    Ok(ending)
}

// The path of one packet through routers of mixed views. The trace gets the visited routers in order, source first.
pub fn path(
    old: &[u8],
    new: &[u8],
    source: u64,
    destination: u64,
    views: &[u8],
    trace: &mut [u8],
) -> Result<Ending, Refusal>
    ensures { AnswersPath (record {
      old = old.now;
      new = new.now;
      source = source;
      destination = destination;
      views = views.now;
      trace = trace.old;
    }) result trace.new }
{
    let tables = together(old, new)?;
    judge_packet(tables.new.outline.routers, source, destination, views)?;
    path_in(tables, source as u8, destination as u8, views, trace)
}
