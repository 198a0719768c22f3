// Searching a web from one router: the costs to all others, and its next-hop sets for all destinations.
#![tactic(auto)]

ghost use Rattle.std.specs.Prelude.{◌≡◌, ◌≢◌, ◌+◌, ◌^◌, ◌<◌, List, ℕ, get_or, set, replicate};
ghost use Rattle.std.specs.Int.Bits.{bit_or};
ghost use Rattle.rules.specs.Words.{pick};
ghost use Rattle.webs.specs.Webs.{web_weight};
ghost use Rattle.search.specs.Search.{FindsCosts, FindsAll, sets_from};
ghost use Rattle.search.specs.Steps.{AreSets, IsNearest, cheaper, renewed, eased, fallen, carried};

use sets::{members, no_sets};
use webs::Web;

// What is written where there is no route: a number, as it stands in lent outputs.
pub const NO_COST: u32 = 4294967295;

// Above cost × 64 + number of every router.
const ABOVE_ALL: u64 = u64::MAX;

// What a search finds: the cost to each of 64 routers, and the next-hop set for it; two arrays, as the outputs of a fill are.
#[derive(Drop)]
pub struct Found {
    pub costs: [u32; 64],
    pub sets: [u64; 64],
}

// What a search carries on beside the costs: the first hops to each router, or nothing.
trait Carried {
    // Holds of what is carried and of the sets of first hops that it is, if it is any. What fits into those is no fact of this type, so what is promised
    // of them begins with `AreSets`.
    ghost Is: { Self → List ℕ → Type 0 };

    // The first hops to router m.
    fn hops(&self, m: usize) -> u64
        requires { m < 64 }
        ensures { (sets : List ℕ) → Is self.now sets → result ≡ get_or sets m 0 };

    // Router k takes over these first hops alone.
    fn take_over(&mut self, k: usize, over: u64)
        requires { k < 64 }
        ensures { (sets : List ℕ) → Is self.old sets → Is self.new (set sets k over) };

    // They join those that router k has.
    fn join(&mut self, k: usize, over: u64)
        requires { k < 64 }
        ensures { (sets : List ℕ) → Is self.old sets → Is self.new (set sets k (bit_or (get_or sets k 0) over)) };
}

impl Carried for [u64; 64] {
    ghost Is = { λ carried sets. carried ≡ sets };

    fn hops(&self, m: usize) -> u64 {
        self[m]
    }

    fn take_over(&mut self, k: usize, over: u64) {
        self[k] = over;
    }

    fn join(&mut self, k: usize, over: u64) {
        self[k] |= over;
    }
}

// Nothing is carried but the costs.
#[derive(Drop)]
struct CostsAlone;

impl Carried for CostsAlone {
    ghost Is = { λ _ _. ⊥ };

    fn hops(&self, _m: usize) -> u64 {
        0
    }

    fn take_over(&mut self, _k: usize, _over: u64) {}

    fn join(&mut self, _k: usize, _over: u64) {}
}

// The nearest router of a set: cost and number are compared as one number, cost × 64 + number.
fn nearest(costs: &[u32; 64], waiting: u64) -> usize
    requires { waiting ≢ 0 }
    ensures { IsNearest costs.now waiting result }
{
    let mut least = ABOVE_ALL;
    for k in members(waiting) {
        least = least.min((costs[k] as u64) * 64 + (k as u64));
    }
    (least % 64) as usize
}

// The first hops from a router over m to k: k itself where m is that router, else those to m.
fn handed(own: bool, hops: u64, k: usize) -> u64
    requires { k < 64 }
    ensures { result ≡ pick own (2 ^ k) hops }
{
    if own { 1u64 << k } else { hops }
}

// Router k over a link of this weight from a router of the cost `from`: where that is cheaper, k takes that cost and the first hops `over` alone;
// where it is as cheap, `over` joins those that it has. The answer is k's bit where its cost fell, else 0. The sum is made in 64 bits.
fn reach_one<C: Carried>(
    costs: &mut [u32; 64],
    load: &mut C,
    k: usize,
    weight: u16,
    from: u32,
    over: u64,
) -> u64
    requires { k < 64 }
    ensures { (result ≡ pick (cheaper weight from (get_or costs.old k 0)) (2 ^ k) 0)
        × (costs.new ≡ pick (cheaper weight from (get_or costs.old k 0))
        (set costs.old k (weight + from)) costs.old)
        × ((sets : List ℕ) → AreSets sets → C.Is load.old sets
        → C.Is load.new (set sets k
        (renewed weight from (get_or costs.old k 0) (get_or sets k 0) over))) }
{
    if weight == 0 {
        return 0;
    }
    let sum = (weight as u64) + (from as u64);
    let cost = costs[k] as u64;
    if sum < cost {
        costs[k] = sum as u32;
        load.take_over(k, over);
        return 1u64 << k;
    }
    if sum == cost {
        load.join(k, over);
    }
    0
}

// Costs and first hops over router m's links; the answer is the set of the routers whose cost fell.
fn reach<C: Carried>(web: &Web, router: u8, m: usize, costs: &mut [u32; 64], load: &mut C) -> u64
    requires { m < 64 }
    ensures { (result ≡ fallen (web_weight web.now) costs.old m)
        × (costs.new ≡ eased (web_weight web.now) costs.old m)
        × ((sets : List ℕ) → AreSets sets → C.Is load.old sets
        → C.Is load.new (carried (web_weight web.now) costs.old router sets m)) }
{
    let from = costs[m];
    let hops = load.hops(m);
    let own = m == (router as usize);
    let mut fallen = 0;
    for k in members(web.near[m]) {
        let over = handed(own, hops, k);
        fallen += reach_one(costs, load, k, web.weights[64 * m + k], from, over);
    }
    fallen
}

// The costs from a router to each of 64 routers, and the first hops to them where they are carried: the next-hop sets. The nearest waiting router
// passes its cost and its first hops on over its links, and where a cost falls that router waits again; at the end none does.
fn search_from<C: Carried>(web: &Web, router: u8, load: &mut C) -> [u32; 64]
    ensures { FindsCosts web.now router result
        × ((sets : List ℕ) → sets ≡ replicate 64 0 → C.Is load.old sets
        → C.Is load.new (sets_from (web_weight web.now) router)) }
{
    let mut costs = [NO_COST; 64];
    let _ = web.near[0]; // behind a read of one element the numbers of both arrays are known to be in range
    if 64 <= router {
        return costs;
    }
    costs[router as usize] = 0;
    let mut waiting = 1u64 << router;
    while waiting != 0 {
        let m = nearest(&costs, waiting);
        let fallen = reach(web, router, m, &mut costs, load);
        waiting = (waiting - (1u64 << m)) | fallen;
    }
    costs
}

// The costs from a router to each of 64 routers.
pub fn costs_from(web: &Web, router: u8) -> [u32; 64]
    ensures { FindsCosts web.now router result }
{
    search_from(web, router, &mut CostsAlone)
}

// The costs from a router to each of 64 routers, and its next-hop sets for them, by one search.
pub fn all_from(web: &Web, router: u8) -> Found
    ensures { FindsAll web.now router result }
{
    let mut sets = no_sets();
    let costs = search_from(web, router, &mut sets);
    Found { costs, sets }
}
