// Next-hop sets over a web, and the fill: costs and sets of one destination.
#![tactic(auto)]

ghost use Rattle.std.specs.Prelude.{◌≡◌, ◌++◌, ◌^◌, ◌<◌, ◌≤◌, length, drop};
ghost use Rattle.rules.specs.Words.{pick};
ghost use Rattle.rules.specs.Table.{says};
ghost use Rattle.rules.specs.Answers.{number_in};
ghost use Rattle.rules.specs.FillQuestion.{fill_refusals, filled_costs, filled_sets};
ghost use Rattle.refusals.specs.Refusals.{found_number};
ghost use Rattle.webs.specs.Webs.{web_weight};
ghost use Rattle.search.specs.Search.{as_cheap, hops_over, cost_at};
ghost use Rattle.routes.specs.Fillings.{Fills};
ghost use Rattle.routes.specs.Hops.{FindsHops, FindsSets};

use refusals::{Reason, Refusal};
use search::costs_from;
use sets::members;
use std::array;
use tables::{Table, accept};
use webs::{Web, web_of};

// Router k's bit where the weight and k's cost `there` make the cost `here`, else 0; weight 0 is no link.
fn leads(k: usize, weight: u16, there: u32, here: u32) -> u64
    requires { k < 64 }
    ensures { result ≡ pick (as_cheap weight there here) (2 ^ k) 0 }
{
    if weight == 0 {
        return 0;
    }
    let onward = (weight as u64) + (there as u64) == (here as u64);
    (onward as u64) << k
}

// The next-hop set of one router: one walk over its links.
fn hops_at(web: &Web, costs: &[u32; 64], i: usize) -> u64
    requires { i < 64 }
    ensures { result ≡ hops_over (web_weight web.now) (cost_at costs.now) i }
{
    let here = costs[i];
    let mut set = 0;
    for k in members(web.near[i]) {
        set += leads(k, web.weights[64 * i + k], costs[k], here);
    }
    set
}

// The next-hop set of one router, by the costs to a destination.
#[tactic(auto, using(crate::proofs::Hops::no_hops))]
pub fn next_hops(web: &Web, costs: &[u32; 64], router: u8) -> u64
    ensures { FindsHops web.now costs.now router result }
{
    let i = router as usize;
    match web.near.get(i) {
        Some(_) => hops_at(web, costs, i),
        None => 0,
    }
}

// The next-hop sets of all routers, by the costs to a destination: the set of each router in turn.
pub fn sets_by(web: &Web, costs: &[u32; 64]) -> [u64; 64]
    ensures { FindsSets web.now costs.now result }
{
    array::from_fn(|i| hops_at(web, costs, i))
}

// The fill of an accepted table whose outputs are long enough.
#[tactic(auto, using(crate::proofs::Found::lengths))]
fn fill_accepted(table: Table, destination: u8, costs: &mut [u32], sets: &mut [u64])
    requires { (destination < table.outline.routers)
        × (table.outline.routers ≤ length costs.old) × (table.outline.routers ≤ length sets.old) }
    ensures { (costs.new ≡ filled_costs (says table.entry.bytes.now) destination ++ drop table.entry.outline.routers costs.old)
        × (sets.new ≡ filled_sets (says table.entry.bytes.now) destination ++ drop table.entry.outline.routers sets.old) }
{
    let web = web_of(table.bytes, table.outline);
    let found = costs_from(&web, destination);
    let hops = sets_by(&web, &found);
    let n = table.outline.routers as usize;
    costs[..n].copy_from_slice(&found[..n]);
    sets[..n].copy_from_slice(&hops[..n]);
}

// 9 and 10, of a table of so many routers, with so many places for costs and for sets.
#[tactic(auto, unfolding(rules::specs::FillQuestion::fill_refusals))]
fn judge_fill(routers: u8, destination: u64, costs: usize, sets: usize) -> Result<(), Reason>
    ensures { found_number result ≡ number_in (fill_refusals routers destination costs sets) }
{
    if (routers as u64) <= destination {
        return Err(Reason::NoSuchRouter);
    }
    if costs < (routers as usize) || sets < (routers as usize) {
        return Err(Reason::NoRoom);
    }
    Ok(())
}

// The fill: N costs and N sets of a destination; the answer is N.
#[tactic(auto, using(tables::proofs::Asked::few_routers), unfolding(rules::specs::FillQuestion::fill_refusals))]
pub fn fill(
    table: &[u8],
    destination: u64,
    costs: &mut [u32],
    sets: &mut [u64],
) -> Result<u8, Refusal>
    ensures { Fills (record { table = table.now; destination = destination; costs = costs.old; sets = sets.old }) result
        costs.new sets.new }
{
    let t = accept(table)?;
    let n = t.outline.routers;
    judge_fill(n, destination, costs.len(), sets.len())?;
    fill_accepted(t, destination as u8, costs, sets);
    Ok(n)
}
