// Sets of routers as 64-bit numbers, bit k for router k: plain numbers, as they stand in what is lent and answered to C.
#![tactic(auto)]

ghost use Rattle.std.specs.Prelude.{List, ℕ};
ghost use Rattle.std.specs.Iterator.{YieldsFirst, item_count};
ghost use Rattle.rules.specs.NextHops.{members};
ghost use Rattle.sets.specs.Sets.{NoSets, HasMember, Chooses, Counts, GivesMembers};

use std::marker::Model;

// The chosen hop of the empty set: no router. A number, as it is answered to C.
pub const NO_HOP: u8 = 255;

// 64 empty sets, one for each router: a function and no literal, since it is promised by name.
pub fn no_sets() -> [u64; 64]
    ensures { NoSets result }
{
    [0; 64]
}

// Whether router k is a member.
pub fn has(set: u64, k: u8) -> bool
    ensures { HasMember set k result }
{
    if 64 <= k {
        return false;
    }
    (set >> k) & 1 == 1
}

// The chosen hop: the lowest-numbered member.
pub fn chosen(set: u64) -> u8
    ensures { Chooses set result }
{
    if set == 0 {
        return NO_HOP;
    }
    u64::trailing_zeros(set) as u8
}

// The number of members.
pub fn size(set: u64) -> u8
    ensures { Counts set result }
{
    u64::count_ones(set) as u8
}

// The members of a set that are left, lowest first. Contracts see the list of them.
#[derive(Drop)]
pub struct MembersLeft {
    rest: u64,
}

impl Model for MembersLeft {
    ghost Value = { List ℕ };

    ghost view = { λ s. members s.rest };
}

// The members of a set, lowest first.
pub fn members(set: u64) -> MembersLeft
    ensures { GivesMembers set result }
{
    MembersLeft { rest: set }
}

impl Iterator for MembersLeft {
    type Item = usize;

    ghost next_gives = { YieldsFirst (λ left. left) };

    ghost remaining = { item_count (λ left. left) };

    #[inline(always)]
    fn next(&mut self) -> Option<usize> {
        if self.rest == 0 {
            return None;
        }
        let k = u64::trailing_zeros(self.rest) as usize;
        self.rest = self.rest & (self.rest - 1);
        Some(k)
    }
}
