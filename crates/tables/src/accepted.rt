// A table that is accepted.
ghost use Rattle.rules.specs.Demand1.{IsAccepted};
ghost use Rattle.std.specs.Prelude.{◌≡◌};
ghost use Rattle.tables.specs.Readings.{outline_of};

use crate::Outline;

// The bytes of an accepted table, and what they hold.
#[derive(Clone, Copy)]
pub struct Table<'a> {
    pub bytes: &'a [u8],
    pub outline: Outline,
    pub ghost accepted: { IsAccepted bytes.now },
    pub ghost outlined: { outline ≡ outline_of bytes.now },
}
