// Two tables that go together.
ghost use Rattle.std.specs.Prelude.{◌≡◌};
ghost use Rattle.rules.specs.Table.{says};
ghost use Rattle.rules.specs.Pairs.{differing};
ghost use Rattle.rules.specs.PairQuestion.{AcceptedTogether};

use tables::Table;

// Two accepted tables that go together, and how many of their links differ, 0 or 1.
#[derive(Clone, Copy)]
pub struct Together<'a> {
    pub old: Table<'a>,
    pub new: Table<'a>,
    pub differ: u8,
    pub ghost fits: { AcceptedTogether old.bytes.now new.bytes.now },
    pub ghost counted: { differ ≡ differing (says old.bytes.now) (says new.bytes.now) },
}
