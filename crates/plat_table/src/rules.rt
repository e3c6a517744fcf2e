//! The rule of the table, and what its steps, splits and joins do to what a seat knows.
use atomic_table::{Join, Play, Seat, Shared, Split, Table, TableRule};
use plat_base::Config;
use std::alloc::Global;
use std::marker::{Brand, Model, PhantomData};

/// What a seat knows: the machine, and some actors with their private states. No value of it is made.
pub struct View {}

impl Model for View {
    ghost use Rattle.plat_table.specs.Rule.{Known, nobody};

    ghost Value = { Known };

    ghost view = { λ _. nobody };
}

/// The words are those of a run of live actors, whose private states the seats know, each in exactly one seat.
pub struct RunRule;

impl TableRule<u64, View, Config> for RunRule {
    ghost use Rattle.plat_table.specs.Rule.{Holds, all_begun};

    ghost holds = { Holds };

    ghost first = { all_begun };
}

pub type Words = Table<u64, View, Config, RunRule, Global>;

pub type Steps = Shared<u64, View, Config, RunRule>;

pub type Token = Seat<u64, View>;

/// Whose step it is: a place among the actors of a seat.
pub trait Turn {
    ghost use Rattle.std.specs.Prelude.{ℕ};

    ghost at: { ℕ };
}

impl Turn for Brand {
    ghost at = { 0 };
}

/// One event of the actor whose turn it is.
pub struct Makes<J> {
    turn: PhantomData<J>,
}

impl<J: Turn> Play<u64, View> for Makes<J> {
    ghost use Rattle.plat_table.specs.Rule.{Makes};

    ghost then = { Makes J.at };
}

/// The lower half of the actors stays, and the upper half goes; and the other way round.
pub struct Halves;

impl Split<View> for Halves {
    ghost use Rattle.plat_table.specs.Rule.{low_half, high_half};

    ghost left = { low_half };

    ghost right = { high_half };
}

impl Join<View> for Halves {
    ghost use Rattle.plat_table.specs.Rule.{both_of, nobody};

    ghost both = { both_of };

    ghost spent = { nobody };
}
