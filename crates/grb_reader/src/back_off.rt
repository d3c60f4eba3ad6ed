//! How long a pass holds back after it has lost a try to enter: some turns of a loop that does nothing.
ghost use Rattle.std.specs.Prelude.{◌≡◌, true};
ghost use Rattle.grb_reader.specs.BackOff.{wait_after};

use std::hint::spin_loop;
use std::marker::Model;

/// The fewest turns of a wait, and those of the first.
const FEWEST: u32 = 16;

/// The most turns of a wait.
const MOST: u32 = 1024;

/// How long a pass holds back after a lost try: a number of turns of a loop that does nothing, no clock and no step on the order. A lost
/// try doubles it, and a try that is won takes one turn off.
#[derive(Drop)]
pub struct BackOff {
    turns: u32,
}

impl Model for BackOff {
    ghost use Rattle.std.specs.Prelude.{ℕ};
    ghost use Rattle.grb_reader.specs.BackOff.{IsBounded};

    ghost Value = { ℕ };

    ghost view = { λ b. b.turns };

    ghost invariant = { λ b. IsBounded b.turns };
}

impl BackOff {
    /// The shortest wait.
    pub fn new() -> BackOff
        ensures { result ≡ 16 }
    {
        BackOff { turns: FEWEST }
    }

    /// Takes in a try. After a lost one it holds back, so that the pass that was first runs on.
    #[inline(always)]
    pub fn tried(&mut self, lost: bool)
        ensures { self.new ≡ wait_after lost self.old }
    {
        if lost {
            self.hold_back();
        } else {
            self.turns = (self.turns - 1).max(FEWEST);
        }
    }

    /// Spins for the turns of the wait, and doubles them up to the most.
    #[inline(never)]
    fn hold_back(&mut self)
        ensures { self.new ≡ wait_after true self.old }
    {
        'turns: for _ in 0..self.turns {
            spin_loop();
        }
        self.turns = (2 * self.turns).min(MOST);
    }
}
