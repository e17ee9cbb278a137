//! A list of branches (01, "Branches"): at most 16 token sets, by value.

ghost use Rattle.std.specs.Prelude.{◌≡◌, [], ◌∷◌, ◌++◌, ◌≤◌, ◌<◌};

use tokens::{Set, write_row};

// A list of at most 16 branches: the first `count` rows of 32 counts. What stands past them is left open.
#[derive(Clone, Copy)]
pub struct Branches {
    pub count: usize,
    pub sets: [u8; 512],
    ghost few: { count ≤ 16 },
}

impl Branches {
    ghost use Rattle.goals.specs.Answers.{rows_of};

    // The list of no branches, as of ⊤.
    #[tactic(auto, unfolding(tokens::specs::Rows::rows))]
    pub(crate) fn none() -> Branches
        ensures { rows_of result ≡ [] }
    {
        Branches {
            count: 0,
            sets: [0; 512],
        }
    }

    // One branch alone, as of a kind.
    pub(crate) fn alone(set: Set) -> Branches
        ensures { rows_of result ≡ set ∷ [] }
    {
        let mut one = Branches::none();
        one.push(set);
        one
    }

    // Adds a branch, where the list stands: one that is passed on by value for each branch would be copied, all 512 bytes, each time.
    #[tactic(auto, using(crate::proofs::ListLaws::pushed))]
    pub(crate) fn push(&mut self, set: Set)
        requires { self.old.count < 16 }
        ensures { rows_of self.new ≡ rows_of self.old ++ (set ∷ []) }
    {
        write_row(&mut self.sets, self.count, set);
        self.count += 1;
    }

    // The branches as the rounds take them.
    pub fn rows(&self) -> &[Set]
        ensures { result.now ≡ rows_of self.now }
    {
        tokens::rows(&self.sets, self.count)
    }
}
