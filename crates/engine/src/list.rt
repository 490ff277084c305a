// The vector list of the search over the inputs.
ghost use Rattle.std.specs.Prelude.{ℕ, ◌≤◌, ◌<◌, get_or};

use super::limits::VECTORS;
use super::word::lowest_of;

// The first len places of list hold the vector list. Where it is stuck, no vector rectifies that input.
// An array and a length, since nothing here uses the heap.
#[derive(Clone, Copy)]
pub struct Vectors {
    pub list: [u8; VECTORS],
    pub len: usize,
    pub stuck: Option<usize>,
    ghost held: { (len ≤ 16) × ((i : ℕ) → get_or list i 0 < 16) },
}

impl Vectors {
    ghost use Rattle.std.specs.Prelude.{◌≡◌, ◌++◌, ◌∷◌, [], eqb};
    ghost use Rattle.engine.specs.Choice.{any};
    ghost use Rattle.engine.specs.Eval.{bit};
    ghost use Rattle.engine.specs.Inner.List.{listed_of, list_step, start_list};

    // Vector 0 alone, with which the walk over the inputs begins.
    pub(super) fn start() -> Vectors
        ensures { listed_of result ≡ start_list }
    {
        Vectors {
            list: [0; VECTORS],
            len: 1,
            stuck: None,
        }
    }

    // The listed vectors.
    pub(super) fn listed(&self) -> &[u8]
        ensures { result.now ≡ (listed_of self.now).vectors }
    {
        &self.list[..self.len]
    }

    // Whether a listed vector is in the set.
    fn meets(&self, set: u16) -> bool
        ensures { result ≡ any (λ v. eqb (bit v set) 1) (listed_of self.now).vectors }
    {
        // A loop: written with any, two goals stay open.
        for v in self.listed() {
            if (set >> *v) % 2 == 1 {
                return true;
            }
        }
        false
    }

    // Lists one vector more.
    fn append(&mut self, vector: usize)
        requires { (self.old.len < 16) × (vector < 16) }
        ensures { listed_of self.new ≡ record { vectors = (listed_of self.old).vectors ++ (vector ∷ []); stuck = (listed_of self.old).stuck } }
    {
        self.list[self.len] = vector as u8;
        self.len += 1;
    }

    // What an input does that the vectors of this set rectify.
    pub(super) fn step(&mut self, set: u16, input: usize)
        ensures { listed_of self.new ≡ list_step (listed_of self.old) set input }
    {
        if self.stuck.is_some() || self.meets(set) {
            return;
        }
        if set == 0 {
            self.stuck = Some(input);
            return;
        }
        if self.len < VECTORS {
            self.append(lowest_of(usize::from(set)));
        }
    }
}
