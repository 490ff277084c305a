// Cubes of readings, and covers by them (see cover.rt).
ghost use Rattle.std.specs.Prelude.{◌≡◌, true, false, ℕ, ◌≤◌, ◌<◌, take};

use super::limits::CUBES;

// The readings that have the bits of a value at the nets that care says, whatever the others are.
#[derive(Clone, Copy)]
pub struct Cube {
    pub value: u16,
    pub care: u16,
    ghost value_below: { value < 1024 },
    ghost care_below: { care < 1024 },
}

// The readings that are in one of the first count cubes.
// An array and a count, since nothing here uses the heap.
#[derive(Clone, Copy)]
pub struct Cover {
    pub count: usize,
    pub cubes: [Cube; CUBES],
    ghost few: { count ≤ 64 },
}

impl Cube {
    ghost use Rattle.engine.specs.Inner.Cover.{InCube};

    // It asks for nothing, so all readings are in it.
    const ALL: Cube = Cube { value: 0, care: 0 };

    // Whether a reading is in it.
    fn has(self, reading: usize) -> bool
        ensures { result ≡ true → InCube self reading }
    {
        (reading ^ self.value as usize) & self.care as usize == 0
    }
}

impl Cover {
    ghost use Rattle.engine.specs.Inner.Cover.{InCover, CubeAdded};

    // No cube.
    pub(super) fn empty() -> Self
        ensures { result.count ≡ 0 }
    {
        Cover {
            count: 0,
            cubes: [Cube::ALL; CUBES],
        }
    }

    // One cube that has all readings.
    pub(super) fn all() -> Self
        ensures { (q : ℕ) → InCover result q }
    {
        Cover {
            count: 1,
            cubes: [Cube::ALL; CUBES],
        }
    }

    pub(super) fn cubes(&self) -> &[Cube]
        ensures { result.now ≡ take self.now.count self.now.cubes }
    {
        &self.cubes[..self.count]
    }

    // Whether a reading is in one of its cubes.
    pub(super) fn has(&self, reading: usize) -> bool
        ensures { result ≡ true → InCover self.now reading }
    {
        self.cubes().iter().any(|cube| cube.has(reading))
    }

    pub(super) fn is_full(&self) -> bool
        ensures { result ≡ false → self.now.count < 64 }
    {
        self.count == CUBES
    }

    // One cube more.
    pub(super) fn push(&mut self, cube: Cube)
        requires { self.old.count < 64 }
        ensures { CubeAdded self.old cube self.new }
    {
        self.cubes[self.count] = cube;
        self.count += 1;
    }
}
