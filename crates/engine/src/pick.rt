// What a support is chosen from, and the sets of nets that are compared (see best.rt).
ghost use Rattle.std.specs.Prelude.{◌≡◌, ◌≤◌, length};

use super::limits::READINGS;

// The nets that a support is chosen from, with their weights, the sets of the readings of all of them, and how many targets there are.
// Nets and weights stand apart, since a job's parts have them so.
#[derive(Drop)]
pub struct Priced<'a> {
    pub nets: &'a [u16],
    pub weights: &'a [u16],
    pub sets: &'a [u32; READINGS],
    pub targets: usize,
    ghost few: { length nets.now ≤ 10 },
    ghost weighed: { length weights.now ≡ length nets.now },
    ghost targets_bound: { targets ≤ 4 },
}

// A set of these nets, bit i for net i, its cost, how many nets it has, and how many gates its patch, once they are counted.
#[derive(Clone, Copy)]
pub struct Pick {
    pub set: usize,
    pub cost: u32,
    pub len: usize,
    pub gates: Option<usize>,
    ghost few: { len ≤ 10 },
}
