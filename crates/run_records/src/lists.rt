// The ten lists of a job in columns, which are lent to read and to write: with a pattern, or as a call has them.
use records::{Counts, Refusal};
use samples::{Call, Place, hash, new_list};

// A list's place that a call has.
trait Item: Place {
    // The place at the front of the call; 0 where the call is too short.
    fn next(call: &mut Call) -> Self;
}

impl Item for u8 {
    fn next(call: &mut Call) -> u8 {
        match call.part(1) {
            [byte] => *byte,
            _ => 0,
        }
    }
}

impl Item for u16 {
    fn next(call: &mut Call) -> u16 {
        match call.part(2) {
            [high, low] => u16::from_be_bytes([*high, *low]),
            _ => 0,
        }
    }
}

// A list, and how many of its places, from the first on, are lent: at most all.
#[derive(Drop)]
pub struct List<T, const N: usize> {
    places: [T; N],
    lent: usize,
}

impl<T: Item, const N: usize> List<T, N> {
    // The list which, with its pattern.
    fn new(which: usize, lent: usize) -> List<T, N> {
        List {
            places: new_list(which),
            lent,
        }
    }

    // The list at the front of the call, its length first; 0 in all places behind.
    pub(super) fn next(call: &mut Call) -> List<T, N> {
        let mut places = [T::low(0); N];
        let lent = call.word().unwrap_or(0);
        for place in places.iter_mut().take(lent) {
            *place = T::next(call);
        }
        List { places, lent }
    }

    pub(super) fn lent(&self) -> &[T] {
        &self.places[..self.lent.min(N)]
    }

    fn lent_mut(&mut self) -> &mut [T] {
        &mut self.places[..self.lent.min(N)]
    }

    // The hash from with the first n places.
    fn hash(&self, from: usize, n: usize) -> usize {
        hash(from, &self.places[..n.min(N)])
    }
}

// As many places as any call has; lists that are as long are of one type.
pub type Bytes = List<u8, 420>;

pub type Words = List<u16, 1620>;

// The lists of a netlist.
#[derive(Drop)]
pub struct Side {
    kinds: Bytes,
    counts: Bytes,
    slots: Words,
    outputs: Words,
}

impl Side {
    fn next(call: &mut Call) -> Side {
        Side {
            kinds: List::next(call),
            counts: List::next(call),
            slots: List::next(call),
            outputs: List::next(call),
        }
    }

    fn hash(&self, from: usize) -> usize {
        let h = self.kinds.hash(from, 401);
        let h = self.counts.hash(h, 401);
        let h = self.slots.hash(h, 1601);
        self.outputs.hash(h, 401)
    }
}

#[derive(Drop)]
pub struct Lists {
    old: Side,
    golden: Side,
    nets: Words,
    weights: Words,
}

impl Lists {
    // Lists with the pattern, of which so many places are lent.
    pub(super) fn new(lent: [usize; 10]) -> Lists {
        Lists {
            old: Side {
                kinds: List::new(1, lent[0]),
                counts: List::new(2, lent[1]),
                slots: List::new(3, lent[2]),
                outputs: List::new(4, lent[3]),
            },
            golden: Side {
                kinds: List::new(5, lent[4]),
                counts: List::new(6, lent[5]),
                slots: List::new(7, lent[6]),
                outputs: List::new(8, lent[7]),
            },
            nets: List::new(9, lent[8]),
            weights: List::new(10, lent[9]),
        }
    }

    // Lists with the pattern, of which all that is hashed is lent.
    pub(super) fn whole() -> Lists {
        Lists::new([401, 401, 1601, 401, 401, 401, 1601, 401, 401, 401])
    }

    // The lists at the front of the call.
    pub(super) fn next(call: &mut Call) -> Lists {
        Lists {
            old: Side::next(call),
            golden: Side::next(call),
            nets: List::next(call),
            weights: List::next(call),
        }
    }

    pub(super) fn read(&mut self, job: &[u8]) -> Result<Counts, Refusal> {
        records::read_columns(
            job,
            self.old.kinds.lent_mut(),
            self.old.counts.lent_mut(),
            self.old.slots.lent_mut(),
            self.old.outputs.lent_mut(),
            self.golden.kinds.lent_mut(),
            self.golden.counts.lent_mut(),
            self.golden.slots.lent_mut(),
            self.golden.outputs.lent_mut(),
            self.nets.lent_mut(),
            self.weights.lent_mut(),
        )
    }

    pub(super) fn write(&self, counts: Counts, buf: &mut [u8]) -> Result<usize, Refusal> {
        records::write_columns(
            counts,
            self.old.kinds.lent(),
            self.old.counts.lent(),
            self.old.slots.lent(),
            self.old.outputs.lent(),
            self.golden.kinds.lent(),
            self.golden.counts.lent(),
            self.golden.slots.lent(),
            self.golden.outputs.lent(),
            self.nets.lent(),
            self.weights.lent(),
            buf,
        )
    }

    // The hash of each list's first 401 places, of slots the first 1,601, which are all that read is ever lent.
    pub(super) fn hash(&self) -> usize {
        let h = self.golden.hash(self.old.hash(0));
        let h = self.nets.hash(h, 401);
        self.weights.hash(h, 401)
    }
}
