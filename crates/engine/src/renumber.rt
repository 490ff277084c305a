// The nets of a patched netlist: each old net's new number, and gates and nets at their new numbers.
ghost use Rattle.std.specs.Prelude.{◌≡◌, map, true, ℕ, ◌+◌, ◌≤◌, ◌<◌, length, get_or};
ghost use Rattle.records.specs.Claims.{Below};
ghost use Rattle.records.specs.Netlist.{net_at, fanout};
ghost use Rattle.records.specs.Refusal.{gates_good};
ghost use Rattle.engine.specs.Fit.{moved};
ghost use Rattle.engine.specs.Inner.Packed.{gate_in, unpacked, packed};
ghost use Rattle.engine.specs.Inner.Tree.{Nets, InputsNumbered};

use super::limits::{MITER_GATES, NETS};
use super::packed::{count_of, kind_of, pack, slots_in};
use records::{GATES, SLOTS};

// A job's old netlist as fit reads it: packed gates, the first of the miter's, and a mark for each net that a target leads to.
// Arrays with counts, since nothing here uses the heap.
#[derive(Drop)]
pub struct OldSide {
    pub inputs: usize,
    pub targets: usize,
    pub count: usize,
    pub gates: [u64; MITER_GATES],
    pub marks: [u8; NETS],
    ghost inputs_bound: { inputs ≤ 20 },
    ghost targets_bound: { targets ≤ 4 },
    ghost count_bound: { count ≤ 400 },
    ghost good: { gates_good (inputs + targets) (unpacked count gates) ≡ true },
    ghost led: { (i : ℕ) → i < inputs + targets + count → get_or marks i 0 ≡ net_at (fanout inputs targets (unpacked count gates)) i },
}

// A patched netlist as it grows: how many gates it has, each old net's new number, and the packed gates.
// An array and a count, as in OldSide.
#[derive(Drop)]
pub struct NewSide {
    pub count: usize,
    pub numbers: [u16; NETS],
    pub gates: [u64; GATES],
}

impl NewSide {
    ghost use Rattle.engine.specs.Inner.Tree.{GateRoom};
    ghost use Rattle.engine.specs.Inner.Renumber.{with_mark, MarkedPlaced};

    // Puts the old gates with this mark, in their order, behind its gates, numbered from its next net on.
    pub(super) fn place_marked(&mut self, old: &OldSide, mark: u8)
        requires { Nets 1024 self.old.numbers
            × GateRoom old.now.inputs (self.old.count + length (with_mark old.now mark)) self.old.gates }
        ensures { MarkedPlaced old.now mark self.old self.new }
    {
        let base = old.inputs + old.targets;
        // By number, since i gives the gate's net.
        for i in 0..old.count {
            let net = base + i;
            if old.marks[net] == mark {
                let own = old.inputs + self.count;
                self.numbers[net] = own as u16;
                self.gates[self.count] = moved_code(old.gates[i], own, &self.numbers);
                self.count += 1;
            }
        }
    }
}

// The numbers of the inputs stay.
pub(super) fn number_inputs(inputs: usize) -> [u16; NETS]
    requires { inputs ≤ 1024 }
    ensures { InputsNumbered inputs result }
{
    let mut numbers = [0u16; NETS];
    // By number, since i is what is stored.
    for i in 0..inputs {
        numbers[i] = i as u16;
    }
    numbers
}

// The nets at their new numbers.
pub(super) fn move_nets(nets: &mut [u16], numbers: &[u16; NETS])
    requires { Below 1024 nets.old }
    ensures { nets.new ≡ map (λ o. get_or numbers.now o 0) nets.old }
{
    for net in nets.iter_mut() {
        *net = numbers[*net as usize];
    }
}

// The gate in the number c at its new numbers, driving net own, in one number.
pub(super) fn moved_code(c: u64, own: usize, numbers: &[u16; NETS]) -> u64
    requires { (own < 1024) × Nets 1024 numbers.now }
    ensures { result ≡ packed own (moved numbers.now (gate_in c)) }
{
    let count = count_of(c);
    let used = SLOTS.min(count as usize);
    let mut slots = slots_in(c);
    move_nets(&mut slots[..used], numbers);
    pack(kind_of(c), count, own, slots)
}
