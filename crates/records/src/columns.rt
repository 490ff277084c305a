// Read and write for callers with plain parameters: a netlist's gates in three lists, the kinds, the operand counts and the
// operand slots, four a gate.
ghost use Rattle.std.specs.Prelude.{◌≡◌, length};
ghost use Rattle.records.specs.Bytes.{placed};
ghost use Rattle.records.specs.Service.{read_told, write_told};
ghost use Rattle.records.specs.Columns.{side_columns, columns, columns_reply, columns_after, columns_write_reply, columns_written};
ghost use Rattle.records.specs.Inner.{check_of, columns_hold, no_gates, structs_from, ColumnsHold, Split};

use super::field::Check;
use super::gate::Gate;
use super::job::{Counts, check_counts};
use super::limits::{GATES, LONGEST_JOB, SLOTS};
use super::reading::read;
use super::refusal::Refusal;
use super::writing::write;

// The places of a netlist's gates before any is read.
pub(super) const NO_GATES: [Gate; GATES] = [Gate {
    kind: 0,
    count: 0,
    first: 0,
    second: 0,
    third: 0,
    fourth: 0,
}; GATES];

// The first count gates into columns.
fn split(
    gates: &[Gate; GATES],
    count: usize,
    kinds: &mut [u8],
    counts: &mut [u8],
    slots: &mut [u16],
)
    requires { ColumnsHold (length gates.now) count (length kinds.old) (length counts.old) (length slots.old) }
    ensures { Split gates.now count
        kinds.old counts.old slots.old
        kinds.new counts.new slots.new }
{
    // By index: one i says the place in four lists, of which one has four places a gate.
    for i in 0..count {
        let gate = gates[i];
        kinds[i] = gate.kind;
        counts[i] = gate.count;
        let at = SLOTS * i;
        slots[at] = gate.first;
        slots[at + 1] = gate.second;
        slots[at + 2] = gate.third;
        slots[at + 3] = gate.fourth;
    }
}

// The first count gates of columns.
fn joined(kinds: &[u8], counts: &[u8], slots: &[u16], count: usize) -> [Gate; GATES]
    requires { ColumnsHold 400 count (length kinds.now) (length counts.now) (length slots.now) }
    ensures { result ≡ placed no_gates 0 (structs_from count kinds.now counts.now slots.now) }
{
    let mut gates = NO_GATES;
    // By index, as in split.
    for k in 0..count {
        let at = SLOTS * k;
        gates[k] = Gate {
            kind: kinds[k],
            count: counts[k],
            first: slots[at],
            second: slots[at + 1],
            third: slots[at + 2],
            fourth: slots[at + 3],
        };
    }
    gates
}

// Whether so many places hold count gates.
fn check_columns(count: usize, kinds: usize, counts: usize, slots: usize) -> Check
    ensures { result ≡ check_of (columns_hold count kinds counts slots) }
{
    if (count <= kinds) & (count <= counts) & (count <= slots / SLOTS) {
        return Check::Passed;
    }
    Check::Failed
}

// The service read, with a netlist's gates in columns. It takes read's time and one pass over the gates.
// The places are lent one by one, since C hands them so (crate records_c).
pub fn read_columns(
    job: &[u8],
    old_kinds: &mut [u8],
    old_counts: &mut [u8],
    old_slots: &mut [u16],
    old_outputs: &mut [u16],
    golden_kinds: &mut [u8],
    golden_counts: &mut [u8],
    golden_slots: &mut [u16],
    golden_outputs: &mut [u16],
    nets: &mut [u16],
    weights: &mut [u16],
) -> Result<Counts, Refusal>
    ensures reply { read_told result ≡ columns_reply
        (columns
        (side_columns old_kinds.old old_counts.old old_slots.old old_outputs.old)
        (side_columns golden_kinds.old golden_counts.old golden_slots.old golden_outputs.old)
        nets.old weights.old)
        job.now }
    ensures lent { columns
        (side_columns old_kinds.new old_counts.new old_slots.new old_outputs.new)
        (side_columns golden_kinds.new golden_counts.new golden_slots.new golden_outputs.new)
        nets.new weights.new
        ≡ columns_after
        (columns
        (side_columns old_kinds.old old_counts.old old_slots.old old_outputs.old)
        (side_columns golden_kinds.old golden_counts.old golden_slots.old golden_outputs.old)
        nets.old weights.old)
        job.now }
{
    let old_room = check_columns(GATES, old_kinds.len(), old_counts.len(), old_slots.len());
    let Check::Passed = old_room else {
        return Err(Refusal::Room);
    };
    let golden_room = check_columns(
        GATES,
        golden_kinds.len(),
        golden_counts.len(),
        golden_slots.len(),
    );
    let Check::Passed = golden_room else {
        return Err(Refusal::Room);
    };
    let mut old = NO_GATES;
    let mut golden = NO_GATES;
    let counts = read(
        job,
        &mut old,
        old_outputs,
        &mut golden,
        golden_outputs,
        nets,
        weights,
    )?;
    split(&old, counts.old.gates, old_kinds, old_counts, old_slots);
    split(
        &golden,
        counts.golden.gates,
        golden_kinds,
        golden_counts,
        golden_slots,
    );
    Ok(counts)
}

// The service write, with a netlist's gates in columns. It takes one pass over the gates and write's time.
// The places are lent one by one, as in read_columns.
pub fn write_columns(
    counts: Counts,
    old_kinds: &[u8],
    old_counts: &[u8],
    old_slots: &[u16],
    old_outputs: &[u16],
    golden_kinds: &[u8],
    golden_counts: &[u8],
    golden_slots: &[u16],
    golden_outputs: &[u16],
    nets: &[u16],
    weights: &[u16],
    buf: &mut [u8],
) -> Result<usize, Refusal>
    ensures reply { write_told result ≡ columns_write_reply counts
        (columns
        (side_columns old_kinds.now old_counts.now old_slots.now old_outputs.now)
        (side_columns golden_kinds.now golden_counts.now golden_slots.now golden_outputs.now)
        nets.now weights.now)
        buf.old }
    ensures lent { buf.new ≡ columns_written counts
        (columns
        (side_columns old_kinds.now old_counts.now old_slots.now old_outputs.now)
        (side_columns golden_kinds.now golden_counts.now golden_slots.now golden_outputs.now)
        nets.now weights.now)
        buf.old }
{
    if buf.len() < LONGEST_JOB {
        return Err(Refusal::Room);
    }
    let Check::Passed = check_counts(counts) else {
        return Err(Refusal::Counts);
    };
    let old = counts.old.gates;
    let old_held = check_columns(old, old_kinds.len(), old_counts.len(), old_slots.len());
    let Check::Passed = old_held else {
        return Err(Refusal::Counts);
    };
    let golden = counts.golden.gates;
    let golden_held = check_columns(
        golden,
        golden_kinds.len(),
        golden_counts.len(),
        golden_slots.len(),
    );
    let Check::Passed = golden_held else {
        return Err(Refusal::Counts);
    };
    let old_gates = joined(old_kinds, old_counts, old_slots, old);
    let golden_gates = joined(golden_kinds, golden_counts, golden_slots, golden);
    write(
        counts,
        &old_gates,
        old_outputs,
        &golden_gates,
        golden_outputs,
        nets,
        weights,
        buf,
    )
}
