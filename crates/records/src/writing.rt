// The service write: parts into a job's bytes.
ghost use Rattle.std.specs.Prelude.{◌≡◌, List, length};
ghost use Rattle.records.specs.Service.{side_places, places, told_number, write_told, write_reply, written_bytes};
ghost use Rattle.records.specs.Inner.{check_of, holds, write_tests_number, GatesPut, RestHeld, RestWritten};
ghost use Rattle.records.specs.declared.gate.Gate.{Gate as GateStruct};

use super::field::Check;
use super::gate::Gate;
use super::gates::put_gates;
use super::job::{Counts, Room, SideCounts, check_counts, check_job, starts_of};
use super::limits::LONGEST_JOB;
use super::put::put_rest;
use super::refusal::Refusal;

// Whether the counts are at most the numbers of places lent.
fn check_held(counts: Counts, lent: Room) -> Check
    ensures { result ≡ check_of (holds counts
        lent.old.gates lent.old.outputs lent.golden.gates lent.golden.outputs lent.nets lent.weights) }
{
    let old = (counts.old.gates <= lent.old.gates) & (counts.old.outputs <= lent.old.outputs);
    let golden = (counts.golden.gates <= lent.golden.gates)
        & (counts.golden.outputs <= lent.golden.outputs);
    if old & golden & (counts.candidates <= lent.nets) & (counts.candidates <= lent.weights) {
        Check::Passed
    } else {
        Check::Failed
    }
}

// Whether a job with these counts can be written to a buffer of so many bytes from the places lent.
fn check_write(counts: Counts, size: usize, lent: Room) -> Result<(), Refusal>
    ensures { told_number result ≡ write_tests_number counts size (holds counts
        lent.old.gates lent.old.outputs lent.golden.gates lent.golden.outputs lent.nets lent.weights) }
{
    if size < LONGEST_JOB {
        return Err(Refusal::Room);
    }
    let Check::Passed = check_counts(counts) else {
        return Err(Refusal::Counts);
    };
    let Check::Passed = check_held(counts, lent) else {
        return Err(Refusal::Counts);
    };
    Ok(())
}

// The rest of the job around the gates' bytes in scratch, checked and copied to the buffer; how many bytes it has.
// The four lists go one by one, as write is lent them.
fn write_rest(
    counts: Counts,
    old_outputs: &[u16],
    golden_outputs: &[u16],
    nets: &[u16],
    weights: &[u16],
    scratch: [u8; LONGEST_JOB],
    buf: &mut [u8],
) -> Result<usize, Refusal>
    requires { RestHeld counts
        (length old_outputs.now) (length golden_outputs.now) (length nets.now) (length weights.now)
        (length scratch) (length buf.old) }
    ensures { (gs hs : List GateStruct) → GatesPut counts gs hs scratch
        → RestWritten counts
        (places
        (side_places gs old_outputs.now)
        (side_places hs golden_outputs.now)
        nets.now weights.now)
        buf.old result buf.new }
{
    let job = put_rest(scratch, counts, old_outputs, golden_outputs, nets, weights);
    let bytes = &job.bytes[..job.len];
    let checked = check_job(bytes);
    checked?;
    buf[..job.len].copy_from_slice(bytes);
    Ok(job.len)
}

// The service write: the job whose parts stand at the starts of the places, as many as counts says; how many bytes it has. Refused are a
// buffer below 8,188 bytes (1), a count outside its range or above its places (3), gates (4), outputs (5) and candidates (6). The bytes are
// put into a buffer of the function's own, checked there as read checks them, and copied. Time linear in the job's bytes.
// Its lists are parameters of their own, as in read.
pub fn write(
    counts: Counts,
    old: &[Gate],
    old_outputs: &[u16],
    golden: &[Gate],
    golden_outputs: &[u16],
    nets: &[u16],
    weights: &[u16],
    buf: &mut [u8],
) -> Result<usize, Refusal>
    ensures reply { write_told result ≡ write_reply counts
        (places
        (side_places old.now old_outputs.now)
        (side_places golden.now golden_outputs.now)
        nets.now weights.now)
        buf.old }
    ensures lent { buf.new ≡ written_bytes counts
        (places
        (side_places old.now old_outputs.now)
        (side_places golden.now golden_outputs.now)
        nets.now weights.now)
        buf.old }
{
    let lent = Room {
        old: SideCounts {
            gates: old.len(),
            outputs: old_outputs.len(),
        },
        golden: SideCounts {
            gates: golden.len(),
            outputs: golden_outputs.len(),
        },
        nets: nets.len(),
        weights: weights.len(),
    };
    check_write(counts, buf.len(), lent)?;
    let at = starts_of(counts);
    let mut scratch = [0u8; LONGEST_JOB];
    put_gates(old, counts.old.gates, at.old, &mut scratch);
    put_gates(golden, counts.golden.gates, at.golden, &mut scratch);
    write_rest(
        counts,
        old_outputs,
        golden_outputs,
        nets,
        weights,
        scratch,
        buf,
    )
}
