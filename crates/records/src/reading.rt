// The service read: a job's bytes into lent places.
ghost use Rattle.std.specs.Prelude.{◌≡◌, length};
ghost use Rattle.records.specs.Job.{job_of};
ghost use Rattle.records.specs.Service.{side_places, places, read_told, read_reply, read_places};
ghost use Rattle.records.specs.Inner.{check_of, room, reply_in, RestFits, RestFilled};

use super::field::Check;
use super::fill::fill_words;
use super::gate::Gate;
use super::gates::fill_gates;
use super::job::{Counts, Room, SideCounts, check_job, starts_of};
use super::limits::{CANDIDATE_SIZE, CANDIDATES, GATES, OUTPUTS};
use super::refusal::Refusal;

// Whether the places lent are enough for every job.
fn check_room(lent: Room) -> Check
    ensures { result ≡ check_of (room
        lent.old.gates lent.old.outputs lent.golden.gates lent.golden.outputs lent.nets lent.weights) }
{
    let old = (GATES <= lent.old.gates) & (OUTPUTS <= lent.old.outputs);
    let golden = (GATES <= lent.golden.gates) & (OUTPUTS <= lent.golden.outputs);
    if old & golden & (CANDIDATES <= lent.nets) & (CANDIDATES <= lent.weights) {
        Check::Passed
    } else {
        Check::Failed
    }
}

// What read answers where so many places are lent.
fn check_read(job: &[u8], lent: Room) -> Result<Counts, Refusal>
    ensures { read_told result ≡ reply_in (room
        lent.old.gates lent.old.outputs lent.golden.gates lent.golden.outputs lent.nets lent.weights) job.now }
{
    let Check::Passed = check_room(lent) else {
        return Err(Refusal::Room);
    };
    check_job(job)
}

// The outputs and candidates of a job with these counts into their places.
// The four lists go one by one, as read is lent them.
fn fill_rest(
    job: &[u8],
    counts: Counts,
    old_outputs: &mut [u16],
    golden_outputs: &mut [u16],
    nets: &mut [u16],
    weights: &mut [u16],
)
    requires { RestFits counts job.now
        (length old_outputs.old) (length golden_outputs.old) (length nets.old) (length weights.old) }
    ensures { RestFilled (job_of job.now)
        old_outputs.old golden_outputs.old nets.old weights.old
        old_outputs.new golden_outputs.new nets.new weights.new }
{
    let at = starts_of(counts);
    let candidates = counts.candidates;
    fill_words(job, 2, at.outputs, counts.old.outputs, old_outputs);
    fill_words(job, 2, at.goldens, counts.golden.outputs, golden_outputs);
    fill_words(job, CANDIDATE_SIZE, at.candidates, candidates, nets);
    fill_words(job, CANDIDATE_SIZE, at.candidates + 2, candidates, weights);
}

// The service read: the counts of the job whose parts then stand at the starts of the places. Refused are too few places (1), then what is
// no whole job (2), counts (3), gates (4), outputs (5) and candidates (6). It takes one pass over the bytes for each check and one to fill:
// time linear in the job's bytes.
// Its lent places are parameters of their own, as its clauses name each of them, and C lends them one by one.
pub fn read(
    job: &[u8],
    old: &mut [Gate],
    old_outputs: &mut [u16],
    golden: &mut [Gate],
    golden_outputs: &mut [u16],
    nets: &mut [u16],
    weights: &mut [u16],
) -> Result<Counts, Refusal>
    ensures reply { read_told result ≡ read_reply
        (places
        (side_places old.old old_outputs.old)
        (side_places golden.old golden_outputs.old)
        nets.old weights.old)
        job.now }
    ensures lent { places
        (side_places old.new old_outputs.new)
        (side_places golden.new golden_outputs.new)
        nets.new weights.new
        ≡ read_places
        (places
        (side_places old.old old_outputs.old)
        (side_places golden.old golden_outputs.old)
        nets.old weights.old)
        job.now }
{
    let lent = Room {
        old: SideCounts {
            gates: old.len(),
            outputs: old_outputs.len(),
        },
        golden: SideCounts {
            gates: golden.len(),
            outputs: golden_outputs.len(),
        },
        nets: nets.len(),
        weights: weights.len(),
    };
    let checked = check_read(job, lent);
    let counts = checked?;
    let at = starts_of(counts);
    fill_gates(job, at.old, counts.old.gates, old);
    fill_gates(job, at.golden, counts.golden.gates, golden);
    fill_rest(job, counts, old_outputs, golden_outputs, nets, weights);
    Ok(counts)
}
