// A job's bytes: its shape, its counts, and the first number that applies.
ghost use Rattle.std.specs.Prelude.{◌≡◌, true};
ghost use Rattle.records.specs.Job.{job_of};
ghost use Rattle.records.specs.Refusal.{netlists_good, outputs_good, candidates_good};
ghost use Rattle.records.specs.Service.{read_told};
ghost use Rattle.records.specs.Inner.{check_of, lens_in, counted_from, counts_within, Within, shape_of, starts_of, Laid, checked_of};

use super::candidate::check_candidates;
use super::field::{Check, Span, walked, wide};
use super::limits::{CANDIDATE_SIZE, CANDIDATES, GATE_SIZE, GATES, INPUTS, OUTPUTS, TARGETS};
use super::netlist::{check_gates, check_outputs, fanout_marks};
use super::refusal::Refusal;

// How many gates and outputs a netlist has.
#[derive(Clone, Copy)]
pub struct SideCounts {
    pub gates: usize,
    pub outputs: usize,
}

// The counts of a job.
#[derive(Clone, Copy)]
pub struct Counts {
    pub inputs: usize,
    pub targets: usize,
    pub old: SideCounts,
    pub golden: SideCounts,
    pub candidates: usize,
}

// How many places are lent for the parts of a job.
#[derive(Clone, Copy)]
pub struct Room {
    pub old: SideCounts,
    pub golden: SideCounts,
    pub nets: usize,
    pub weights: usize,
}

// The bytes of a whole job, and its counts, which are within their ranges.
#[derive(Clone, Copy)]
pub struct LaidJob<'a> {
    pub bytes: &'a [u8],
    pub counts: Counts,
    ghost laid: { Laid bytes.now counts },
}

// Where the bytes of fields 2 to 6 start, and where the last one's end.
#[derive(Drop)]
pub struct Starts {
    pub old: usize,
    pub outputs: usize,
    pub golden: usize,
    pub goldens: usize,
    pub candidates: usize,
    pub end: usize,
}

// The counts of fields with these spans, of which the first holds the inputs and targets; none where they are not those of two counts and
// whole gates, nets and candidates.
fn counted(spans: [Span; 6], inputs: usize, targets: usize) -> Option<Counts>
    ensures { result ≡ counted_from (lens_in spans) inputs targets }
{
    let old = spans[1].len;
    let outputs = spans[2].len;
    let golden = spans[3].len;
    let goldens = spans[4].len;
    let candidates = spans[5].len;
    let first = (spans[0].len == 2) & (old % GATE_SIZE == 0) & (outputs % 2 == 0);
    if first & (golden % GATE_SIZE == 0) & (goldens % 2 == 0) & (candidates % CANDIDATE_SIZE == 0) {
        return Some(Counts {
            inputs,
            targets,
            old: SideCounts {
                gates: old / GATE_SIZE,
                outputs: outputs / 2,
            },
            golden: SideCounts {
                gates: golden / GATE_SIZE,
                outputs: goldens / 2,
            },
            candidates: candidates / CANDIDATE_SIZE,
        });
    }
    None
}

// The counts that a job's six fields give; none where they are not all there, or one has a length that its records do not allow.
fn shaped(job: &[u8]) -> Option<Counts>
    ensures { result ≡ shape_of job.now }
{
    let spans = walked(job, 1, 6)?;
    counted(spans, wide(job[3]), wide(job[4]))
}

// Whether every count is within its range.
pub(super) fn check_counts(c: Counts) -> Check
    ensures { result ≡ check_of (counts_within c) }
{
    let old = (c.old.gates <= GATES) & (1 <= c.old.outputs) & (c.old.outputs <= OUTPUTS);
    let golden = (c.golden.gates <= GATES)
        & (1 <= c.golden.outputs)
        & (c.golden.outputs <= OUTPUTS);
    if (c.inputs <= INPUTS) & (c.targets <= TARGETS) & old & golden & (c.candidates <= CANDIDATES) {
        return Check::Passed;
    }
    Check::Failed
}

// Where the fields of a job with these counts stand.
pub(super) fn starts_of(c: Counts) -> Starts
    requires { Within c }
    ensures { result ≡ starts_of c }
{
    let old = c.old;
    let golden = c.golden;
    let outputs = 8 + GATE_SIZE * old.gates + 3;
    let third = outputs + 2 * old.outputs + 3;
    let goldens = third + GATE_SIZE * golden.gates + 3;
    let candidates = goldens + 2 * golden.outputs + 3;
    Starts {
        old: 8,
        outputs,
        golden: third,
        goldens,
        candidates,
        end: candidates + CANDIDATE_SIZE * c.candidates,
    }
}

impl LaidJob<'_> {
    // Number 4: whether each gate may drive its net.
    fn check_netlists(&self) -> Check
        ensures { result ≡ check_of (netlists_good (job_of self.now.bytes.now)) }
    {
        let c = self.counts;
        let at = starts_of(c);
        let old = &self.bytes[at.old..at.outputs - 3];
        let Check::Passed = check_gates(old, c.inputs + c.targets) else {
            return Check::Failed;
        };
        check_gates(&self.bytes[at.golden..at.goldens - 3], c.inputs)
    }

    // Number 5: whether the output nets exist, as many on both sides.
    fn check_all_outputs(&self) -> Check
        ensures { result ≡ check_of (outputs_good (job_of self.now.bytes.now)) }
    {
        let c = self.counts;
        let at = starts_of(c);
        let old = &self.bytes[at.outputs..at.golden - 3];
        let Check::Passed = check_outputs(old, c.inputs + c.targets + c.old.gates) else {
            return Check::Failed;
        };
        let golden = &self.bytes[at.goldens..at.candidates - 3];
        let Check::Passed = check_outputs(golden, c.inputs + c.golden.gates) else {
            return Check::Failed;
        };
        if c.old.outputs == c.golden.outputs {
            Check::Passed
        } else {
            Check::Failed
        }
    }

    // Number 6: whether the candidates ascend, exist, and are neither targets nor led to by one.
    fn check_all_candidates(&self) -> Check
        requires { netlists_good (job_of self.now.bytes.now) ≡ true }
        ensures { result ≡ check_of (candidates_good (job_of self.now.bytes.now)) }
    {
        let c = self.counts;
        let at = starts_of(c);
        let marks = fanout_marks(&self.bytes[at.old..at.outputs - 3], c.inputs, c.targets);
        let candidates = &self.bytes[at.candidates..at.end];
        check_candidates(candidates, c.inputs + c.targets + c.old.gates, &marks)
    }
}

// The counts of an accepted job, or the first refusal that applies, each tested over the whole job before the next.
pub(super) fn check_job(job: &[u8]) -> Result<Counts, Refusal>
    ensures { read_told result ≡ checked_of job.now }
{
    let Some(counts) = shaped(job) else {
        return Err(Refusal::Fields);
    };
    let Check::Passed = check_counts(counts) else {
        return Err(Refusal::Counts);
    };
    let laid = LaidJob { bytes: job, counts };
    let Check::Passed = laid.check_netlists() else {
        return Err(Refusal::Gates);
    };
    let Check::Passed = laid.check_all_outputs() else {
        return Err(Refusal::Outputs);
    };
    let Check::Passed = laid.check_all_candidates() else {
        return Err(Refusal::Candidates);
    };
    Ok(counts)
}
