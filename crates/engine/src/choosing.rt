// The service choose.
ghost use Rattle.std.specs.Prelude.{◌≡◌, true, false, ◌^◌, ◌≤◌, ◌<◌, length, take};
ghost use Rattle.records.specs.Job.{Job};
ghost use Rattle.records.specs.Claims.{Below};
ghost use Rattle.records.specs.Parts.{PartsOf};
ghost use Rattle.engine.specs.Support.{sound, candidate_nets, chosen};
ghost use Rattle.engine.specs.Verdict.{blind_reading, chosen_bytes};
ghost use Rattle.engine.specs.Reply.{choose_told, choose_reply};
ghost use Rattle.engine.specs.Inner.Miter.{SomeParts, MergedOf};
ghost use Rattle.engine.specs.Inner.Plan.{NetsRead};
ghost use Rattle.engine.specs.Inner.Search.{SetsTo};
ghost use Rattle.engine.specs.Inner.Best.{HeldSupport, ChosenOf};
ghost use Rattle.engine.specs.Inner.Given.{Unseen};
ghost use Rattle.engine.specs.Inner.Choosing.{ChosenJob};

use super::best::first_empty;
use super::given::see_skipped;
use super::limits::{LONGEST_CHOOSE, READINGS, WORD_INPUTS};
use super::merge::merged_miter;
use super::miter::Miter;
use super::narrow::sets_of_words;
use super::pick::Priced;
use super::planning::plan_of;
use super::search::{Met, sets_of_inputs};
use super::sheet::{put_blind, put_patch};
use super::table::{fill_notes, fill_table, reading_count};
use records::{JobParts, Refusal, Support, load};

#[derive(Clone, Copy)]
pub struct PatchCost {
    pub cost: u32,
}

#[derive(Clone, Copy)]
pub struct BlindReading {
    pub reading: u16,
}

// A patch or a blind reading.
// An enum of its own and structs for its values, as document 01 names them; a Result would call one of the two an error.
#[derive(Clone, Copy)]
pub enum Choice {
    Patch(PatchCost),
    Blind(BlindReading),
}

// How many bytes of the reply buffer the sheet takes, and the choice.
#[derive(Clone, Copy)]
pub struct ChosenSheet {
    pub len: usize,
    pub verdict: Choice,
}

// The choice where the inputs of a reading share no vector, and its sheet.
fn rule_blind(reading: usize, reply: &mut [u8]) -> ChosenSheet
    requires { (reading < 65536) × (2084 ≤ length reply.old) }
    ensures { (j : Job) → sound j (candidate_nets j) ≡ false → reading ≡ blind_reading j
        → ChosenJob j reply.old (choose_told (Ok result)) reply.new }
{
    let len = put_blind(reply, reading);
    ChosenSheet {
        len,
        verdict: Choice::Blind(BlindReading {
            reading: reading as u16,
        }),
    }
}

// The choice where all candidates together are sound: the chosen support with its table and notes, and its sheet.
fn rule_patch(support: Support, cost: u32, sets: &[u32; READINGS], reply: &mut [u8]) -> ChosenSheet
    requires { HeldSupport support × (2084 ≤ length reply.old) }
    ensures { (j : Job) → sound j (candidate_nets j) ≡ true → ChosenOf j support cost sets.now
        → Unseen j (chosen j) sets.now → ChosenJob j reply.old (choose_told (Ok result)) reply.new }
{
    let table = fill_table(sets, support.len);
    let notes = fill_notes(sets, support.len);
    let count = reading_count(support.len);
    let len = put_patch(
        reply,
        &support.nets[..support.len],
        &table[..count],
        cost,
        &notes[..count],
    );
    ChosenSheet {
        len,
        verdict: Choice::Patch(PatchCost { cost }),
    }
}

// The sets of all readings of these nets, over all inputs of a miter.
fn reading_sets(miter: &Miter, reads: Support) -> Met
    requires { NetsRead reads }
    ensures { (j : Job) → MergedOf j miter.now → take reads.len reads.nets ≡ candidate_nets j
        → SetsTo j (2 ^ j.inputs) result.skipped result.sets }
{
    if miter.inputs <= WORD_INPUTS {
        return sets_of_words(miter, reads);
    }
    sets_of_inputs(&plan_of(miter, reads, miter.targets))
}

// The choice on a good job's parts, and its sheet.
fn choose_job(job: &JobParts, reply: &mut [u8]) -> ChosenSheet
    requires { SomeParts job.now × Below 1024 job.now.nets × (2084 ≤ length reply.old) }
    ensures { (j : Job) → PartsOf j job.now → ChosenJob j reply.old (choose_told (Ok result)) reply.new }
{
    let candidates = job.counts.candidates;
    let miter = merged_miter(job);
    let reads = Support {
        nets: job.nets,
        len: candidates,
    };
    let met = reading_sets(&miter, reads);
    if let Some(reading) = first_empty(&met.sets[..reading_count(candidates)]) {
        return rule_blind(reading, reply);
    }
    let priced = Priced {
        nets: &job.nets[..candidates],
        weights: &job.weights[..candidates],
        sets: &met.sets,
        targets: miter.targets,
    };
    let best = priced.best_support();
    let support = best.support;
    let mut sets = best.sets;
    see_skipped(&miter, support, met.skipped, &mut sets);
    rule_patch(support, best.cost, &sets, reply)
}

// The service choose: the cheapest patch of a job, or the blind reading, and its sheet at the start of the reply buffer. Refused are a buffer
// below 2,084 bytes (1) and what is no whole job (2 to 6). It walks all inputs, also those that no vector rectifies. It costs, for each block
// of 1,024 inputs, one gate evaluation a gate of both netlists; and, unless it is tried and shown that each reading that the block gives has
// one vector left, or none, which rectifies its inputs (see sole.rt; trust.rt says when), one for every second vector and each gate that the
// target with the fewest leads to, for every fourth vector and each gate that another leads to, and so on, and some 1,000 steps to note the
// inputs. An evaluation takes 16 words. Gates and outputs are left out, and partial evaluation is tried, as in judge. The choice among the
// sets of k candidates leaves out one net after the other and stops at unsound and at too dear sets: at most 3 ^ k steps, whatever the gates
// are, and as many more where supports cost the same and the gates of their patches are counted. The notes cost nothing where no block was
// spared, and some 10 to 40 us where gates show which readings of the support no input gives (see imply.rt); else, for each block that was
// spared until all readings are seen, one gate evaluation a gate that leads to the support, and some 1,000 steps where the block may give an
// unseen reading, which is about what it would have cost at most. A job of at most six inputs costs as in judge.
pub fn choose(job: &[u8], reply: &mut [u8]) -> Result<ChosenSheet, Refusal>
    ensures reply { choose_told result ≡ choose_reply reply.old job.now }
    ensures lent { reply.new ≡ chosen_bytes reply.old job.now }
{
    if reply.len() < LONGEST_CHOOSE {
        return Err(Refusal::Room);
    }
    let parts = load(job)?;
    Ok(choose_job(&parts, reply))
}
