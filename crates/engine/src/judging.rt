// The service judge.
ghost use Rattle.std.specs.Prelude.{IfSome, ◌≡◌, ◌^◌, ◌≤◌, ◌<◌, length, take};
ghost use Rattle.records.specs.Job.{Job};
ghost use Rattle.records.specs.Claims.{Below};
ghost use Rattle.records.specs.Parts.{PartsOf};
ghost use Rattle.engine.specs.Verdict.{judged_bytes};
ghost use Rattle.engine.specs.Reply.{judge_told, judge_reply};
ghost use Rattle.engine.specs.Rectify.{vector_loop};
ghost use Rattle.engine.specs.Inner.List.{listed_of};
ghost use Rattle.engine.specs.Support.{candidate_nets};
ghost use Rattle.engine.specs.Inner.Guess.{ListTo};
ghost use Rattle.engine.specs.Inner.Miter.{SomeParts, MergedOf};
ghost use Rattle.engine.specs.Inner.Plan.{NetsRead};
ghost use Rattle.engine.specs.Inner.Judging.{JudgedJob};

use super::guess::list_of_inputs;
use super::limits::{LONGEST_JUDGE, WORD_INPUTS};
use super::list::Vectors;
use super::merge::merged_miter;
use super::miter::Miter;
use super::narrow::list_of_words;
use super::planning::plan_of;
use super::sheet::{put_unfixable, put_vectors};
use records::{JobParts, Refusal, Support, load};

#[derive(Clone, Copy)]
pub struct UnfixableInput {
    pub input: u32,
}

// Every input is fixable, or the smallest that is not.
// An enum of its own, as document 01 names it; None would not say that all are fixable.
#[derive(Clone, Copy)]
pub enum Judgement {
    Fixable,
    Unfixable(UnfixableInput),
}

// How many bytes of the reply buffer the sheet takes, and the judgement.
#[derive(Clone, Copy)]
pub struct JudgedSheet {
    pub len: usize,
    pub verdict: Judgement,
}

// The judgement that the vector list of all inputs gives, and its sheet: where the list is stuck, that input is unfixable.
fn rule_list(list: Vectors, reply: &mut [u8]) -> JudgedSheet
    requires { IfSome list.stuck (λ x. x < 4294967296) × (26 ≤ length reply.old) }
    ensures { (j : Job) → listed_of list ≡ vector_loop j → JudgedJob j reply.old (judge_told (Ok result)) reply.new }
{
    if let Some(input) = list.stuck {
        let len = put_unfixable(reply, input, &list.list[..list.len]);
        return JudgedSheet {
            len,
            verdict: Judgement::Unfixable(UnfixableInput {
                input: input as u32,
            }),
        };
    }
    let len = put_vectors(reply, 0, &list.list[..list.len]);
    JudgedSheet {
        len,
        verdict: Judgement::Fixable,
    }
}

// The vector list over all inputs of a miter; of the nets read the tables are made (see guess.rt).
fn vector_list(miter: &Miter, reads: Support) -> Vectors
    requires { NetsRead reads }
    ensures { (j : Job) → MergedOf j miter.now → take reads.len reads.nets ≡ candidate_nets j → ListTo j (2 ^ j.inputs) result }
{
    if miter.inputs <= WORD_INPUTS {
        return list_of_words(miter);
    }
    list_of_inputs(&plan_of(miter, reads, miter.targets))
}

// The judgement on a good job's parts, and its sheet.
fn judge_job(job: &JobParts, reply: &mut [u8]) -> JudgedSheet
    requires { SomeParts job.now × Below 1024 job.now.nets × (26 ≤ length reply.old) }
    ensures { (j : Job) → PartsOf j job.now → JudgedJob j reply.old (judge_told (Ok result)) reply.new }
{
    let candidates = Support {
        nets: job.nets,
        len: job.counts.candidates,
    };
    let list = vector_list(&merged_miter(job), candidates);
    rule_list(list, reply)
}

// The service judge: whether every input of a job is fixable, or the smallest that is not, and its sheet at the start of the reply buffer:
// the unfixable input, if any, and the vector list. Refused are a buffer below 26 bytes (1) and what is no whole job (2 to 6). It ends at
// the first block of 1,024 inputs that has an unfixable one. For each block before, it costs one gate evaluation a gate of both netlists
// where the first listed vector does, or a table of listed vectors, one more for each gate that a target leads to and each further vector or
// table that is tried (see guess.rt), and where these do not, that and those of all vectors, as choose. The tables are given up where they
// fail too often. An evaluation takes 16 words. From 13 inputs on gates that do what others do are left out, and outputs that are one net in
// both circuits with what leads to them alone (see merge.rt). Partial evaluation is tried on each 2 ^ 15 inputs: one gate evaluation a gate
// on 0, 1 and not yet known, which may spare all their blocks. It is given up where it settles too little: after eight such ranges where it
// settles none. A job of at most six inputs costs one gate evaluation a gate for each vector, on one word (see narrow.rt).
pub fn judge(job: &[u8], reply: &mut [u8]) -> Result<JudgedSheet, Refusal>
    ensures reply { judge_told result ≡ judge_reply reply.old job.now }
    ensures lent { reply.new ≡ judged_bytes reply.old job.now }
{
    if reply.len() < LONGEST_JUDGE {
        return Err(Refusal::Room);
    }
    let parts = load(job)?;
    Ok(judge_job(&parts, reply))
}
