// A job's bytes, and any field, put into a buffer, from a position on.
ghost use Rattle.std.specs.Prelude.{◌≡◌, List, ◌∷◌, ◌+◌, ◌*◌, ◌<◌, ◌≤◌, cond, length, get_or};
ghost use Rattle.records.specs.Bytes.{byte_pair, placed, head_size, field};
ghost use Rattle.records.specs.Refusal.{longest_job};
ghost use Rattle.records.specs.Service.{side_places, places, field_fits};
ghost use Rattle.records.specs.Inner.{spread, SidePut, SideDone, JobPut, JobDone, GatesPut};
ghost use Rattle.records.specs.declared.gate.Gate.{Gate as GateStruct};

use super::job::{Counts, SideCounts};
use super::limits::{CANDIDATE_SIZE, GATE_SIZE, LONGEST_JOB};

// A job's bytes so far: the first len of them.
// An array and a length, since nothing here uses the heap.
#[derive(Drop)]
pub struct JobBytes {
    pub bytes: [u8; LONGEST_JOB],
    pub len: usize,
}

// A field's tag and length.
fn put_head(buf: &mut [u8], at: usize, tag: u8, len: usize) -> usize
    requires { (at + 3 ≤ length buf.old) × (len < 65536) }
    ensures { (result ≡ at + 3) × (buf.new ≡ placed buf.old at (tag ∷ byte_pair len)) }
{
    buf[at] = tag;
    put_word(buf, at + 1, len as u16);
    at + 3
}

// One field put into a buffer, from position at on: tag, length and bytes. Where there is no room for it, or it is longer
// than a field can say, the buffer is left as it was. The position behind the field, or at.
// It cannot fail, as its clauses promise to all callers, so what it does without room is no Err.
pub fn put_field(buf: &mut [u8], at: usize, tag: u8, bytes: &[u8]) -> usize
    ensures end { result ≡ cond (field_fits buf.old at bytes.now)
        (at + head_size + length bytes.now)
        at }
    ensures lent { buf.new ≡ cond (field_fits buf.old at bytes.now)
        (placed buf.old at (field tag bytes.now))
        buf.old }
{
    let len = bytes.len();
    if buf.len() < at {
        return at;
    }
    let room = buf.len() - at;
    if room < 3 {
        return at;
    }
    if room - 3 < len {
        return at;
    }
    if 65535 < len {
        return at;
    }
    let a = put_head(buf, at, tag, len);
    buf[a..a + len].copy_from_slice(bytes);
    a + len
}

// A two-byte number.
pub(super) fn put_word(buf: &mut [u8], at: usize, x: u16)
    requires { at + 2 ≤ length buf.old }
    ensures { buf.new ≡ placed buf.old at (byte_pair x) }
{
    buf[at..at + 2].copy_from_slice(&x.to_be_bytes());
}

// The bytes with a field's tag and length.
fn headed(bytes: [u8; LONGEST_JOB], at: usize, tag: u8, len: usize) -> [u8; LONGEST_JOB]
    requires { (at + 3 ≤ length bytes) × (len < 65536) }
    ensures { result ≡ placed bytes at (tag ∷ byte_pair len) }
{
    let mut bytes = bytes;
    put_head(&mut bytes, at, tag, len);
    bytes
}

// The bytes with the first count numbers of xs, size bytes apart.
fn put_column(
    bytes: [u8; LONGEST_JOB],
    at: usize,
    size: usize,
    xs: &[u16],
    count: usize,
) -> [u8; LONGEST_JOB]
    requires { (size ≤ 4) × (at + size * count + 2 ≤ length bytes + size) × (count ≤ length xs.now) }
    ensures { result ≡ spread bytes at size count (λ i. get_or xs.now i 0) }
{
    let mut bytes = bytes;
    // A position is counted along, since size * i is a product of two variables, which linear arithmetic does not know.
    let mut p = at;
    for i in 0..count {
        put_word(&mut bytes, p, xs[i]);
        p += size;
    }
    bytes
}

// The head of the field of a netlist's gates, with this tag, whose bytes stand behind it already, and the field of its outputs, with
// the next tag.
fn put_side(job: JobBytes, tag: u8, outputs: &[u16], counts: SideCounts) -> JobBytes
    requires { (length job.bytes ≡ 8188) × SidePut 8188 job.len tag counts (length outputs.now) }
    ensures { (length result.bytes ≡ 8188) × SideDone job.bytes job.len tag counts outputs.now result.len result.bytes }
{
    let bytes = job.bytes;
    let a = job.len;
    let gates = GATE_SIZE * counts.gates;
    let outs = 2 * counts.outputs;
    let b = a + 3 + gates;
    let first = headed(bytes, a, tag, gates);
    let second = headed(first, b, tag + 1, outs);
    let third = put_column(second, b + 3, 2, outputs, counts.outputs);
    JobBytes {
        bytes: third,
        len: b + 3 + outs,
    }
}

// A job's bytes around its gates', which stand in their places already: heads, counts, outputs and candidates.
// The four lists go one by one, as write is lent them.
pub(super) fn put_rest(
    bytes: [u8; LONGEST_JOB],
    counts: Counts,
    old_outputs: &[u16],
    golden_outputs: &[u16],
    nets: &[u16],
    weights: &[u16],
) -> JobBytes
    requires { JobPut (length bytes) counts
        (length old_outputs.now) (length golden_outputs.now) (length nets.now) (length weights.now) }
    ensures { (result.len ≤ longest_job) × (length result.bytes ≡ longest_job) × ((gs hs : List GateStruct) → GatesPut counts gs hs bytes → JobDone counts
        (places
        (side_places gs old_outputs.now)
        (side_places hs golden_outputs.now)
        nets.now weights.now)
        result.len result.bytes) }
{
    let mut first = headed(bytes, 0, 1, 2);
    first[3] = counts.inputs as u8;
    first[4] = counts.targets as u8;
    let sized = JobBytes {
        bytes: first,
        len: 5,
    };
    let old = put_side(sized, 2, old_outputs, counts.old);
    let golden = put_side(old, 4, golden_outputs, counts.golden);
    let sides = golden.bytes;
    let at = golden.len;
    let count = counts.candidates;
    let second = headed(sides, at, 6, CANDIDATE_SIZE * count);
    let third = put_column(second, at + 3, CANDIDATE_SIZE, nets, count);
    let fourth = put_column(third, at + 5, CANDIDATE_SIZE, weights, count);
    JobBytes {
        bytes: fourth,
        len: at + 3 + CANDIDATE_SIZE * count,
    }
}
