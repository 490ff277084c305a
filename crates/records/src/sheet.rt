// Patch sheets, read against a job's candidates.
ghost use Rattle.std.specs.Prelude.{◌≡◌, ◌+◌, ◌*◌, ◌-◌, ◌^◌, ◌≤◌, ◌<◌, length, take, drop, ltb};
ghost use Rattle.records.specs.Bytes.{all};
ghost use Rattle.records.specs.Sheet.{quad};
ghost use Rattle.records.specs.Service.{candidates_from, sheet_told, sheet_reply};
ghost use Rattle.records.specs.Inner.{check_of, start_of, starts_in, lens_in, spanned_from, sheet_shape_of, notes_at, sheet_room, found_in, word_column, support_of, ten_places};

use super::field::{Check, Span, field_at, u16_at, walked, wide, word_at};
use super::limits::{CANDIDATES, TARGETS};
use super::refusal::Refusal;

// Candidate nets: the first len of ten places.
// An array and a length, since document 01 names this form.
#[derive(Clone, Copy)]
pub struct Support {
    pub nets: [u16; CANDIDATES],
    pub len: usize,
}

// What an accepted sheet says: its support, where its table starts, and its cost.
#[derive(Clone, Copy)]
pub struct PatchSheet {
    pub support: Support,
    pub table: usize,
    pub cost: u32,
}

// How many support nets a whole sheet has, and where its table and cost start.
#[derive(Drop)]
pub struct SheetSpans {
    pub nets: usize,
    pub table: usize,
    pub cost: usize,
}

// Whether the counts of targets and candidates are within their ranges and the candidates within their places.
fn check_sheet_room(targets: usize, candidates: usize, nets: usize, weights: usize) -> Check
    ensures { result ≡ check_of (sheet_room targets candidates nets weights) }
{
    if (targets <= TARGETS)
        & (candidates <= CANDIDATES)
        & (candidates <= nets)
        & (candidates <= weights)
    {
        return Check::Passed;
    }
    Check::Failed
}

// Two to the power k.
fn power(k: usize) -> usize
    requires { k < 16 }
    ensures { result ≡ 2 ^ k }
{
    1 << k
}

// Where nets, table and cost stand of the sheet whose fields have these spans; none where their lengths do not fit each other.
fn spanned(spans: [Span; 6]) -> Option<SheetSpans>
    ensures { result ≡ spanned_from (starts_in spans) (lens_in spans) }
{
    let long = spans[0].len;
    if 31 < long {
        return None;
    }
    if (long % 2 == 0) & (spans[1].len == power(long / 2)) & (spans[2].len == 4) {
        return Some(SheetSpans {
            nets: long / 2,
            table: spans[1].start,
            cost: spans[2].start,
        });
    }
    None
}

// Where the field behind the first count ones starts, by their lengths; the end where they are not all there.
// No Option, since a sheet whose fields are not all there is refused by its shape up to the end.
fn fields_end(s: &[u8], count: usize) -> usize
    ensures { (result ≤ length s.now) × (start_of count s.now ≤ length s.now + 3 → result + 3 ≡ start_of count s.now) }
{
    let mut at = 0usize;
    for _ in 0..count {
        if s.len() - at < 3 {
            return s.len();
        }
        let len = word_at(s, at + 1);
        if s.len() - at - 3 < len {
            return s.len();
        }
        at = at + 3 + len;
    }
    at
}

// Where nets, table and cost stand of a sheet without notes; none where its three fields are not all there, or do not fit each other.
fn sheet_shaped(sheet: &[u8]) -> Option<SheetSpans>
    ensures { result ≡ sheet_shape_of sheet.now }
{
    let spans = walked(sheet, 16, 3)?;
    spanned(spans)
}

// Where net stands among the first count of nets.
fn find(nets: &[u16], count: usize, net: usize) -> Option<usize>
    requires { count ≤ length nets.now }
    ensures { result ≡ found_in (take count nets.now) net }
{
    nets[..count].iter().position(|n| usize::from(*n) == net)
}

// The cost of the support, of which a sheet has long nets, from position 3 on; none where it does not ascend or has a net that is no
// candidate.
fn support_cost(s: &[u8], long: usize, count: usize, nets: &[u16], weights: &[u16]) -> Option<u32>
    requires { (2 * long + 3 ≤ length s.now) × (long ≤ 15) × (count ≤ length nets.now) × (count ≤ length weights.now) }
    ensures { result ≡ support_of (candidates_from count nets.now weights.now) (word_column s.now 2 3 long) }
{
    let mut least = 0usize;
    let mut sum = 0u32;
    // By index: numbers are read at positions, and two tests may end the walk.
    for i in 0..long {
        let net = word_at(s, 2 * i + 3);
        if net < least {
            return None;
        }
        let place = find(nets, count, net)?;
        sum += u32::from(weights[place]);
        least = net + 1;
    }
    Some(sum)
}

// Whether each byte between two positions is below limit.
fn check_entries(s: &[u8], from: usize, end: usize, limit: usize) -> Check
    requires { (from ≤ end) × (end ≤ length s.now) }
    ensures { result ≡ check_of (all (λ v. ltb v limit) (take (end - from) (drop from s.now))) }
{
    if s[from..end].iter().all(|v| wide(*v) < limit) {
        Check::Passed
    } else {
        Check::Failed
    }
}

// Whether nothing stands from a position on, or the field of the notes alone: a byte for each of count readings, none above 2.
fn check_notes(s: &[u8], at: usize, count: usize) -> Check
    requires { at ≤ length s.now }
    ensures { result ≡ check_of (notes_at count (drop at s.now)) }
{
    if at == s.len() {
        return Check::Passed;
    }
    let Some(span) = field_at(s, at, 22) else {
        return Check::Failed;
    };
    if (span.len != count) | (span.start + span.len != s.len()) {
        return Check::Failed;
    }
    check_entries(s, span.start, s.len(), 3)
}

// The four-byte number at a position.
fn quad_at(s: &[u8], at: usize) -> u32
    requires { at + 4 ≤ length s.now }
    ensures { result ≡ quad (drop at s.now) }
{
    u32::from_be_bytes([s[at], s[at + 1], s[at + 2], s[at + 3]])
}

// The support of a sheet that has len nets, from position 3 on.
fn support_from(s: &[u8], len: usize) -> Support
    requires { (2 * len + 3 ≤ length s.now) × (len ≤ 10) }
    ensures { result ≡ ten_places (word_column s.now 2 3 len) }
{
    let mut nets = [0u16; CANDIDATES];
    // By index: one i says the place and the position.
    for i in 0..len {
        nets[i] = u16_at(s, 2 * i + 3);
    }
    Support { nets, len }
}

// The service that reads a patch sheet against the first candidates of nets and weights of a job with so many targets.
// The sheet may have notes, which have no effect. Refused are counts outside their ranges or above their places (3), what is no whole
// sheet, with notes or without (7), and a support, an entry or a cost that does not fit the job (8). Time linear in the sheet's bytes
// and, for each support net, the candidates.
pub fn read_sheet(
    targets: usize,
    candidates: usize,
    nets: &[u16],
    weights: &[u16],
    sheet: &[u8],
) -> Result<PatchSheet, Refusal>
    ensures { sheet_told result ≡ sheet_reply targets candidates nets.now weights.now sheet.now }
{
    let Check::Passed = check_sheet_room(targets, candidates, nets.len(), weights.len()) else {
        return Err(Refusal::Counts);
    };
    let end = fields_end(sheet, 3);
    let Some(at) = sheet_shaped(&sheet[..end]) else {
        return Err(Refusal::Sheet);
    };
    let Check::Passed = check_notes(sheet, end, at.cost - 3 - at.table) else {
        return Err(Refusal::Sheet);
    };
    let Some(cost) = support_cost(sheet, at.nets, candidates, nets, weights) else {
        return Err(Refusal::Patch);
    };
    let limit = power(targets);
    let Check::Passed = check_entries(sheet, at.table, at.cost - 3, limit) else {
        return Err(Refusal::Patch);
    };
    if cost != quad_at(sheet, at.cost) {
        return Err(Refusal::Patch);
    }
    Ok(PatchSheet {
        support: support_from(sheet, at.nets),
        table: at.table,
        cost,
    })
}
