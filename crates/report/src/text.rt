// What the program prints, written to a lent buffer.
ghost use Rattle.std.specs.Prelude.{◌≡◌, ℕ, [], ◌∷◌, ◌++◌, ◌+◌, ◌-◌, ◌<◌, ◌≤◌, length, map};
ghost use Rattle.arrayvec.specs.ArrayVec.{array_vec_len};
ghost use Rattle.records.specs.Bytes.{nth, word as word'};
ghost use Rattle.records.specs.Job.{nets_of};
ghost use Rattle.records.specs.Service.{number_of};
ghost use Rattle.records.specs.Sheet.{quad};
ghost use Rattle.report.specs.Text.{digits, number, line, unfixable_word, blind_word, patch_text, value_text, refused_text, rectify_text, longest_text, printed_length, printed_bytes};
ghost use Rattle.report.specs.Inner.{PatchSheet, BlindSheet, UnfixableSheet, ChoiceSheet, patch_sheet_text, choice_text, pair};

use arrayvec::ArrayVec;
use engine::{Judgement, LONGEST_CHOOSE, LONGEST_JUDGE, choose, judge};
use records::Refusal;

// The buffer that rectify_text asks for (specs/Text.antt).
pub const LONGEST_TEXT: usize = 8366;

// What is written so far.
type Text = ArrayVec<u8, LONGEST_TEXT>;

// What a line has behind its word: numbers, the numbers of bytes, and nets, two bytes each.
trait Shown: Copy {
    ghost shown: { Self → ℕ };

    fn wide(self) -> usize
        ensures { result ≡ shown self };
}

impl Shown for usize {
    ghost shown = { λ x. x };

    fn wide(self) -> usize {
        self
    }
}

impl Shown for u8 {
    ghost shown = { λ x. x };

    fn wide(self) -> usize {
        usize::from(self)
    }
}

impl Shown for [u8; 2] {
    ghost shown = { pair };

    fn wide(self) -> usize {
        usize::from(u16::from_be_bytes(self))
    }
}

// The digits of x. It stays out of the loops that call put_number, which seldom need it.
#[inline(never)]
fn put_digits(text: &mut Text, x: usize)
    requires { array_vec_len text.old + length (digits x) ≤ longest_text }
    ensures { text.new.items ≡ text.old.items ++ digits x }
{
    let mut buffer = itoa::Buffer::new();
    let digits = buffer.format(x).as_bytes();
    text.try_extend_from_slice(digits).unwrap();
}

// A space and the digits of x. Most numbers of a table and of notes have one digit, which is put without the library's buffer.
#[inline(always)]
fn put_number(text: &mut Text, x: usize)
    requires { array_vec_len text.old + length (number x) ≤ longest_text }
    ensures { text.new.items ≡ text.old.items ++ number x }
{
    text.push(b' ');
    if x < 10 {
        text.push(b'0' + x as u8);
    } else {
        put_digits(text, x);
    }
}

// A line: a word and numbers.
fn put_line<T: Shown>(text: &mut Text, word: &[u8], values: &[T])
    requires { array_vec_len text.old + length (line word.now (map T.shown values.now)) ≤ longest_text }
    ensures { text.new.items ≡ text.old.items ++ line word.now (map T.shown values.now) }
{
    text.try_extend_from_slice(word).unwrap();
    for x in values {
        put_number(text, x.wide());
    }
    text.push(b'\n');
}

// The text of a refusal.
fn put_refusal(text: &mut Text, refusal: Refusal)
    requires { text.old.items ≡ [] }
    ensures { text.new.items ≡ refused_text (number_of refusal) }
{
    put_line(text, b"refused", &[u8::from(refusal)]);
}

// The two-byte number at a position.
// (The record library keeps its own readers of numbers to itself.)
fn word_at(s: &[u8], at: usize) -> usize
    requires { at + 1 < length s.now }
    ensures { result ≡ word' s.now at }
{
    usize::from(u16::from_be_bytes([s[at], s[at + 1]]))
}

// The four-byte number at the front of s.
fn quad_at(s: &[u8]) -> usize
    requires { 4 ≤ length s.now }
    ensures { result ≡ quad s.now }
{
    u32::from_be_bytes([s[0], s[1], s[2], s[3]]) as usize
}

// Where the field whose bytes start at this position ends.
fn field_end(s: &[u8], start: usize) -> usize
    requires { (2 ≤ start) × (start + word' s.now (start - 2) ≤ length s.now) }
    ensures { result ≡ start + word' s.now (start - 2) }
{
    start + word_at(s, start - 2)
}

// The lines of a patch.
fn put_patch_lines(
    text: &mut Text,
    cost: usize,
    support: &[u8],
    table: &[u8],
    vectors: &[u8],
    notes: &[u8],
)
    requires empty { text.old.items ≡ [] }
    requires room { length (patch_text cost (nets_of support.now) table.now vectors.now notes.now) ≤ longest_text }
    ensures { text.new.items ≡ patch_text cost (nets_of support.now) table.now vectors.now notes.now }
{
    let (nets, _) = support.as_chunks::<2>();
    put_line(text, b"patch cost", &[cost]);
    put_line(text, b"support", nets);
    put_line(text, b"table", table);
    put_line(text, b"vectors", vectors);
    put_line(text, b"notes", notes);
}

// The text of a patch's sheet, with the vector list.
fn put_patch(text: &mut Text, sheet: &[u8], vectors: &[u8])
    requires { (PatchSheet sheet.now) × (length vectors.now ≤ 16) × (text.old.items ≡ []) }
    ensures { text.new.items ≡ patch_sheet_text sheet.now vectors.now }
{
    let table = field_end(sheet, 3) + 3;
    let cost = field_end(sheet, table) + 3;
    let notes = cost + 7;
    let paid = quad_at(&sheet[cost..notes - 3]);
    put_patch_lines(
        text,
        paid,
        &sheet[3..table - 3],
        &sheet[table..cost - 3],
        vectors,
        &sheet[notes..],
    );
}

// The lines of an unfixable input or a blind reading x.
fn put_value_lines(text: &mut Text, word: &[u8], x: usize, vectors: &[u8])
    requires empty { text.old.items ≡ [] }
    requires room { length (value_text word.now x vectors.now) ≤ longest_text }
    ensures { text.new.items ≡ value_text word.now x vectors.now }
{
    put_line(text, word, &[x]);
    put_line(text, b"vectors", vectors);
}

// The text of an unfixable input's sheet.
fn put_unfixable(text: &mut Text, sheet: &[u8])
    requires { (UnfixableSheet sheet.now) × (text.old.items ≡ []) }
    ensures { text.new.items ≡ value_text unfixable_word (quad (nth 0 sheet.now)) (nth 1 sheet.now) }
{
    put_value_lines(text, b"unfixable", quad_at(&sheet[3..7]), &sheet[10..]);
}

// The text of a blind reading's sheet, with the vector list.
fn put_blind(text: &mut Text, sheet: &[u8], vectors: &[u8])
    requires { (BlindSheet sheet.now) × (length vectors.now ≤ 16) × (text.old.items ≡ []) }
    ensures { text.new.items ≡ value_text blind_word (word' (nth 0 sheet.now) 0) vectors.now }
{
    put_value_lines(text, b"blind", word_at(&sheet[3..5], 0), vectors);
}

// The text of choose's sheet, with the vector list.
fn put_choice(text: &mut Text, sheet: &[u8], vectors: &[u8])
    requires { (ChoiceSheet sheet.now) × (length vectors.now ≤ 16) × (text.old.items ≡ []) }
    ensures { text.new.items ≡ choice_text sheet.now vectors.now }
{
    if sheet[0] == 16 {
        put_patch(text, sheet, vectors);
        return;
    }
    put_blind(text, sheet, vectors);
}

// The text for a job's bytes: judge's verdict where it is unfixable, else choose's with judge's vector list.
fn put_verdict(text: &mut Text, job: &[u8])
    requires { text.old.items ≡ [] }
    ensures { text.new.items ≡ rectify_text job.now }
{
    if 65535 < job.len() {
        return put_refusal(text, Refusal::Fields);
    }
    let mut first = [0u8; LONGEST_JUDGE];
    let judged = match judge(job, &mut first) {
        Ok(judged) => judged,
        Err(refusal) => return put_refusal(text, refusal),
    };
    let m = judged.len;
    if let Judgement::Unfixable(_) = judged.verdict {
        return put_unfixable(text, &first[..m]);
    }
    let mut second = [0u8; LONGEST_CHOOSE];
    // Choose accepts what judge accepts.
    let chosen = choose(job, &mut second).unwrap();
    put_choice(text, &second[..chosen.len], &first[3..m]);
}

// What the program `rectify` prints for a job's bytes: judge's verdict where it is unfixable, else choose's with judge's vector list. Where
// text has fewer than 8,366 bytes nothing is printed and the length is 0; else the length of the text, which stands at the start. Costs
// what judge and choose cost.
// A length and no Result, as its clauses promise it to all callers.
pub fn rectify_text(job: &[u8], text: &mut [u8]) -> usize
    ensures value { result ≡ printed_length text.old job.now }
    ensures text_after { text.new ≡ printed_bytes text.old job.now }
    ensures upper_bound { result ≤ length text.old }
{
    if text.len() < LONGEST_TEXT {
        return 0;
    }
    let mut printed = Text::new();
    put_verdict(&mut printed, job);
    let len = printed.len();
    text[..len].copy_from_slice(printed.as_slice());
    len
}
