// Fields: a one-byte tag, a two-byte length, and that many bytes; and the reader that walks them.
ghost use Rattle.std.specs.Prelude.{◌≡◌, ◌+◌, ◌≤◌, ◌<◌, length};
ghost use Rattle.records.specs.Bytes.{word};
ghost use Rattle.records.specs.Inner.{field_at, Walked};

// Where the bytes of a field start, and how many they are.
#[derive(Clone, Copy)]
pub struct Span {
    pub start: usize,
    pub len: usize,
}

// A check's answer.
// An enum, since document 01 names this form: a check's answer is taken apart by let .. else.
#[derive(Clone, Copy)]
pub enum Check {
    Passed,
    Failed,
}

// Reads the bytes field by field: the position is where the next field starts.
#[derive(Clone, Copy)]
pub struct FieldReader<'a> {
    pub bytes: &'a [u8],
    pub at: usize,
}

// A byte as a number.
// Kept for its name, since it is public; usize::from says the same.
pub fn wide(x: u8) -> usize
    ensures { result ≡ x }
{
    usize::from(x)
}

// The two-byte number at a position.
pub(super) fn u16_at(s: &[u8], at: usize) -> u16
    requires { at + 1 < length s.now }
    ensures { result ≡ word s.now at }
{
    u16::from_be_bytes([s[at], s[at + 1]])
}

// .. as a position or a count
pub(super) fn word_at(s: &[u8], at: usize) -> usize
    requires { at + 1 < length s.now }
    ensures { result ≡ word s.now at }
{
    usize::from(u16_at(s, at))
}

// The field with this tag that stands whole at a position, if one does.
pub(super) fn field_at(s: &[u8], at: usize, tag: u8) -> Option<Span>
    ensures { result ≡ field_at s.now at tag }
{
    if s.len() < at {
        return None;
    }
    if s.len() - at < 3 {
        return None;
    }
    if s[at] != tag {
        return None;
    }
    let len = word_at(s, at + 1);
    let start = at + 3;
    if s.len() - start < len {
        return None;
    }
    Some(Span { start, len })
}

impl<'a> FieldReader<'a> {
    // The field with this tag at the reader's position.
    fn field(self, tag: u8) -> Option<Span>
        ensures { result ≡ field_at self.entry.bytes.now self.entry.at tag }
    {
        field_at(self.bytes, self.at, tag)
    }

    // The reader at another position.
    fn moved(self, at: usize) -> FieldReader<'a>
        ensures { (result.bytes ≡ self.entry.bytes) × (result.at ≡ at) }
    {
        FieldReader {
            bytes: self.bytes,
            at,
        }
    }
}

// Where the count fields stand that make up all the bytes, with the tags first, first + 1, ..; none where they are not all there, or do not
// end where the bytes do. One step a field.
pub(super) fn walked(s: &[u8], first: u8, count: usize) -> Option<[Span; 6]>
    requires { (first + count < 256) × (count ≤ 6) }
    ensures { Walked s.now first count result }
{
    let mut spans = [Span { start: 0, len: 0 }; 6];
    let mut reader = FieldReader { bytes: s, at: 0 };
    // By number, since i gives the tag.
    for i in 0..count {
        let span = reader.field(first + i as u8)?;
        spans[i] = span;
        reader = reader.moved(span.start + span.len);
    }
    if reader.at == s.len() {
        Some(spans)
    } else {
        None
    }
}
