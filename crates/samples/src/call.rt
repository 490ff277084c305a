// The next call of standard input: one byte, which service, a two-byte length, and that many bytes. These are read from the front on.
ghost use Rattle.std.specs.Prelude.{◌≡◌, ◌<◌, ◌≤◌, ◌↔◌, length, take, drop, IfSome, IsNone, IfOk, IfErr};
ghost use Rattle.io.specs.Counts.{IsPrefixLen};
ghost use Rattle.samples.specs.Sample.{word_at};

// A call: its service, and its bytes that are not read yet.
#[derive(Clone, Copy)]
pub struct Call<'a> {
    pub service: u8,
    pub bytes: &'a [u8],
}

// A call that is not whole. So many of its bytes, behind the first three, stand at the start of the buffer.
#[derive(Clone, Copy, Debug)]
pub struct CutShort {
    pub len: usize,
}

// The next call, whose bytes stand at the start of the buffer. It is not whole where the input ends before it does, cannot be read, or has
// more bytes than the buffer.
pub fn read_call<'a>(
    rt: &(impl Input + Eprint + Alloc),
    buf: &'a mut [u8],
) -> Result<Call<'a>, CutShort>
    ensures ok { IfOk result (λ call. length call.bytes.now ≤ length buf.old) }
    ensures err { IfErr result (λ cut. IsPrefixLen cut.len buf.old) }
{
    let mut head = [0u8; 3];
    let Ok(3) = cli::read_standard(rt, &mut head) else {
        return Err(CutShort { len: 0 });
    };
    let [service, high, low] = head;
    let len = usize::from(u16::from_be_bytes([high, low]));
    let room = len.min(buf.len());
    match cli::read_standard(rt, &mut buf[..room]) {
        Ok(read) if read == len => Ok(Call {
            service,
            bytes: &buf[..len],
        }),
        Ok(len) | Err(cli::Unread { len }) => Err(CutShort { len }),
    }
}

impl<'a> Call<'a> {
    // The two-byte number at the front; none where there are fewer bytes, of which then none is left.
    #[tactic(auto, unfolding(crate::specs::Sample::word_at))]
    pub fn word(&mut self) -> Option<usize>
        ensures some { IfSome result (λ word. word ≡ word_at self.old.bytes.now 0) }
        ensures below { IfSome result (λ word. word < 65536) }
        ensures none { IsNone result ↔ (length self.old.bytes.now < 2) }
        ensures rest { self.new.bytes.now ≡ drop 2 self.old.bytes.now }
    {
        let [high, low] = self.part(2) else {
            return None;
        };
        Some(usize::from(u16::from_be_bytes([*high, *low])))
    }

    // The first n bytes; all where there are fewer.
    pub fn part(&mut self, n: usize) -> &'a [u8]
        ensures part { result.now ≡ take n self.old.bytes.now }
        ensures rest { self.new.bytes.now ≡ drop n self.old.bytes.now }
    {
        let (part, rest) = self.bytes.split_at(n.min(self.bytes.len()));
        self.bytes = rest;
        part
    }
}
