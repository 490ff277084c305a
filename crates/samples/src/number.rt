// A number of two bytes, anywhere in a list of bytes.
ghost use Rattle.std.specs.Prelude.{◌<◌, ◌≡◌};
ghost use Rattle.samples.specs.Sample.{word_at};

// The two-byte number at a position; 0 where there is none.
#[tactic(auto, unfolding(crate::specs::Sample::word_at))]
pub fn word_at(s: &[u8], at: usize) -> usize
    ensures value { result ≡ word_at s.now at }
    ensures upper_bound { result < 65536 }
{
    let [high, low, ..] = &s[at.min(s.len())..] else {
        return 0;
    };
    usize::from(u16::from_be_bytes([*high, *low]))
}
