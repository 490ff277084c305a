// Bytes, and the numbers they hold, put into lent places.
ghost use Rattle.std.specs.Prelude.{◌≡◌, ◌+◌, ◌*◌, ◌≤◌, length};
ghost use Rattle.records.specs.Bytes.{placed};
ghost use Rattle.records.specs.Inner.{word_column};

use super::field::u16_at;

// The two-byte numbers that stand from offset on, size bytes apart, count of them.
pub(super) fn fill_words(s: &[u8], size: usize, offset: usize, count: usize, places: &mut [u16])
    requires { (size ≤ 4) × (offset + size * count + 2 ≤ length s.now + size) × (count ≤ length places.old) }
    ensures { places.new ≡ placed places.old 0 (word_column s.now size offset count) }
{
    // A position is counted along, since size * i is a product of two variables, which linear arithmetic does not know.
    let mut at = offset;
    for i in 0..count {
        places[i] = u16_at(s, at);
        at += size;
    }
}
