// Lists that hold a pattern before a call, so that a place that should be untouched shows in its hash if it is not.
ghost use Rattle.std.specs.Prelude.{ℕ, ◌<◌, ◌≤◌, ◌%◌, ◌≡◌, length, get_or};
ghost use Rattle.samples.specs.Sample.{mixed as Sample·mixed, hashed_by, patterned as Sample·patterned};

// What a list holds in each place: a byte, or a number of two bytes.
pub trait Place: Copy {
    ghost number: { Self → ℕ };

    ghost lowest: { ℕ → Self };

    // As a number.
    fn wide(self) -> usize
        ensures { result ≡ number self };

    // The lowest bits of a number.
    fn low(x: usize) -> Self
        ensures { result ≡ lowest x };
}

impl Place for u8 {
    ghost number = { λ x. x };

    ghost lowest = { λ x. x % 256 };

    fn wide(self) -> usize {
        usize::from(self)
    }

    fn low(x: usize) -> u8 {
        (x % 256) as u8
    }
}

impl Place for u16 {
    ghost number = { λ x. x };

    ghost lowest = { λ x. x % 65536 };

    fn wide(self) -> usize {
        usize::from(self)
    }

    fn low(x: usize) -> u16 {
        (x % 65536) as u16
    }
}

// The pattern's number at place i of the list which.
#[tactic(auto, unfolding(crate::specs::Sample::patterned))]
pub fn patterned(which: usize, i: usize) -> usize
    ensures { result ≡ Sample·patterned which i }
{
    i % 65536 * 7 + 13 * (which % 16)
}

// The list which with its pattern.
pub fn new_list<T: Place, const N: usize>(which: usize) -> [T; N]
    ensures { (k : ℕ) → k < N → get_or result k (T.lowest 0) ≡ T.lowest (Sample·patterned which k) }
{
    let mut list = [T::low(0); N];
    // By number, since the pattern is told by the place.
    for i in 0..N {
        list[i] = T::low(patterned(which, i));
    }
    list
}

// A reply buffer, with the pattern of list 11.
pub fn new_buffer() -> [u8; 8200]
    ensures { (k : ℕ) → k < 8200 → get_or result k 0 ≡ Sample·patterned 11 k % 256 }
{
    new_list(11)
}

// The hash h with one more value.
#[tactic(auto, unfolding(crate::specs::Sample::mixed))]
fn mixed(h: usize, x: usize) -> usize
    ensures { result ≡ Sample·mixed h x }
{
    (h % 4294967296 * 16777619 + x % 65536 + 1) % 4294967296
}

// The hash from with the values of a list.
pub fn hash<T: Place>(from: usize, list: &[T]) -> usize
    ensures { result ≡ hashed_by T.number from list.now }
{
    let mut h = from;
    for x in list {
        h = mixed(h, x.wide());
    }
    h
}
