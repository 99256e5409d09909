// Numbers out of bytes, the lowest byte first.
ghost use Rattle.std.specs.Prelude.{◌≡◌, ◌++◌, List, ℕ, ◌+◌, ◌*◌, ◌≤◌, ◌<◌, length, drop};
ghost use Rattle.pwl.specs.Bytes.{num, items};

pub(crate) fn wide(b: u8) -> usize
    ensures { (result ≡ b) × (result < 256) }
{
    b as usize
}

#[tactic(auto, using(crate::proofs::Numbers::num_two))]
pub(crate) fn two(s: &[u8], at: usize) -> usize
    requires { at + 2 ≤ length s.now }
    ensures { (result ≡ num 2 (drop at s.now)) × (result < 65536) }
{
    wide(s[at]) + 256 * wide(s[at + 1])
}

#[tactic(auto, using(crate::proofs::Numbers::num_four))]
fn four(s: &[u8], at: usize) -> usize
    requires { at + 4 ≤ length s.now }
    ensures { (result ≡ num 4 (drop at s.now)) × (result < 4294967296) }
{
    two(s, at) + 65536 * two(s, at + 2)
}

#[tactic(auto, using(crate::proofs::Numbers::num_eight))]
pub(crate) fn eight(s: &[u8], at: usize) -> usize
    requires { at + 8 ≤ length s.now }
    ensures { result ≡ num 8 (drop at s.now) }
{
    four(s, at) + 4294967296 * four(s, at + 4)
}

pub(crate) fn word(s: &[u8], at: usize) -> u64
    requires { at + 8 ≤ length s.now }
    ensures { result ≡ num 8 (drop at s.now) }
{
    eight(s, at) as u64
}

// What a file has lists of: numbers of rows and columns, two bytes each, and words of eight.
pub(crate) trait Laid: Copy {
    ghost BYTES: { ℕ };

    ghost value: { Self → ℕ };

    ghost read: { List ℕ → Self };

    const BYTES: usize;

    fn wide(self) -> u64
        ensures { result ≡ value self };

    fn get(s: &[u8], at: usize) -> Self
        requires { at + BYTES ≤ length s.now }
        ensures { result ≡ read (drop at s.now) };
}

impl Laid for u16 {
    ghost BYTES = { 2 };

    ghost value = { λ v. v };

    ghost read = { num 2 };

    const BYTES: usize = 2;

    fn wide(self) -> u64 {
        u64::from(self)
    }

    fn get(s: &[u8], at: usize) -> u16 {
        two(s, at) as u16
    }
}

impl Laid for u64 {
    ghost BYTES = { 8 };

    ghost value = { λ v. v };

    ghost read = { num 8 };

    const BYTES: usize = 8;

    fn wide(self) -> u64 {
        self
    }

    fn get(s: &[u8], at: usize) -> u64 {
        word(s, at)
    }
}

// The first count items of the bytes from a place on, into out; what stands behind them in out is kept.
pub(crate) fn get_list<T: Laid>(s: &[u8], from: usize, count: usize, out: &mut [T])
    requires { (from + T.BYTES * count ≤ length s.now) × (count ≤ length out.old) }
    ensures { out.new ≡ items T.BYTES T.read count (drop from s.now) ++ drop count out.old }
{
    let mut at = from;
    for i in 0..count {
        out[i] = T::get(s, at);
        at += T::BYTES;
    }
}
