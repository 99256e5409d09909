// Opening a file: its front and its length, and nothing else of it.
ghost use Rattle.std.specs.Prelude.{◌≡◌, ◌+◌, ◌*◌, ◌≤◌, length};
ghost use Rattle.encoding.specs.Refusals.{done_or};
ghost use Rattle.encoding.specs.Limits.{words_of};
ghost use Rattle.encoding.specs.Ranks.{by_rank};
ghost use Rattle.pwl.specs.File.{bad_mark, bad_version, length_lines, front_at, whole_len};
ghost use Rattle.pwl.specs.Calls.{opened};
ghost use Rattle.pwl.specs.Workers.{front_fault};

use crate::Front;
use crate::bytes::{eight, two, wide};
use encoding::{Refusal, phase_words, words};

// P, W and L as one number; the version; the bytes of a front.
pub(crate) const MARK: usize = 5003088;

pub(crate) const VERSION: usize = 1;

pub(crate) const FRONT_BYTES: usize = 41;

#[tactic(auto, using(crate::proofs::Opens::mark_cut, crate::proofs::Opens::mark_read, crate::proofs::Numbers::num_three))]
fn bad_mark(s: &[u8]) -> bool
    ensures { result ≡ bad_mark s.now }
{
    s.len() < 3 || wide(s[0]) + 256 * two(s, 1) != MARK
}

#[tactic(auto, using(crate::proofs::Opens::version_cut, crate::proofs::Opens::version_read))]
fn bad_version(s: &[u8]) -> bool
    ensures { result ≡ bad_version s.now }
{
    s.len() < 5 || two(s, 3) != VERSION
}

// What the front alone refuses.
#[tactic(auto, using(crate::proofs::Opens::is_17, crate::proofs::Opens::is_18, crate::proofs::Opens::is_19, crate::proofs::Opens::is_0))]
fn front_fault(s: &[u8]) -> Result<(), Refusal>
    ensures { result ≡ done_or (front_fault s.now) }
{
    if bad_mark(s) {
        return Err(Refusal::NO_LOG_FILE);
    }
    if bad_version(s) {
        return Err(Refusal::OTHER_VERSION);
    }
    if s.len() < FRONT_BYTES {
        return Err(Refusal::SHORT_FILE);
    }
    Ok(())
}

// The numbers in front.
#[tactic(auto, using(crate::proofs::Image::front_is), unfolding(crate::specs::File::front_at))]
fn front_of(s: &[u8]) -> Front
    requires { 41 ≤ length s.now }
    ensures { (result ≡ front_at s.now) × (result.n ≤ 65535) × (result.m ≤ 65535) }
{
    let n = two(s, 5);
    let m = two(s, 7);
    let order = eight(s, 9);
    let listed = eight(s, 17);
    let extra = eight(s, 25);
    let entries = eight(s, 33);
    Front {
        n,
        m,
        order,
        listed,
        extra,
        entries,
    }
}

// Whether a file of len bytes is shorter or longer than its parts: what is left is counted down, so that nothing wraps.
#[tactic(auto, using(crate::proofs::Opens::short, crate::proofs::Opens::long, crate::proofs::Opens::right))]
fn len_fault(len: usize, a: usize, b: usize, c: usize, k: usize, rows: usize) -> Result<(), Refusal>
    ensures { result ≡ done_or (by_rank (length_lines len (41 + 2 * a + 2 * b + 2 * c + 4 * k + rows))) }
{
    if len < FRONT_BYTES {
        return Err(Refusal::SHORT_FILE);
    }
    let left = len - FRONT_BYTES;
    if left / 2 < a {
        return Err(Refusal::SHORT_FILE);
    }
    let left = left - 2 * a;
    if left / 2 < b {
        return Err(Refusal::SHORT_FILE);
    }
    let left = left - 2 * b;
    if left / 2 < c {
        return Err(Refusal::SHORT_FILE);
    }
    let left = left - 2 * c;
    if left / 4 < k {
        return Err(Refusal::SHORT_FILE);
    }
    let left = left - 4 * k;
    if left < rows {
        return Err(Refusal::SHORT_FILE);
    }
    if rows < left {
        Err(Refusal::BYTES_LEFT)
    } else {
        Ok(())
    }
}

// m rows of w words.
fn product(m: usize, w: usize) -> usize
    requires { (m ≤ 65535) × (w ≤ 1024) }
    ensures { (result ≡ m * w) × (result ≤ 67107840) }
{
    m * w
}

// The words of X or of Z of a set.
pub(crate) fn part_words(n: usize, m: usize) -> usize
    requires { (n ≤ 65535) × (m ≤ 65535) }
    ensures { (result ≡ m * words_of n) × (result ≤ 67107840) }
{
    product(m, words(n))
}

// Whether a file's length is what its front says.
#[tactic(auto, using(crate::proofs::Opens::sized))]
pub(crate) fn size_fault(len: usize, f: Front) -> Result<(), Refusal>
    requires { (f.n ≤ 65535) × (f.m ≤ 65535) }
    ensures { result ≡ done_or (by_rank (length_lines len (whole_len f))) }
{
    let q = part_words(f.n, f.m);
    let v = phase_words(f.m);
    len_fault(len, f.order, f.listed, f.extra, f.entries, 32 * q + 16 * v)
}

// The front of a file: takes any bytes.
#[tactic(auto, using(crate::proofs::Opens::front_refused, crate::proofs::Opens::front_there, crate::proofs::Opens::size_refused, crate::proofs::Opens::opens_whole))]
pub fn open(s: &[u8]) -> Result<Front, Refusal>
    ensures { result ≡ opened s.now }
{
    front_fault(s)?;
    let f = front_of(s);
    size_fault(s.len(), f)?;
    Ok(f)
}
