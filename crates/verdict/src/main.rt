// The verdict on a log file (docs/PWL.md): one file from standard input, one line to standard output.

#![tactic(auto)]

ghost use Rattle.std.specs.Prelude.{◌≡◌, ◌+◌, ◌*◌, ◌^◌, ◌≤◌, ◌<◌, ◌++◌, length, Ok};
ghost use Rattle.text.specs.Numbers.{numeral};
ghost use Rattle.encoding.specs.Ranks.{by_rank};
ghost use Rattle.pwl.specs.Calls.{run_lines, outputs};
ghost use Rattle.verdict.specs.Verdict.{answer_on, text_of};
ghost use Rattle.verdict.specs.Workers.{Room, Ended, run_in, made, TakenFrom, TakenIn, ReadIn, Judges, Says, Answers};

use encoding::Refusal;
use pwl::Front;
use replay::Verdict;
use std::io::Read;
use terms::Lists;

// The longest input that gets a verdict.
const MOST: usize = 16384;

// Room for a line.
const LINE: usize = 64;

// What such a file can hold: units, words of X or of Z, phase words of 4,096 rows, words of a whole set.
const UNITS: usize = 8171;

const WORDS: usize = 510;

const PHASES: usize = 128;

const CLAIMED: usize = 1021;

// The places of a run's lists in the units and of its words: where each ends.
#[derive(Clone, Copy)]
struct Ends {
    order: usize,
    listed: usize,
    extra: usize,
    log: usize,
    words: usize,
    phases: usize,
}

// The checker on the parts that a file was read into.
fn check_parts(
    n: usize,
    m: usize,
    e: Ends,
    units: &[u16],
    x: &mut [u64],
    z: &mut [u64],
    p: &mut [u64],
    claimed: &[u64],
) -> Result<Verdict, Refusal>
    requires order_le_listed { (e.order ≤ e.listed) × (e.listed ≤ e.extra) × (e.extra ≤ e.log) × (e.log ≤ length units.now) }
    requires words_in_bounds { (e.words ≤ length x.old) × (e.words ≤ length z.old) × (e.phases ≤ length p.old) }
    requires phases_in_bounds { e.words + e.words + e.phases ≤ length claimed.now }
    ensures { result ≡ answer_on (by_rank (run_lines (run_in n m e (outputs units.now x.old z.old p.old claimed.now))))
        (run_in n m e (outputs units.now x.old z.old p.old claimed.now)) }
{
    let q = e.words;
    let v = e.phases;
    let a = e.order;
    let b = e.listed;
    let c = e.extra;
    let t = e.log;
    let k = q + q;
    let lists = Lists {
        order: &units[0..a],
        listed: &units[a..b],
        extra: &units[b..c],
    };
    replay::check(
        n,
        m,
        &mut x[0..q],
        &mut z[0..q],
        &mut p[0..v],
        &lists,
        &units[c..t],
        &claimed[0..q],
        &claimed[q..k],
        &claimed[k..k + v],
    )
}

// m rows of w words.
fn product(m: usize, w: usize) -> usize
    requires { m * w < 2 ^ 64 }
    ensures { result ≡ m * w }
{
    m * w
}

fn ends_of(f: Front) -> Ends
    requires { Room f 8171 510 510 128 1021 }
    ensures { Ended f result }
{
    let words = product(f.m, encoding::words(f.n));
    let phases = encoding::phase_words(f.m);
    let order = f.order;
    let listed = order + f.listed;
    let extra = listed + f.extra;
    let log = extra + 2 * f.entries;
    Ends {
        order,
        listed,
        extra,
        log,
        words,
        phases,
    }
}

// An input into the outputs, if it is not too large: the front of the file that was read, or its refusal.
fn take(
    s: &[u8],
    units: &mut [u16],
    x: &mut [u64],
    z: &mut [u64],
    p: &mut [u64],
    claimed: &mut [u64],
) -> Option<Result<Front, Refusal>>
    ensures { TakenFrom s.now (outputs units.old x.old z.old p.old claimed.old) (outputs units.new x.new z.new p.new claimed.new) result }
{
    if MOST < s.len() {
        return None;
    }
    Some(pwl::read(s, units, x, z, p, claimed))
}

// One read of standard input into a part; how many bytes it gave, 0 at its end.
fn read_some(rt: &HostRuntime, part: &mut [u8]) -> usize
    ensures { result ≤ length part.old }
{
    match rt.stdin().read(part) {
        Ok(n) => n,
        Err(_) => 0,
    }
}

// The same behind what was read before.
fn read_more(rt: &HostRuntime, buf: &mut [u8], done: usize) -> usize
    requires { done ≤ length buf.old }
    ensures { done + result ≤ length buf.old }
{
    read_some(rt, &mut buf[done..])
}

// Standard input, as it comes, to its end or until the buffer is full. `read_to_end` would put it on the heap.
fn read_input(rt: &HostRuntime, buf: &mut [u8]) -> usize
    ensures { result ≤ length buf.old }
{
    let end = buf.len();
    let mut done = 0;
    while done < end {
        let k = read_more(rt, buf, done);
        if k == 0 {
            return done;
        }
        done += k;
    }
    done
}

// Standard input into the outputs. Its bytes are not kept.
fn take_in(
    rt: &HostRuntime,
    units: &mut [u16; UNITS],
    x: &mut [u64; WORDS],
    z: &mut [u64; WORDS],
    p: &mut [u64; PHASES],
    claimed: &mut [u64; CLAIMED],
) -> Option<Result<Front, Refusal>>
    ensures { TakenIn (outputs units.old x.old z.old p.old claimed.old) (outputs units.new x.new z.new p.new claimed.new) result }
{
    let mut buf = [0u8; MOST + 1];
    let got = read_input(rt, &mut buf);
    take(&buf[0..got], units, x, z, p, claimed)
}

// The refusal of a file, or else the verdict on the run that was read from it.
fn judge(
    file: Result<Front, Refusal>,
    units: &[u16; UNITS],
    x: &mut [u64; WORDS],
    z: &mut [u64; WORDS],
    p: &mut [u64; PHASES],
    claimed: &[u64; CLAIMED],
) -> Result<Verdict, Refusal>
    requires { ReadIn made (outputs units.now x.old z.old p.old claimed.now) file }
    ensures { Judges file (outputs units.now x.old z.old p.old claimed.now) result }
{
    let f = file?;
    let e = ends_of(f);
    check_parts(f.n, f.m, e, units, x, z, p, claimed)
}

// A text, from the start of a buffer that has room for it; its length.
fn put_plain(out: &mut [u8], s: &[u8]) -> usize
    requires { length s.now ≤ length out.old }
    ensures { Says s.now out.new result }
{
    text::put_text(out, 0, s).unwrap()
}

// A text with a number in it.
fn put_numbered(out: &mut [u8], head: &[u8], k: u64, tail: &[u8]) -> usize
    requires { length head.now + (21 + length tail.now) ≤ length out.old }
    ensures { Says (head.now ++ (numeral 10 k ++ tail.now)) out.new result }
{
    let at = text::put_text(out, 0, head).unwrap();
    let at = text::put_decimal(out, at, k).unwrap();
    text::put_text(out, at, tail).unwrap()
}

// The line of a verdict.
fn put_verdict(out: &mut [u8], v: Verdict) -> usize
    requires { 64 ≤ length out.old }
    ensures { Says (text_of (Ok v)) out.new result }
{
    match v {
        Verdict::BadEntry(k) => put_numbered(out, b"bad entry ", k as u64, b"\n"),
        Verdict::Differs(k) => put_numbered(out, b"row ", k as u64, b" differs\n"),
        Verdict::NotReduced => put_plain(out, b"not reduced\n"),
        Verdict::Yes => put_plain(out, b"yes\n"),
    }
}

// The line of a verdict, or of a refusal: its number.
fn put_answer(out: &mut [u8], answer: Result<Verdict, Refusal>) -> usize
    requires { 64 ≤ length out.old }
    ensures { Says (text_of answer) out.new result }
{
    match answer {
        Ok(v) => put_verdict(out, v),
        Err(r) => put_numbered(out, b"", r.0 as u64, b"\n"),
    }
}

// The line on the input that was taken in.
fn put_line(
    out: &mut [u8],
    taken: Option<Result<Front, Refusal>>,
    units: &[u16; UNITS],
    x: &mut [u64; WORDS],
    z: &mut [u64; WORDS],
    p: &mut [u64; PHASES],
    claimed: &[u64; CLAIMED],
) -> usize
    requires { (64 ≤ length out.old) × TakenIn made (outputs units.now x.old z.old p.old claimed.now) taken }
    ensures { Answers taken (outputs units.now x.old z.old p.old claimed.now) out.new result }
{
    match taken {
        None => put_plain(out, b"too large\n"),
        Some(file) => {
            let answer = judge(file, units, x, z, p, claimed);
            put_answer(out, answer)
        }
    }
}

fn main(rt: HostRuntime) {
    let mut units = [0u16; UNITS];
    let mut x = [0u64; WORDS];
    let mut z = [0u64; WORDS];
    let mut p = [0u64; PHASES];
    let mut claimed = [0u64; CLAIMED];
    let mut line = [0u8; LINE];
    let taken = take_in(&rt, &mut units, &mut x, &mut z, &mut p, &mut claimed);
    let n = put_line(&mut line, taken, &units, &mut x, &mut z, &mut p, &claimed);
    let _ = rt.stdout().write_all(&line[0..n]);
}
