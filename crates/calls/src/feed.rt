// Lines out of standard input and answers into standard output. Answers are written out before any read, which may wait: whoever asks
// line by line has the answers to all lines that came.
ghost use Rattle.std.specs.Prelude.{◌+◌, ◌≤◌, ◌<◌, length, IfOk};

use crate::elements::Terms;
use crate::{ANSWER, LINE, line};
use std::io::{self, ErrorKind, Read};

// Bytes that one read asks for; as many bytes of answers wait at most before they are written.
const CHUNK: usize = 65536;

// The bytes from `start` to `end` were read and not answered, and no line ends before `scan`. So many bytes of answers wait.
#[derive(Clone, Copy)]
struct Feed {
    start: usize,
    scan: usize,
    end: usize,
    waiting: usize,
}

// The program ends, and says why.
fn give_up(rt: &HostRuntime, why: &[u8]) -> Option<Feed> {
    let _ = rt.stderr().write_all(why);
    None
}

// The place of the first line end from a place on. Inlined into the loop over lines, it takes eight instructions a byte for five.
#[inline(never)]
fn line_end(buf: &[u8], from: usize, end: usize) -> Option<usize> {
    let n = buf.get(from..end)?.iter().position(|c| *c == b'\n')?;
    Some(from + n)
}

// What waits is written out.
fn flushed(rt: &HostRuntime, out: &[u8], f: Feed) -> Option<Feed> {
    let k = f.waiting.min(out.len());
    if rt.stdout().write_all(&out[0..k]).is_err() {
        return give_up(rt, b"calls: the answers cannot be written\n");
    }
    Some(Feed { waiting: 0, ..f })
}

// ---- more bytes

// The bytes from a place on move to the front; how many they are. While a long line comes in they stand there at every read.
fn shift(buf: &mut [u8], start: usize, end: usize) -> usize {
    let end = end.min(buf.len());
    if start == 0 {
        return end;
    }
    if end <= start {
        return 0;
    }
    buf.copy_within(start..end, 0);
    end - start
}

// A line that fills the buffer is cut to its first byte and one that stands in no call: a comment stays a comment, and a call is a bad line.
fn cut(buf: &mut [u8], n: usize) -> usize
    ensures { result ≤ length buf.old }
{
    if n < buf.len() {
        return n;
    }
    if buf.len() < 2 {
        return 0;
    }
    buf[1] = 0;
    2
}

// Behind what stands before n; how many bytes came, 0 at the end of the input.
fn read_at(rt: &HostRuntime, buf: &mut [u8], n: usize) -> io::Result<usize>
    ensures { IfOk result (λ k. n + k ≤ length buf.old) }
{
    if n < buf.len() {
        let e = n + CHUNK.min(buf.len() - n);
        return rt.stdin().read(&mut buf[n..e]);
    }
    Err(ErrorKind::InvalidInput.into())
}

// Bytes at the front, in which no line ends before a place.
fn from_front(scan: usize, end: usize) -> Feed {
    Feed {
        start: 0,
        scan,
        end,
        waiting: 0,
    }
}

// The end of the input ends the last line too.
fn ended(buf: &mut [u8], n: usize) -> Option<Feed> {
    if n == 0 {
        return None;
    }
    *buf.get_mut(n)? = b'\n';
    Some(from_front(n, n + 1))
}

fn refill(rt: &HostRuntime, buf: &mut [u8; LINE], f: Feed) -> Option<Feed> {
    let k = shift(buf, f.start, f.end);
    let n = cut(buf, k);
    let Ok(more) = read_at(rt, buf, n) else {
        return give_up(rt, b"calls: the input cannot be read\n");
    };
    if more == 0 {
        return ended(buf, n);
    }
    Some(from_front(n, n + more))
}

// ---- a line

// Behind the line that ends at `stop`, whose answer was written or did not fit. One that does not fit behind those that wait is made again when they
// are out.
fn settled(
    rt: &HostRuntime,
    out: &[u8; ANSWER],
    f: Feed,
    stop: usize,
    answered: Option<usize>,
) -> Option<Feed>
    requires { stop ≤ 3500000 }
{
    let Some(waiting) = answered else {
        if f.waiting == 0 {
            return give_up(rt, b"calls: an answer is too long\n");
        }
        return flushed(rt, out, f);
    };
    let next = stop + 1;
    let g = Feed {
        start: next,
        scan: next,
        waiting,
        ..f
    };
    if waiting < CHUNK {
        return Some(g);
    }
    flushed(rt, out, g)
}

// The next line that is whole is answered, or more is read where there is none.
fn turn(
    rt: &HostRuntime,
    buf: &mut [u8; LINE],
    out: &mut [u8; ANSWER],
    terms: &mut Terms,
    f: Feed,
) -> Option<Feed> {
    let Some(stop) = line_end(buf, f.scan, f.end) else {
        let g = flushed(rt, out, f)?;
        return refill(rt, buf, g);
    };
    let s = buf.get(f.start..stop)?;
    let answered = line::answer(s, terms, out, f.waiting);
    settled(rt, out, f, stop, answered)
}

// Line by line to the end of the input. Nothing says that an input ends; no input has as many lines as there are turns.
pub(crate) fn run(
    rt: &HostRuntime,
    buf: &mut [u8; LINE],
    out: &mut [u8; ANSWER],
    terms: &mut Terms,
) {
    let mut f = from_front(0, 0);
    for _ in 0..u64::MAX {
        let Some(g) = turn(rt, buf, out, terms, f) else {
            return;
        };
        f = g;
    }
}
