// One line and its answer, by the call that it names.
ghost use Rattle.std.specs.Prelude.{drop};
ghost use Rattle.calls.specs.Answer.{answer_to, answer_of, Answers};

use crate::elements::{self, Terms};
use crate::{ANSWER, files, sets, words};
use forms::say;
use naming::Call;

// The call made, on the fields that stand behind its name.
fn made(
    c: Call,
    s: &[u8],
    n: usize,
    terms: &mut Terms,
    out: &mut [u8; ANSWER],
    to: usize,
) -> Option<usize>
    ensures { Answers (answer_to c (drop n s.now)) out.old to out.new result }
{
    match c {
        Call::Unknown => say::bad(out, to),
        Call::Phase1 => words::phase1(s, n, out, to),
        Call::Act1 => words::act1(s, n, out, to),
        Call::Whole => elements::whole(s, n, terms, out, to),
        Call::Float => elements::float(s, n, terms, out, to),
        Call::States => elements::among_states(s, n, terms, out, to),
        Call::Pwl => files::file(s, n, out, to),
        Call::Set(k) => sets::answer(k, s, n, out, to),
    }
}

// The answer to a line, behind what was written before. A blank line and a comment have none.
pub(crate) fn answer(
    s: &[u8],
    terms: &mut Terms,
    out: &mut [u8; ANSWER],
    to: usize,
) -> Option<usize>
    ensures { Answers (answer_of s.now) out.old to out.new result }
{
    if (s.len() == 0) | text::starts(b'#', s, 0) {
        return say::letters(out, to, b"");
    }
    let n = naming::name_end(s);
    let c = naming::call_of(s);
    made(c, s, n, terms, out, to)
}
