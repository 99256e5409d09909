// The two calls on single words that C makes.
ghost use Rattle.std.specs.Prelude.{[], ◌∷◌, drop};
ghost use Rattle.text.specs.Lines.{word, fields};
ghost use Rattle.forms.specs.Answers.{Says};
ghost use Rattle.calls.specs.Answer.{phase1 as phase1Answer, act1 as act1Answer};
ghost use Rattle.forms.specs.Fields.{Finds, Any};

use forms::{read, say};

// Three words, and four.
fn three(s: &[u8], at: usize) -> Option<((u64, u64, u64), usize)>
    ensures { Finds (fields (word ∷ word ∷ word ∷ [])) (λ v. (v.0, (v.1, (v.2, tt)))) Any s.now at result }
{
    let (a, at) = read::word(s, at)?;
    let (b, at) = read::word(s, at)?;
    let (c, at) = read::word(s, at)?;
    Some(((a, b, c), at))
}

fn four(s: &[u8], at: usize) -> Option<((u64, u64, u64, u64), usize)>
    ensures { Finds (fields (word ∷ word ∷ word ∷ word ∷ [])) (λ v. (v.0, (v.1, (v.2, (v.3, tt))))) Any s.now at result }
{
    let (a, at) = read::word(s, at)?;
    let ((b, c, d), at) = three(s, at)?;
    Some(((a, b, c, d), at))
}

pub(crate) fn phase1(s: &[u8], at: usize, out: &mut [u8], to: usize) -> Option<usize>
    ensures { Says (phase1Answer (drop at s.now)) out.old to out.new result }
{
    let Some((a, b, c, d)) = read::last(s, four(s, at)) else {
        return say::bad(out, to);
    };
    let e = products::mul_op_op_phase_u64(a, b, c, d);
    say::ok_number(out, to, e)
}

pub(crate) fn act1(s: &[u8], at: usize, out: &mut [u8], to: usize) -> Option<usize>
    ensures { Says (act1Answer (drop at s.now)) out.old to out.new result }
{
    let Some((x, z, state)) = read::last(s, three(s, at)) else {
        return say::bad(out, to);
    };
    let e = products::mul_op_state_phase_u64(x, z, state);
    say::acted_word(out, to, e, state ^ x)
}
