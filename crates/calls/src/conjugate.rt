// Gates: every row of a set conjugated by the gate that a line names.
ghost use Rattle.encoding.specs.Set.{mem_of};
ghost use Rattle.std.specs.Prelude.{drop};
ghost use Rattle.forms.specs.Fields.{Finds, itself, Any};
ghost use Rattle.text.specs.Workers.{Passes};
ghost use Rattle.text.specs.Lines.{field};
ghost use Rattle.calls.specs.Gate.{one_qubit_gate, hadamard, turn, two_qubits, gate as gateForm};
ghost use Rattle.forms.specs.Answers.{Says};
ghost use Rattle.calls.specs.Answer.{gated};

use forms::{read, say};
use gates::Gate;
use pauli::QubitNumber;

// The place behind the byte c, where it stands there.
#[tactic(auto, using(text::proofs::Places::passes))]
fn behind(c: u8, s: &[u8], at: usize) -> Option<usize>
    ensures { Passes c s.now at result }
{
    if text::starts(c, s, at) {
        Some(at + 1)
    } else {
        None
    }
}

fn of_h(s: &[u8], at: usize) -> Option<(Gate, usize)>
    ensures { Finds (one_qubit_gate hadamard) itself Any s.now at result }
{
    let (q, at) = read::number(s, at, usize::MAX)?;
    Some((Gate::H(QubitNumber(q)), at))
}

fn of_s(s: &[u8], at: usize) -> Option<(Gate, usize)>
    ensures { Finds (one_qubit_gate turn) itself Any s.now at result }
{
    let (q, at) = read::number(s, at, usize::MAX)?;
    Some((Gate::S(QubitNumber(q)), at))
}

fn of_cx(s: &[u8], at: usize) -> Option<(Gate, usize)>
    ensures { Finds two_qubits itself Any s.now at result }
{
    let (q, at) = read::read_two(s, at)?;
    let control = QubitNumber(q.a);
    let target = QubitNumber(q.b);
    Some((Gate::CX { control, target }, at))
}

// A gate behind a space: h q, s q, or cx control target.
fn read_gate(s: &[u8], at: usize) -> Option<(Gate, usize)>
    ensures { Finds (field gateForm) itself Any s.now at result }
{
    let at = behind(b' ', s, at)?;
    if let Some(at) = behind(b'h', s, at) {
        return of_h(s, at);
    }
    if let Some(at) = behind(b's', s, at) {
        return of_s(s, at);
    }
    let at = behind(b'c', s, at)?;
    let at = behind(b'x', s, at)?;
    of_cx(s, at)
}

pub(crate) fn gate(
    s: &[u8],
    at: usize,
    n: usize,
    m: usize,
    x: &mut [u64],
    z: &mut [u64],
    p: &mut [u64],
    out: &mut [u8],
    to: usize,
) -> Option<usize>
    ensures { Says (gated n (mem_of m x.old z.old p.old) (drop at s.now)) out.old to out.new result }
{
    let Some(by) = read::last(s, read_gate(s, at)) else {
        return say::bad(out, to);
    };
    let a = clifford::conj_clifford(n, m, x, z, p, by);
    say::changed(out, to, a, x, z, p)
}
