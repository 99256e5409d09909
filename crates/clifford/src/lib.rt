// Clifford gates above the row set: one call, which conjugates every row of a set in place. The set is reached through its tests and its leaves alone.

#![tactic(auto)]

ghost use Rattle.std.specs.Prelude.{◌≡◌, ◌≤◌, ◌<◌, IfOk};
ghost use Rattle.encoding.specs.Limits.{max_qubits, max_rows};
ghost use Rattle.encoding.specs.Set.{rows_of, lay, mem_of, set_of};
ghost use Rattle.encoding.specs.Refusals.{done_or};
ghost use Rattle.gates.specs.Gates.{conj_row, conj_rows};
ghost use Rattle.gates.specs.declared.Gate.TheVariants as gate;
ghost use Rattle.clifford.specs.Calls.{large_qubit, one_qubit_gate, gate_fault, Conjugates};
ghost use Rattle.one_qubit.specs.Leaves.{place_of};
ghost use Rattle.clifford.specs.Workers.{Ready, RowReady, QubitReady, Changed, bit_in, turned_by, turned_both};

use encoding::{Refusal, RowSet};
use gates::Gate;
use pauli::{QubitNumber, RowNumber};

// Whether a qubit of the gate is too large.
fn large_qubit(n: usize, g: Gate) -> bool
    ensures { result ≡ large_qubit n g }
{
    match g {
        Gate::H(q) | Gate::S(q) => n <= q.0,
        Gate::CX { control, target } => (n <= control.0) | (n <= target.0),
    }
}

// Whether control and target are one qubit.
fn one_qubit_twice(g: Gate) -> bool
    ensures { result ≡ one_qubit_gate g }
{
    match g {
        Gate::H(_) | Gate::S(_) => false,
        Gate::CX { control, target } => control.0 == target.0,
    }
}

// Whether a set or a gate is refused, by the first line of the table that fits.
fn gate_fault(set: &RowSet<'_>, g: Gate) -> Result<(), Refusal>
    ensures value { result ≡ done_or (gate_fault set.now.n (set_of set.now) g) }
    ensures ready { IfOk result (λ _. Ready set.now.n g (set_of set.now)) }
{
    encoding::set_fault(set)?;
    if large_qubit(set.n, g) {
        return Err(Refusal::LARGE_NUMBER);
    }
    if one_qubit_twice(g) {
        return Err(Refusal::ONE_QUBIT_TWICE);
    }
    Ok(())
}

// The two bits of a Pauli.
#[derive(Clone, Copy)]
struct Bits {
    x: bool,
    z: bool,
}

// Where qubit q of row r stands among the bits of all words, 64 to a word.
fn place(n: usize, r: usize, q: usize) -> usize
    requires { (n ≤ max_qubits) × (r < max_rows) × (q < n) }
    ensures { result ≡ place_of n r q }
{
    r * encoding::words(n) * 64 + q
}

// The bits at qubit q of row r.
fn read(n: usize, x: &[u64], z: &[u64], r: RowNumber, q: QubitNumber) -> Bits
    requires { (n ≤ max_qubits) × (r.0 < max_rows) × (q.0 < n) }
    ensures x { result.x ≡ bit_in x.now (place_of n r.0 q.0) }
    ensures z { result.z ≡ bit_in z.now (place_of n r.0 q.0) }
{
    let k = place(n, r.0, q.0);
    Bits {
        x: encoding::bit_in(x, k),
        z: encoding::bit_in(z, k),
    }
}

// At qubit q of row r the bits turn where `by` has them, and the row's sign turns where `sign` holds: the higher of its phase's two bits.
fn turn(
    n: usize,
    m: usize,
    x: &mut [u64],
    z: &mut [u64],
    phases: &mut [u64],
    r: RowNumber,
    q: QubitNumber,
    by: Bits,
    sign: bool,
)
    requires { QubitReady n r.0 q.0 (mem_of m x.old z.old phases.old) }
    ensures { Changed n r.0 (turned_by q.0 by.x by.z sign) (mem_of m x.old z.old phases.old)
        (mem_of m x.new z.new phases.new) }
{
    let k = place(n, r.0, q.0);
    one_qubit::turn_bit(x, k, by.x);
    one_qubit::turn_bit(z, k, by.z);
    one_qubit::turn_bit(phases, 2 * r.0 + 1, sign);
}

// H on row r: where x and z differ, both turn.
fn h_row(
    n: usize,
    m: usize,
    x: &mut [u64],
    z: &mut [u64],
    phases: &mut [u64],
    r: RowNumber,
    q: QubitNumber,
)
    requires { RowReady n r.0 (gate.H q) (mem_of m x.old z.old phases.old) }
    ensures { Changed n r.0 (conj_row n (gate.H q)) (mem_of m x.old z.old phases.old)
        (mem_of m x.new z.new phases.new) }
{
    let b = read(n, x, z, r, q);
    let d = b.x ^ b.z;
    turn(n, m, x, z, phases, r, q, Bits { x: d, z: d }, b.x & b.z);
}

// S on row r: where x is, z turns.
fn s_row(
    n: usize,
    m: usize,
    x: &mut [u64],
    z: &mut [u64],
    phases: &mut [u64],
    r: RowNumber,
    q: QubitNumber,
)
    requires { RowReady n r.0 (gate.S q) (mem_of m x.old z.old phases.old) }
    ensures { Changed n r.0 (conj_row n (gate.S q)) (mem_of m x.old z.old phases.old)
        (mem_of m x.new z.new phases.new) }
{
    let b = read(n, x, z, r, q);
    turn(
        n,
        m,
        x,
        z,
        phases,
        r,
        q,
        Bits { x: false, z: b.x },
        b.x & b.z,
    );
}

// Controlled-X on row r, where c was read at the control and t at the target: the target's x turns where the control has one, the control's z where the
// target has one.
fn turn_both(
    n: usize,
    m: usize,
    x: &mut [u64],
    z: &mut [u64],
    phases: &mut [u64],
    r: RowNumber,
    control: QubitNumber,
    target: QubitNumber,
    c: Bits,
    t: Bits,
)
    requires { RowReady n r.0 (gate.CX control target) (mem_of m x.old z.old phases.old) }
    ensures { Changed n r.0 (turned_both control.0 target.0 c.x c.z t.x t.z) (mem_of m x.old z.old phases.old)
        (mem_of m x.new z.new phases.new) }
{
    turn(
        n,
        m,
        x,
        z,
        phases,
        r,
        target,
        Bits { x: c.x, z: false },
        false,
    );
    let sign = c.x & (t.z & !(t.x ^ c.z));
    turn(
        n,
        m,
        x,
        z,
        phases,
        r,
        control,
        Bits { x: false, z: t.z },
        sign,
    );
}

// Controlled-X on row r.
fn cx_row(
    n: usize,
    m: usize,
    x: &mut [u64],
    z: &mut [u64],
    phases: &mut [u64],
    r: RowNumber,
    control: QubitNumber,
    target: QubitNumber,
)
    requires { RowReady n r.0 (gate.CX control target) (mem_of m x.old z.old phases.old) }
    ensures { Changed n r.0 (conj_row n (gate.CX control target)) (mem_of m x.old z.old phases.old)
        (mem_of m x.new z.new phases.new) }
{
    let c = read(n, x, z, r, control);
    let t = read(n, x, z, r, target);
    turn_both(n, m, x, z, phases, r, control, target, c, t);
}

// The gate on row r.
fn gate_row(
    n: usize,
    m: usize,
    x: &mut [u64],
    z: &mut [u64],
    phases: &mut [u64],
    r: RowNumber,
    g: Gate,
)
    requires { RowReady n r.0 g (mem_of m x.old z.old phases.old) }
    ensures { Changed n r.0 (conj_row n g) (mem_of m x.old z.old phases.old)
        (mem_of m x.new z.new phases.new) }
{
    match g {
        Gate::H(q) => h_row(n, m, x, z, phases, r, q),
        Gate::S(q) => s_row(n, m, x, z, phases, r, q),
        Gate::CX { control, target } => cx_row(n, m, x, z, phases, r, control, target),
    }
}

// The gate on every row.
fn all_rows(n: usize, m: usize, x: &mut [u64], z: &mut [u64], phases: &mut [u64], g: Gate)
    requires { Ready n g (mem_of m x.old z.old phases.old) }
    ensures { mem_of m x.new z.new phases.new
        ≡ lay n m (conj_rows n g (rows_of n (mem_of m x.old z.old phases.old))) }
{
    for r in 0..m {
        gate_row(n, m, x, z, phases, RowNumber(r), g);
    }
}

// Every row of the set is conjugated by the gate.
#[tactic(auto, using(encoding::proofs::Faults::refusing, encoding::proofs::Faults::passing, encoding::proofs::Faults::kept, encoding::proofs::Faults::made))]
pub fn conj_clifford(
    n: usize,
    m: usize,
    x: &mut [u64],
    z: &mut [u64],
    phases: &mut [u64],
    gate: Gate,
) -> Result<(), Refusal>
    ensures { Conjugates n gate (mem_of m x.old z.old phases.old)
        (mem_of m x.new z.new phases.new) result }
{
    gate_fault(&RowSet { n, m, x, z, phases }, gate)?;
    all_rows(n, m, x, z, phases, gate);
    Ok(())
}
