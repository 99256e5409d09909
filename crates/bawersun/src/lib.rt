// The door for C: every call of the library, exported under a name that begins with the crate's; thin, each under the contract of the call itself.

#![tactic(auto)]

mod files;

ghost use Rattle.mat_elem.specs.states.Sums.{terms};
ghost use Rattle.mat_elem.specs.states.Sums.{state};
ghost use Rattle.encoding.specs.Set.{mem_of};
ghost use Rattle.std.specs.Prelude.{◌≡◌, ◌%◌};
ghost use Rattle.pauli.specs.Pauli.{phases as Pauli·phases, act_phase};
ghost use Rattle.encoding.specs.Words.{word, bits};
ghost use Rattle.cmpnt_list.specs.Calls.{get_qubit, SetQubit, count_in, phase_of_mul, commutes_with, belongs_to_centralizer};
ghost use Rattle.cmpnt_list.specs.Calls.{CompatibilityMatrix, MulPairwise, ImulState};
ghost use Rattle.terms.specs.Calls.{Multiplies, Reduces, ReducesAll};
ghost use Rattle.replay.specs.Check.{task, claim};
ghost use Rattle.replay.specs.Undo.{Undoes};
ghost use Rattle.row_text.specs.Calls.{FmtElem, ParseElem};
ghost use Rattle.clifford.specs.Calls.{Conjugates};
ghost use Rattle.mat_elem.specs.float.Product.{MatElem};
ghost use Rattle.mat_elem.specs.whole.Sums as whole;
ghost use Rattle.mat_elem.specs.states.Vectors as states;
ghost use Rattle.bawersun.specs.Told.{Told, Exactly, Gives, value_seen, Number, number_of};
ghost use Rattle.bawersun.specs.Told.{pauli_number, pauli_of, pauli_or, row_for, got_seen, truth_seen, phase_seen};
ghost use Rattle.bawersun.specs.Told.{Counted, verdict_seen, CheckedOn, undone_seen, h_of, s_of, cx_of, parts, element_seen};

use checked::Complex;
use encoding::{Refusal, RowSet};
use gates::Gate;
use pauli::{PauliMatrix, QubitNumber, RowNumber};
use replay::{NotUndone, Verdict};
use terms::{Canonicalized, Lists, Stopped};

// What stands for a verdict other than yes, and for no block, beside the refusal numbers.
pub const DIFFERS: u8 = 252;

pub const BAD_ENTRY: u8 = 253;

pub const NOT_REDUCED: u8 = 254;

pub const NO_BLOCK: u8 = 255;

// 0 for done, else the refusal's number.
fn number(a: Result<(), Refusal>) -> u8
    ensures { result ≡ number_of a }
{
    match a {
        Ok(()) => 0,
        Err(r) => r.0,
    }
}

// The same of a call that gives a value, which comes in its place; where there is none, what stood there stays.
fn told<T: Copy>(a: Result<T, Refusal>, place: &mut T) -> u8
    ensures { Gives value_seen place.old place.new result a }
{
    match a {
        Ok(v) => {
            *place = v;
            0
        }
        Err(r) => r.0,
    }
}

// ---- Paulis

// The Pauli of a number; none above 3.
fn pauli_of(k: u8) -> Option<PauliMatrix>
    ensures { result ≡ pauli_of k }
{
    match k {
        0 => Some(PauliMatrix::I),
        1 => Some(PauliMatrix::X),
        2 => Some(PauliMatrix::Y),
        3 => Some(PauliMatrix::Z),
        _ => None,
    }
}

fn pauli_number(p: PauliMatrix) -> u8
    ensures { result ≡ pauli_number p }
{
    match p {
        PauliMatrix::I => 0,
        PauliMatrix::X => 1,
        PauliMatrix::Y => 2,
        PauliMatrix::Z => 3,
    }
}

// The row that is asked for; a row too large where there is no Pauli.
fn row_for(p: Option<PauliMatrix>, m: usize, row: usize) -> RowNumber
    ensures { result.0 ≡ row_for p m row }
{
    match p {
        Some(_) => RowNumber(row),
        None => RowNumber(m),
    }
}

#[unsafe(no_mangle)]
pub extern "C" fn bawersun_get_qubit(
    n: usize,
    m: usize,
    x: &[u64],
    z: &[u64],
    phases: &[u64],
    row: usize,
    qubit: usize,
    pauli: &mut u8,
) -> u8
    ensures { Told (Exactly (get_qubit n (mem_of m x.now z.now phases.now) row qubit))
        (Gives got_seen pauli.old pauli.new result) }
{
    let set = RowSet { n, m, x, z, phases };
    let p = cmpnt_list::get_qubit(&set, RowNumber(row), QubitNumber(qubit));
    told(p.map(pauli_number), pauli)
}

#[unsafe(no_mangle)]
pub extern "C" fn bawersun_set_qubit(
    n: usize,
    m: usize,
    x: &mut [u64],
    z: &mut [u64],
    phases: &[u64],
    row: usize,
    qubit: usize,
    pauli: u8,
) -> u8
    ensures { Told (SetQubit n (mem_of m x.old z.old phases.now) (row_for (pauli_of pauli) m row) qubit (pauli_or (pauli_of pauli))
        (mem_of m x.new z.new phases.now)) (Number result) }
{
    let p = pauli_of(pauli);
    let row = row_for(p, m, row);
    let p = p.unwrap_or(PauliMatrix::I);
    number(cmpnt_list::set_qubit(n, m, x, z, phases, row, QubitNumber(qubit), p))
}

#[unsafe(no_mangle)]
pub extern "C" fn bawersun_count(
    n: usize,
    m: usize,
    x: &[u64],
    z: &[u64],
    phases: &[u64],
    row: usize,
    pauli: u8,
    count: &mut u64,
) -> u8
    ensures { Told (Exactly (count_in n (mem_of m x.now z.now phases.now) (row_for (pauli_of pauli) m row) (pauli_or (pauli_of pauli))))
        (Gives value_seen count.old count.new result) }
{
    let set = RowSet { n, m, x, z, phases };
    let p = pauli_of(pauli);
    let row = row_for(p, m, row);
    let p = p.unwrap_or(PauliMatrix::I);
    told(cmpnt_list::count(&set, row, p), count)
}

// ---- questions of rows

#[unsafe(no_mangle)]
pub extern "C" fn bawersun_commutes_with(
    n: usize,
    m: usize,
    x: &[u64],
    z: &[u64],
    phases: &[u64],
    a: usize,
    b: usize,
    truth: &mut u8,
) -> u8
    ensures { Told (Exactly (commutes_with n (mem_of m x.now z.now phases.now) a b))
        (Gives truth_seen truth.old truth.new result) }
{
    let set = RowSet { n, m, x, z, phases };
    let t = cmpnt_list::commutes_with(&set, RowNumber(a), RowNumber(b));
    told(t.map(u8::from), truth)
}

#[unsafe(no_mangle)]
pub extern "C" fn bawersun_belongs_to_centralizer(
    n: usize,
    m: usize,
    x: &[u64],
    z: &[u64],
    phases: &[u64],
    row: usize,
    truth: &mut u8,
) -> u8
    ensures { Told (Exactly (belongs_to_centralizer n (mem_of m x.now z.now phases.now) row))
        (Gives truth_seen truth.old truth.new result) }
{
    let set = RowSet { n, m, x, z, phases };
    let t = cmpnt_list::belongs_to_centralizer(&set, RowNumber(row));
    told(t.map(u8::from), truth)
}

#[unsafe(no_mangle)]
pub extern "C" fn bawersun_compatibility_matrix(
    n: usize,
    m: usize,
    x: &[u64],
    z: &[u64],
    phases: &[u64],
    out: &mut [u64],
) -> u8
    ensures { Told (CompatibilityMatrix n (mem_of m x.now z.now phases.now) out.old out.new) (Number result) }
{
    let set = RowSet { n, m, x, z, phases };
    number(cmpnt_list::compatibility_matrix(&set, out))
}

#[unsafe(no_mangle)]
pub extern "C" fn bawersun_cmpnts_mul_pairwise(
    n: usize,
    m: usize,
    lx: &[u64],
    lz: &[u64],
    lp: &[u64],
    rx: &[u64],
    rz: &[u64],
    rp: &[u64],
    ox: &mut [u64],
    oz: &mut [u64],
    op: &mut [u64],
    clashes: &mut [u16],
) -> u8
    ensures { Told (MulPairwise n (mem_of m lx.now lz.now lp.now) (mem_of m rx.now rz.now rp.now) (mem_of m ox.old oz.old op.old)
        (mem_of m ox.new oz.new op.new) clashes.old
        clashes.new) (Number result) }
{
    number(cmpnt_list::cmpnts_mul_pairwise(n, m, lx, lz, lp, rx, rz, rp, ox, oz, op, clashes))
}

#[unsafe(no_mangle)]
pub extern "C" fn bawersun_phase_of_mul(
    n: usize,
    m: usize,
    x: &[u64],
    z: &[u64],
    phases: &[u64],
    a: usize,
    b: usize,
    exponent: &mut u8,
) -> u8
    ensures { Told (Exactly (phase_of_mul n (mem_of m x.now z.now phases.now) a b))
        (Gives phase_seen exponent.old exponent.new result) }
{
    let set = RowSet { n, m, x, z, phases };
    let e = cmpnt_list::phase_of_mul(&set, RowNumber(a), RowNumber(b));
    told(e.map(|e| e.0), exponent)
}

#[unsafe(no_mangle)]
pub extern "C" fn bawersun_phase_of_mul_by_table(
    n: usize,
    m: usize,
    x: &[u64],
    z: &[u64],
    phases: &[u64],
    a: usize,
    b: usize,
    exponent: &mut u8,
) -> u8
    ensures { Told (Exactly (phase_of_mul n (mem_of m x.now z.now phases.now) a b))
        (Gives phase_seen exponent.old exponent.new result) }
{
    let set = RowSet { n, m, x, z, phases };
    let e = cmpnt_list::phase_of_mul_by_table(&set, RowNumber(a), RowNumber(b));
    told(e.map(|e| e.0), exponent)
}

#[unsafe(no_mangle)]
pub extern "C" fn bawersun_imul_state(
    n: usize,
    m: usize,
    x: &[u64],
    z: &[u64],
    phases: &[u64],
    row: usize,
    state: &mut [u64],
    exponent: &mut u8,
) -> u8
    ensures { Told (ImulState n (mem_of m x.now z.now phases.now) row state.old state.new)
        (Gives phase_seen exponent.old exponent.new result) }
{
    let set = RowSet { n, m, x, z, phases };
    let e = cmpnt_list::imul_state(&set, RowNumber(row), state);
    told(e.map(|e| e.0), exponent)
}

#[unsafe(no_mangle)]
pub extern "C" fn bawersun_imul(
    n: usize,
    m: usize,
    x: &mut [u64],
    z: &mut [u64],
    phases: &mut [u64],
    a: usize,
    b: usize,
    clashes: &mut u16,
) -> u8
    ensures { Told (Multiplies n a b (mem_of m x.old z.old phases.old) (mem_of m x.new z.new phases.new))
        (Gives value_seen clashes.old clashes.new result) }
{
    let c = terms::imul(n, m, x, z, phases, RowNumber(a), RowNumber(b));
    told(c, clashes)
}

// What is seen of a reduction's answer: where it gives no number, the one that stands there stays.
fn counted(a: Result<Canonicalized, Stopped>, entries: &mut usize, t: &mut usize) -> u8
    ensures { Counted entries.old t.old entries.new t.new result a }
{
    match a {
        Ok(c) => {
            *entries = c.entries;
            *t = c.t;
            0
        }
        Err(Stopped::Full(capacity)) => {
            *entries = capacity;
            Refusal::FULL_LOG.0
        }
        Err(Stopped::Refused(r)) => r.0,
    }
}

#[unsafe(no_mangle)]
pub extern "C" fn bawersun_canonicalize(
    n: usize,
    m: usize,
    x: &mut [u64],
    z: &mut [u64],
    phases: &mut [u64],
    order: &[u16],
    listed: &[u16],
    extra: &[u16],
    log: &mut [u16],
    entries: &mut usize,
    t: &mut usize,
) -> u8
    ensures { Told (Reduces n order.now listed.now extra.now (mem_of m x.old z.old phases.old) log.old
        (mem_of m x.new z.new phases.new) log.new) (Counted entries.old t.old entries.new t.new result) }
{
    let lists = Lists {
        order,
        listed,
        extra,
    };
    let a = terms::canonicalize(n, m, x, z, phases, &lists, log);
    counted(a, entries, t)
}

#[unsafe(no_mangle)]
pub extern "C" fn bawersun_canonicalize_all(
    n: usize,
    m: usize,
    x: &mut [u64],
    z: &mut [u64],
    phases: &mut [u64],
    log: &mut [u16],
    entries: &mut usize,
    t: &mut usize,
) -> u8
    ensures { Told (ReducesAll n (mem_of m x.old z.old phases.old) log.old (mem_of m x.new z.new phases.new) log.new)
        (Counted entries.old t.old entries.new t.new result) }
{
    let a = terms::canonicalize_all(n, m, x, z, phases, log);
    counted(a, entries, t)
}

// What is seen of a verdict: where it names no place, the number stays.
fn placed(a: Result<Verdict, Refusal>, place: &mut usize) -> u8
    ensures { Gives verdict_seen place.old place.new result a }
{
    match a {
        Ok(Verdict::BadEntry(k)) => {
            *place = k;
            BAD_ENTRY
        }
        Ok(Verdict::Differs(k)) => {
            *place = k;
            DIFFERS
        }
        Ok(Verdict::NotReduced) => NOT_REDUCED,
        Ok(Verdict::Yes) => 0,
        Err(r) => r.0,
    }
}

#[unsafe(no_mangle)]
pub extern "C" fn bawersun_check(
    n: usize,
    m: usize,
    x: &mut [u64],
    z: &mut [u64],
    phases: &mut [u64],
    order: &[u16],
    listed: &[u16],
    extra: &[u16],
    log: &[u16],
    cx: &[u64],
    cz: &[u64],
    cphases: &[u64],
    place: &mut usize,
) -> u8
    ensures { Told (CheckedOn (task n (mem_of m x.old z.old phases.old) order.now listed.now extra.now)
        (claim log.now (mem_of m cx.now cz.now cphases.now)) (mem_of m x.new z.new phases.new))
        (Gives verdict_seen place.old place.new result) }
{
    let lists = Lists {
        order,
        listed,
        extra,
    };
    let v = replay::check(n, m, x, z, phases, &lists, log, cx, cz, cphases);
    placed(v, place)
}

// What is seen of walking back.
fn walked(a: Result<(), NotUndone>, place: &mut usize) -> u8
    ensures { Gives undone_seen place.old place.new result a }
{
    match a {
        Ok(()) => 0,
        Err(NotUndone::BadEntry(k)) => {
            *place = k;
            BAD_ENTRY
        }
        Err(NotUndone::Refused(r)) => r.0,
    }
}

#[unsafe(no_mangle)]
pub extern "C" fn bawersun_undo(
    n: usize,
    m: usize,
    x: &mut [u64],
    z: &mut [u64],
    phases: &mut [u64],
    listed: &[u16],
    extra: &[u16],
    log: &[u16],
    place: &mut usize,
) -> u8
    ensures { Told (Undoes n listed.now extra.now log.now (mem_of m x.old z.old phases.old) (mem_of m x.new z.new phases.new))
        (Gives undone_seen place.old place.new result) }
{
    let lists = Lists {
        order: &[],
        listed,
        extra,
    };
    let a = replay::undo::undo(n, m, x, z, phases, &lists, log);
    walked(a, place)
}

// ---- the text of a row

#[unsafe(no_mangle)]
pub extern "C" fn bawersun_fmt_elem(
    n: usize,
    m: usize,
    x: &[u64],
    z: &[u64],
    phases: &[u64],
    row: usize,
    out: &mut [u8],
    length: &mut usize,
) -> u8
    ensures { Told (FmtElem n (mem_of m x.now z.now phases.now) row out.old out.new)
        (Gives value_seen length.old length.new result) }
{
    let set = RowSet { n, m, x, z, phases };
    told(row_text::fmt_elem(&set, RowNumber(row), out), length)
}

#[unsafe(no_mangle)]
pub extern "C" fn bawersun_parse_elem(
    n: usize,
    m: usize,
    x: &mut [u64],
    z: &mut [u64],
    phases: &[u64],
    row: usize,
    text: &[u8],
) -> u8
    ensures { Told (ParseElem n (mem_of m x.old z.old phases.now) row text.now (mem_of m x.new z.new phases.now)) (Number result) }
{
    number(row_text::parse_elem(n, m, x, z, phases, RowNumber(row), text))
}

// ---- gates

#[unsafe(no_mangle)]
pub extern "C" fn bawersun_conj_h(
    n: usize,
    m: usize,
    x: &mut [u64],
    z: &mut [u64],
    phases: &mut [u64],
    q: usize,
) -> u8
    ensures { Told (Conjugates n (h_of q) (mem_of m x.old z.old phases.old) (mem_of m x.new z.new phases.new)) (Number result) }
{
    let g = Gate::H(QubitNumber(q));
    number(clifford::conj_clifford(n, m, x, z, phases, g))
}

#[unsafe(no_mangle)]
pub extern "C" fn bawersun_conj_s(
    n: usize,
    m: usize,
    x: &mut [u64],
    z: &mut [u64],
    phases: &mut [u64],
    q: usize,
) -> u8
    ensures { Told (Conjugates n (s_of q) (mem_of m x.old z.old phases.old) (mem_of m x.new z.new phases.new)) (Number result) }
{
    let g = Gate::S(QubitNumber(q));
    number(clifford::conj_clifford(n, m, x, z, phases, g))
}

#[unsafe(no_mangle)]
pub extern "C" fn bawersun_conj_cx(
    n: usize,
    m: usize,
    x: &mut [u64],
    z: &mut [u64],
    phases: &mut [u64],
    control: usize,
    target: usize,
) -> u8
    ensures { Told (Conjugates n (cx_of control target) (mem_of m x.old z.old phases.old) (mem_of m x.new z.new phases.new)) (Number result) }
{
    let g = Gate::CX {
        control: QubitNumber(control),
        target: QubitNumber(target),
    };
    number(clifford::conj_clifford(n, m, x, z, phases, g))
}

// ---- matrix elements

// What is seen of a sum, whose parts come through a reference each; where there is none, they stay.
fn summed<T: Copy>(a: Result<Complex<T>, Refusal>, real: &mut T, imag: &mut T) -> u8
    ensures { Gives value_seen (parts real.old imag.old) (parts real.new imag.new) result a }
{
    match a {
        Ok(c) => {
            *real = c.re;
            *imag = c.im;
            0
        }
        Err(r) => r.0,
    }
}

// The same of a matrix element, which may have no block.
fn parted<T: Copy>(a: Result<Option<Complex<T>>, Refusal>, real: &mut T, imag: &mut T) -> u8
    ensures { Gives element_seen (parts real.old imag.old) (parts real.new imag.new) result a }
{
    match a {
        Ok(Some(c)) => {
            *real = c.re;
            *imag = c.im;
            0
        }
        Ok(None) => NO_BLOCK,
        Err(r) => r.0,
    }
}

#[unsafe(no_mangle)]
pub extern "C" fn bawersun_mat_elem_cmpnts_from_presorted(
    n: usize,
    x: &[u64],
    z: &[u64],
    re: &[f64],
    im: &[f64],
    bra: u64,
    ket: u64,
    real: &mut f64,
    imag: &mut f64,
) -> u8
    ensures { Told (MatElem n x.now z.now re.now im.now bra ket)
        (Gives element_seen (parts real.old imag.old) (parts real.new imag.new) result) }
{
    let a = mat_elem::float::mat_elem_cmpnts_from_presorted(n, x, z, re, im, bra, ket);
    parted(a, real, imag)
}

#[unsafe(no_mangle)]
pub extern "C" fn bawersun_mat_elem_cmpnts_from_presorted_whole(
    n: usize,
    x: &[u64],
    z: &[u64],
    re: &[i32],
    im: &[i32],
    bra: u64,
    ket: u64,
    real: &mut i64,
    imag: &mut i64,
) -> u8
    ensures { Told (whole.MatElem n (x.now) (z.now) (re.now) (im.now) bra ket)
        (Gives element_seen (parts real.old imag.old) (parts real.new imag.new) result) }
{
    let a = mat_elem::whole::mat_elem_cmpnts_from_presorted(n, x, z, re, im, bra, ket);
    parted(a, real, imag)
}

#[unsafe(no_mangle)]
pub extern "C" fn bawersun_mat_elem_from_presorted(
    n: usize,
    x: &[u64],
    z: &[u64],
    re: &[i32],
    im: &[i32],
    bras: &[u64],
    bre: &[i32],
    bim: &[i32],
    kets: &[u64],
    kre: &[i32],
    kim: &[i32],
    real: &mut i64,
    imag: &mut i64,
) -> u8
    ensures { Told (states.MatElem n (terms x.now z.now re.now im.now) (state bras.now bre.now bim.now) (state kets.now kre.now kim.now))
        (Gives value_seen (parts real.old imag.old) (parts real.new imag.new) result) }
{
    let a = mat_elem::states::mat_elem_from_presorted(
        n, x, z, re, im, bras, bre, bim, kets, kre, kim,
    );
    summed(a, real, imag)
}

// ---- words

#[unsafe(no_mangle)]
pub extern "C" fn mul_op_op_phase_u64(lx: u64, lz: u64, rx: u64, rz: u64) -> u64
    ensures { result ≡ Pauli·phases (word 64 lx lz) (word 64 rx rz) % 4 }
{
    products::mul_op_op_phase_u64(lx, lz, rx, rz)
}

#[unsafe(no_mangle)]
pub extern "C" fn mul_op_state_phase_u64(lx: u64, lz: u64, r: u64) -> u64
    ensures { result ≡ act_phase (word 64 lx lz) (bits 64 r) % 4 }
{
    products::mul_op_state_phase_u64(lx, lz, r)
}
