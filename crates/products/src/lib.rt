// Products of words and rows, and their actions on basis states. l and r stand for the left and right operands, x and z for the two parts.

#![tactic(auto)]

ghost use Rattle.std.specs.Prelude.{◌≡◌, ◌+◌, ◌*◌, ◌%◌, ◌^◌, ◌<◌, ◌≤◌, min, Bool, true, ◌&&◌, ◌||◌, length, ◌==◌, count_ones, nat_le};
ghost use Rattle.pauli.specs.Pauli.{phases, act_phase, clashes};
ghost use Rattle.encoding.specs.Words.{word, bits, unpack};
ghost use Rattle.products.specs.Leaves.{SameLength, FactorOf, Product, ProductAt, shortest₃, shortest₄, shortest₆, RowProduct, Room, Multiplied, ProductIn, Acted, ActedAt, RowAction};

use pauli::ComplexSign;
use std::num::wrapping_add_u64;

// What the product of two rows brings beside its words: the exponent of i, and the number of qubits at which the Paulis differ and neither is
// I. The number is exact up to 65,535 and wraps above, which rows of 64 words are far from.
#[derive(Drop)]
pub struct Factor {
    pub phase: ComplexSign,
    pub clashes: u16,
}

// The sum of three exponents of i, mod 4.
pub fn add_signs(a: ComplexSign, b: ComplexSign, e: ComplexSign) -> ComplexSign
    ensures { result.0 ≡ (a.0 + b.0 + e.0) % 4 }
{
    ComplexSign(((a.0 as u16 + b.0 as u16 + e.0 as u16) % 4) as u8)
}

// How many bits of x are set.
pub fn count(x: u64) -> u64
    ensures { (result ≡ count_ones x) × (result ≤ 64) }
{
    u64::count_ones(x) as u64
}

// The exponent of i of the product of two words of 64 Paulis.
#[unsafe(no_mangle)]
pub extern "C" fn mul_op_op_phase_u64(lx: u64, lz: u64, rx: u64, rz: u64) -> u64
    ensures { result ≡ phases (word 64 lx lz) (word 64 rx rz) % 4 }
{
    let one = count((lx & !lz & rx & rz) | (!lx & lz & rx & !rz) | (lx & lz & !rx & rz));
    let three = count((lx & lz & rx & !rz) | (lx & !lz & !rx & rz) | (!lx & lz & rx & rz));
    (one + 3 * three) % 4
}

// The exponent of i of a word of 64 Paulis on a basis state: 1 for each Y, and 2 more for each Y or Z on a 1.
#[unsafe(no_mangle)]
pub extern "C" fn mul_op_state_phase_u64(lx: u64, lz: u64, r: u64) -> u64
    ensures { result ≡ act_phase (word 64 lx lz) (bits 64 r) % 4 }
{
    let y = count(lx & lz);
    let flips = count(lz & r);
    (y + 2 * flips) % 4
}

// To n is added the number of qubits of a word at which the Paulis differ and neither is I.
pub fn add_clashes(n: u64, lx: u64, lz: u64, rx: u64, rz: u64) -> u64
    ensures { result ≡ (n + clashes (word 64 lx lz) (word 64 rx rz)) % 2 ^ 64 }
{
    wrapping_add_u64(n, count((lx & rz) ^ (lz & rx)))
}

// In f the bits of the qubits whose product brings 3 are turned over. Clashes bring 1 or 3, so twice the ones of f is what they bring beside
// their number, mod 4.
pub fn turn_threes(f: u64, lx: u64, lz: u64, rx: u64, rz: u64) -> u64
    ensures { (2 * count_ones result + clashes (word 64 lx lz) (word 64 rx rz)) % 4
        ≡ (2 * count_ones f + phases (word 64 lx lz) (word 64 rx rz)) % 4 }
{
    f ^ (((lx ^ rx) ^ (lz ^ rz) ^ (lx & rz)) & ((lx & rz) ^ (lz & rx)))
}

// The factor, when n clashes are counted and f holds the turned bits.
pub fn factor_from(n: u64, f: u64) -> Factor
    ensures { (result.phase.0 ≡ (n + 2 * count_ones f) % 4) × (result.clashes ≡ n % 65536) }
{
    let e = (n % 4 + 2 * count(f)) % 4;
    Factor {
        phase: ComplexSign(e as u8),
        clashes: (n % 65536) as u16,
    }
}

pub fn shortest(a: &[u64], b: &[u64], c: &[u64], d: &[u64]) -> usize
    ensures { result ≡ shortest₄ a.now b.now c.now d.now }
{
    a.len().min(b.len().min(c.len().min(d.len())))
}

// The factor of the product of two rows, nothing written: the exponent, which the name has from the Rust, and the number of clashes with it. One
// count a word and an exclusive or: such a loop is compiled for several words at once. Here and below the parts of a row go slice by slice: a field of a
// struct gives a proof no bound on its words, which these laws ask for.
pub fn mul_op_op_phase(lx: &[u64], lz: &[u64], rx: &[u64], rz: &[u64]) -> Factor
    ensures { FactorOf (unpack lx.now lz.now) (unpack rx.now rz.now) result }
{
    let k = shortest(lx, lz, rx, rz);
    let mut n: u64 = 0;
    let mut f: u64 = 0;
    for i in 0..k {
        let a = lx[i];
        let b = lz[i];
        let c = rx[i];
        let d = rz[i];
        n = add_clashes(n, a, b, c, d);
        f = turn_threes(f, a, b, c, d);
    }
    factor_from(n, f)
}

// Whether two rows commute: the number of clashes is even.
pub fn commutes(lx: &[u64], lz: &[u64], rx: &[u64], rz: &[u64]) -> bool
    ensures { result ≡ (clashes (unpack lx.now lz.now) (unpack rx.now rz.now) % 2 == 0) }
{
    let f = mul_op_op_phase(lx, lz, rx, rz);
    f.clashes % 2 == 0
}

// The product of two rows of the same length goes into a third place, and its factor is returned.
fn mul_row(lx: &[u64], lz: &[u64], rx: &[u64], rz: &[u64], ox: &mut [u64], oz: &mut [u64]) -> Factor
    requires { SameLength (length lx.now) lx.now lz.now rx.now rz.now ox.old oz.old }
    ensures { Product lx.now lz.now rx.now rz.now ox.new oz.new result }
{
    let mut n: u64 = 0;
    let mut f: u64 = 0;
    for i in 0..lx.len() {
        let a = lx[i];
        let b = lz[i];
        let c = rx[i];
        let d = rz[i];
        n = add_clashes(n, a, b, c, d);
        f = turn_threes(f, a, b, c, d);
        ox[i] = a ^ c;
        oz[i] = b ^ d;
    }
    factor_from(n, f)
}

// The same at the first k words of each of the six parts.
fn mul_first(
    k: usize,
    lx: &[u64],
    lz: &[u64],
    rx: &[u64],
    rz: &[u64],
    ox: &mut [u64],
    oz: &mut [u64],
) -> Factor
    requires { k ≡ shortest₆ lx.now lz.now rx.now rz.now ox.old oz.old }
    ensures { ProductAt 0 k lx.now lz.now rx.now rz.now ox.old oz.old
        ox.new oz.new result }
{
    mul_row(
        &lx[0..k],
        &lz[0..k],
        &rx[0..k],
        &rz[0..k],
        &mut ox[0..k],
        &mut oz[0..k],
    )
}

// The product of two rows is written into a third part, and its factor returned.
pub fn mul_op_op(
    lx: &[u64],
    lz: &[u64],
    rx: &[u64],
    rz: &[u64],
    ox: &mut [u64],
    oz: &mut [u64],
) -> Factor
    ensures { RowProduct lx.now lz.now rx.now rz.now ox.old oz.old
        ox.new oz.new result }
{
    let k = lx.len().min(lz.len().min(shortest(rx, rz, ox, oz)));
    mul_first(k, lx, lz, rx, rz, ox, oz)
}

// Whether the w words from s on lie within both slices.
fn lies(s: usize, w: usize, x: usize, z: usize) -> bool
    ensures { result ≡ (nat_le (s + w) x && nat_le (s + w) z) }
{
    s.checked_add(w).is_some_and(|e| e <= x && e <= z)
}

// Whether w words from s on and from t on are the same or do not overlap.
fn apart(s: usize, t: usize, w: usize) -> bool
    requires { (s + w < 2 ^ 64) × (t + w < 2 ^ 64) }
    ensures { result ≡ (s == t || (nat_le (s + w) t || nat_le (t + w) s)) }
{
    s == t || s + w <= t || t + w <= s
}

// Words are read from t on and written from s on, w of them.
fn imul_row(x: &mut [u64], z: &mut [u64], s: usize, t: usize, w: usize) -> Factor
    requires { Room w s t x.old z.old }
    ensures { Multiplied w s t x.old z.old x.new z.new result }
{
    let mut n: u64 = 0;
    let mut f: u64 = 0;
    for i in 0..w {
        let a = s + i;
        let b = t + i;
        let lx = x[a];
        let lz = z[a];
        let rx = x[b];
        let rz = z[b];
        n = add_clashes(n, lx, lz, rx, rz);
        f = turn_threes(f, lx, lz, rx, rz);
        x[a] = lx ^ rx;
        z[a] = lz ^ rz;
    }
    factor_from(n, f)
}

// A row is multiplied in place by another of the same set, w words from s on by w words from t on; where these do not lie inside, or
// overlap, nothing is done.
pub fn imul_op_op(x: &mut [u64], z: &mut [u64], s: usize, t: usize, w: usize) -> Factor
    ensures { ProductIn w s t x.old z.old x.new z.new result }
{
    if lies(s, w, x.len(), z.len()) && lies(t, w, x.len(), z.len()) && apart(s, t, w) {
        return imul_row(x, z, s, t, w);
    }
    Factor {
        phase: ComplexSign(0),
        clashes: 0,
    }
}

// A row acts on a basis state of the same length, which is changed in place; the exponent is returned.
fn act_row(lx: &[u64], lz: &[u64], st: &mut [u64]) -> ComplexSign
    requires { (length lz.now ≡ length lx.now) × (length st.old ≡ length lx.now) }
    ensures { Acted lx.now lz.now st.old st.new result.0 }
{
    let mut e: u64 = 0;
    for i in 0..lx.len() {
        let a = lx[i];
        let b = lz[i];
        let r = st[i];
        e += mul_op_state_phase_u64(a, b, r);
        st[i] = a ^ r;
    }
    ComplexSign((e % 4) as u8)
}

// The same at the first k words of each part.
fn act_first(k: usize, lx: &[u64], lz: &[u64], st: &mut [u64]) -> ComplexSign
    requires { k ≡ shortest₃ lx.now lz.now st.old }
    ensures { ActedAt k lx.now lz.now st.old st.new result.0 }
{
    act_row(&lx[0..k], &lz[0..k], &mut st[0..k])
}

// A row acts on a lent basis state, which is changed in place; the exponent is returned.
pub fn imul_op_state(lx: &[u64], lz: &[u64], st: &mut [u64]) -> ComplexSign
    ensures { RowAction lx.now lz.now st.old st.new result.0 }
{
    let k = lx.len().min(lz.len().min(st.len()));
    act_first(k, lx, lz, st)
}
