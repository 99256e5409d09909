// The exponent of the product of two rows by a table, two qubits at a time: an engine for chips that have no instruction for counting ones.

#![tactic(auto)]

ghost use Rattle.std.specs.Prelude.{◌≡◌, ◌+◌, ◌*◌, ◌-◌, ◌%◌, ◌<◌, ◌≤◌};
ghost use Rattle.pauli.specs.Pauli.{phases};
ghost use Rattle.encoding.specs.Words.{word};
ghost use Rattle.table.specs.Table.{lookups, table_phase};
ghost use Rattle.table.specs.Workers.{rule_at, Ruled};

use pauli::ComplexSign;

// The exponents of the products of two qubits by two qubits. Two bits each of lx, lz, rx and rz make the place, those of rz lowest.
const TABLE: [u8; 256] = [
    0, // II II
    0, // II ZI
    0, // II IZ
    0, // II ZZ
    0, // II XI
    0, // II YI
    0, // II XZ
    0, // II YZ
    0, // II IX
    0, // II ZX
    0, // II IY
    0, // II ZY
    0, // II XX
    0, // II YX
    0, // II XY
    0, // II YY
    0, // ZI II
    0, // ZI ZI
    0, // ZI IZ
    0, // ZI ZZ
    1, // ZI XI
    3, // ZI YI
    1, // ZI XZ
    3, // ZI YZ
    0, // ZI IX
    0, // ZI ZX
    0, // ZI IY
    0, // ZI ZY
    1, // ZI XX
    3, // ZI YX
    1, // ZI XY
    3, // ZI YY
    0, // IZ II
    0, // IZ ZI
    0, // IZ IZ
    0, // IZ ZZ
    0, // IZ XI
    0, // IZ YI
    0, // IZ XZ
    0, // IZ YZ
    1, // IZ IX
    1, // IZ ZX
    3, // IZ IY
    3, // IZ ZY
    1, // IZ XX
    1, // IZ YX
    3, // IZ XY
    3, // IZ YY
    0, // ZZ II
    0, // ZZ ZI
    0, // ZZ IZ
    0, // ZZ ZZ
    1, // ZZ XI
    3, // ZZ YI
    1, // ZZ XZ
    3, // ZZ YZ
    1, // ZZ IX
    1, // ZZ ZX
    3, // ZZ IY
    3, // ZZ ZY
    2, // ZZ XX
    0, // ZZ YX
    0, // ZZ XY
    2, // ZZ YY
    0, // XI II
    3, // XI ZI
    0, // XI IZ
    3, // XI ZZ
    0, // XI XI
    1, // XI YI
    0, // XI XZ
    1, // XI YZ
    0, // XI IX
    3, // XI ZX
    0, // XI IY
    3, // XI ZY
    0, // XI XX
    1, // XI YX
    0, // XI XY
    1, // XI YY
    0, // YI II
    1, // YI ZI
    0, // YI IZ
    1, // YI ZZ
    3, // YI XI
    0, // YI YI
    3, // YI XZ
    0, // YI YZ
    0, // YI IX
    1, // YI ZX
    0, // YI IY
    1, // YI ZY
    3, // YI XX
    0, // YI YX
    3, // YI XY
    0, // YI YY
    0, // XZ II
    3, // XZ ZI
    0, // XZ IZ
    3, // XZ ZZ
    0, // XZ XI
    1, // XZ YI
    0, // XZ XZ
    1, // XZ YZ
    1, // XZ IX
    0, // XZ ZX
    3, // XZ IY
    2, // XZ ZY
    1, // XZ XX
    2, // XZ YX
    3, // XZ XY
    0, // XZ YY
    0, // YZ II
    1, // YZ ZI
    0, // YZ IZ
    1, // YZ ZZ
    3, // YZ XI
    0, // YZ YI
    3, // YZ XZ
    0, // YZ YZ
    1, // YZ IX
    2, // YZ ZX
    3, // YZ IY
    0, // YZ ZY
    0, // YZ XX
    1, // YZ YX
    2, // YZ XY
    3, // YZ YY
    0, // IX II
    0, // IX ZI
    3, // IX IZ
    3, // IX ZZ
    0, // IX XI
    0, // IX YI
    3, // IX XZ
    3, // IX YZ
    0, // IX IX
    0, // IX ZX
    1, // IX IY
    1, // IX ZY
    0, // IX XX
    0, // IX YX
    1, // IX XY
    1, // IX YY
    0, // ZX II
    0, // ZX ZI
    3, // ZX IZ
    3, // ZX ZZ
    1, // ZX XI
    3, // ZX YI
    0, // ZX XZ
    2, // ZX YZ
    0, // ZX IX
    0, // ZX ZX
    1, // ZX IY
    1, // ZX ZY
    1, // ZX XX
    3, // ZX YX
    2, // ZX XY
    0, // ZX YY
    0, // IY II
    0, // IY ZI
    1, // IY IZ
    1, // IY ZZ
    0, // IY XI
    0, // IY YI
    1, // IY XZ
    1, // IY YZ
    3, // IY IX
    3, // IY ZX
    0, // IY IY
    0, // IY ZY
    3, // IY XX
    3, // IY YX
    0, // IY XY
    0, // IY YY
    0, // ZY II
    0, // ZY ZI
    1, // ZY IZ
    1, // ZY ZZ
    1, // ZY XI
    3, // ZY YI
    2, // ZY XZ
    0, // ZY YZ
    3, // ZY IX
    3, // ZY ZX
    0, // ZY IY
    0, // ZY ZY
    0, // ZY XX
    2, // ZY YX
    1, // ZY XY
    3, // ZY YY
    0, // XX II
    3, // XX ZI
    3, // XX IZ
    2, // XX ZZ
    0, // XX XI
    1, // XX YI
    3, // XX XZ
    0, // XX YZ
    0, // XX IX
    3, // XX ZX
    1, // XX IY
    0, // XX ZY
    0, // XX XX
    1, // XX YX
    1, // XX XY
    2, // XX YY
    0, // YX II
    1, // YX ZI
    3, // YX IZ
    0, // YX ZZ
    3, // YX XI
    0, // YX YI
    2, // YX XZ
    3, // YX YZ
    0, // YX IX
    1, // YX ZX
    1, // YX IY
    2, // YX ZY
    3, // YX XX
    0, // YX YX
    0, // YX XY
    1, // YX YY
    0, // XY II
    3, // XY ZI
    1, // XY IZ
    0, // XY ZZ
    0, // XY XI
    1, // XY YI
    1, // XY XZ
    2, // XY YZ
    3, // XY IX
    2, // XY ZX
    0, // XY IY
    3, // XY ZY
    3, // XY XX
    0, // XY YX
    0, // XY XY
    1, // XY YY
    0, // YY II
    1, // YY ZI
    1, // YY IZ
    2, // YY ZZ
    3, // YY XI
    0, // YY YI
    0, // YY XZ
    1, // YY YZ
    3, // YY IX
    0, // YY ZX
    0, // YY IY
    1, // YY ZY
    2, // YY XX
    3, // YY YX
    3, // YY XY
    0, // YY YY
];

// The look-ups that a word takes.
const PER_WORD: usize = 32;

// Where the two lowest qubits stand in the table.
fn place(lx: u64, lz: u64, rx: u64, rz: u64) -> usize
    ensures { result ≡ ((lx % 4 * 4 + lz % 4) * 4 + rx % 4) * 4 + rz % 4 }
{
    (((lx % 4 * 4 + lz % 4) * 4 + rx % 4) * 4 + rz % 4) as usize
}

// The entry at k of a table that follows the rule.
fn entry(t: &[u8; 256], k: usize) -> u8
    requires { (k < 256) × Ruled t.now }
    ensures { result ≡ rule_at k }
{
    t[k]
}

// The exponent of the product of the two lowest qubits.
fn look(t: &[u8; 256], lx: u64, lz: u64, rx: u64, rz: u64) -> u8
    requires { Ruled t.now }
    ensures { result ≡ phases (word 2 lx lz) (word 2 rx rz) % 4 }
{
    entry(t, place(lx, lz, rx, rz))
}

// The exponent of the product of the 2 k lowest qubits.
fn look_word(t: &[u8; 256], k: usize, lx: u64, lz: u64, rx: u64, rz: u64) -> u8
    requires { Ruled t.now }
    ensures { result ≡ phases (word (k + k) lx lz) (word (k + k) rx rz) % 4 }
{
    let mut a = lx;
    let mut b = lz;
    let mut c = rx;
    let mut d = rz;
    let mut e: u8 = 0;
    for done in 0..k {
        e = (e + look(t, a, b, c, d)) % 4;
        a /= 4;
        b /= 4;
        c /= 4;
        d /= 4;
    }
    e
}

// How many of the look-ups that are left fall into the next word.
fn in_word(left: usize) -> usize
    ensures { (result ≤ left) × (result ≤ 32) × (left ≤ result + (left - 32)) }
{
    left.min(PER_WORD)
}

// n/2 rounded up.
fn rounds(n: usize) -> usize
    ensures { result ≡ lookups n }
{
    n.div_ceil(2)
}

// The same of two rows: n/2 rounded up look-ups, up to the end of the shortest part.
fn look_row(t: &[u8; 256], n: usize, lx: &[u64], lz: &[u64], rx: &[u64], rz: &[u64]) -> u8
    requires { Ruled t.now }
    ensures { result ≡ table_phase n lx.now lz.now rx.now rz.now }
{
    let m = products::shortest(lx, lz, rx, rz);
    let mut left = rounds(n);
    let mut e: u8 = 0;
    for i in 0..m {
        let k = in_word(left);
        e = (e + look_word(t, k, lx[i], lz[i], rx[i], rz[i])) % 4;
        left -= k;
    }
    e
}

// The exponent of the product of two rows of n qubits. Where n is odd, the last look-up has one qubit past n. The table is lent down from here: a
// constant is made where it is named, so that naming it at each look-up would make it each time.
pub fn mul_op_op_phase_by_table(
    n: usize,
    lx: &[u64],
    lz: &[u64],
    rx: &[u64],
    rz: &[u64],
) -> ComplexSign
    ensures { result.0 ≡ table_phase n lx.now lz.now rx.now rz.now }
{
    ComplexSign(look_row(&TABLE, n, lx, lz, rx, rz))
}
