// Matrix elements with coefficients of two whole numbers.
ghost use Rattle.std.specs.Prelude.{◌≡◌, length, bit_xor, refl};
ghost use Rattle.mat_elem.specs.Workers.{Ready, reaches};
ghost use Rattle.mat_elem.specs.Numbers.{wholes};
ghost use Rattle.mat_elem.specs.whole.Laws.{zero_reaches, minus_reaches, plus_reaches};
ghost use Rattle.mat_elem.specs.whole.Sums.{block_sum, MatElem};

use crate::number::Number;
use crate::{Place, Terms};

// A complex whole number.
pub type Complex = checked::Complex<i64>;

// What the call answers.
pub type Element = crate::number::Element<i64>;

// Sums are exact: there are at most 65,536 parts of an i32 in one.
impl Number for i64 {
    type Part = i32;

    ghost arithmetic = { wholes };

    ghost reaches = { reaches };

    fn widen(part: i32) -> i64 {
        i64::from(part)
    }

    fn zero() -> i64 {
        0
    }

    fn minus(self) -> i64 {
        -self
    }

    fn plus(self, other: i64) -> i64 {
        self + other
    }

    fn ring(place: usize, a: i64, b: i64, c: i64, d: i64) -> Complex {
        let four = [a, b, c, d];
        Complex {
            re: four[place],
            im: four[(place + 3) % 4],
        }
    }

    fn is_sound(self) -> bool {
        true
    }

    ghost zero_sound = { refl };

    ghost zero_reaches = { zero_reaches };

    ghost minus_reaches = { minus_reaches };

    ghost plus_reaches = { plus_reaches };
}

// The element between bra and ket, of terms that were tested: 0 where there is no block. The block is looked for at the guess first.
pub(crate) fn pair_element(terms: &Terms<'_, i32>, bra: u64, ket: u64, guess: Place) -> Complex
    requires { Ready terms.now.x.now (length terms.now.z.now) (length terms.now.re.now) (length terms.now.im.now) }
    ensures { result ≡ block_sum terms.now.x.now terms.now.z.now terms.now.re.now terms.now.im.now (bit_xor bra ket) ket }
{
    let p = crate::block(terms.x, bra ^ ket, guess);
    crate::number::block_sum::<i64>(terms, ket, p.first, p.last).unwrap()
}

// The matrix element of the terms between bra and ket.
pub fn mat_elem_cmpnts_from_presorted(
    n: usize,
    x: &[u64],
    z: &[u64],
    re: &[i32],
    im: &[i32],
    bra: u64,
    ket: u64,
) -> Element
    ensures { MatElem n (x.now) (z.now) (re.now) (im.now) bra ket result }
{
    crate::number::element_between::<i64>(n, &Terms { x, z, re, im }, bra, ket)
}
