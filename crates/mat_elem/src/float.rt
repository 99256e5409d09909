// Matrix elements with coefficients of two f64.
ghost use Rattle.std.specs.Prelude.{◌≡◌, ⊤, refl};
ghost use Rattle.std.specs.Float.Ieee.Scale as Scale;
ghost use Rattle.mat_elem.specs.Numbers.{floats};
ghost use Rattle.mat_elem.specs.float.Product.{MatElem};

use crate::Terms;
use crate::number::Number;

// A complex number.
pub type Complex = checked::Complex<f64>;

// What the call answers.
pub type Element = crate::number::Element<f64>;

// Neither a NaN nor an infinity.
fn finite(x: f64) -> bool
    ensures { result ≡ Scale.finite x }
{
    let inf = 1.0f64 / 0.0;
    (x < inf) & (-inf < x)
}

// Each operation is rounded once; a sum is sound where it is finite.
impl Number for f64 {
    type Part = f64;

    ghost arithmetic = { floats };

    ghost reaches = { λ n a. ⊤ };

    fn widen(part: f64) -> f64 {
        part
    }

    fn zero() -> f64 {
        0.0
    }

    fn minus(self) -> f64 {
        -self
    }

    fn plus(self, other: f64) -> f64 {
        self + other
    }

    fn ring(place: usize, a: f64, b: f64, c: f64, d: f64) -> Complex {
        let four = [a, b, c, d];
        Complex {
            re: four[place],
            im: four[(place + 3) % 4],
        }
    }

    fn is_sound(self) -> bool {
        finite(self)
    }

    ghost zero_sound = { refl };

    ghost zero_reaches = { λ n. tt };

    ghost minus_reaches = { λ a p. tt };

    ghost plus_reaches = { λ n a b p q. tt };
}

// The matrix element of the terms between bra and ket.
pub fn mat_elem_cmpnts_from_presorted(
    n: usize,
    x: &[u64],
    z: &[u64],
    re: &[f64],
    im: &[f64],
    bra: u64,
    ket: u64,
) -> Element
    ensures { MatElem n (x.now) (z.now) (re.now) (im.now) bra ket result }
{
    crate::number::element_between::<f64>(n, &Terms { x, z, re, im }, bra, ket)
}
