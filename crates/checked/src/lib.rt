// Sums, differences and products of i64, none where they leave it; the complex products made of them; and a running sum over pairs.

#![tactic(auto)]

ghost use Rattle.std.specs.Prelude.{◌≡◌, ◌+ℤ◌, ◌-ℤ◌, ◌*ℤ◌};
ghost use Rattle.checked.specs.Range.{gauss};
ghost use Rattle.checked.specs.Workers.{checked, sum_of_products, difference_of_products, number_of, checked_product};
ghost use Rattle.checked.specs.Workers.{checked_conjugate, checked_sum, checked_pair, plus_checked};

// A complex number, of whole numbers or of floats.
#[derive(Clone, Copy, Debug, PartialEq, Eq)]
pub struct Complex<T> {
    pub re: T,
    pub im: T,
}

fn product(a: i64, b: i64) -> Option<i64>
    ensures { result ≡ checked (a *ℤ b) }
{
    a.checked_mul(b)
}

fn sum(a: i64, b: i64) -> Option<i64>
    ensures { result ≡ checked (a +ℤ b) }
{
    a.checked_add(b)
}

fn difference(a: i64, b: i64) -> Option<i64>
    ensures { result ≡ checked (a -ℤ b) }
{
    a.checked_sub(b)
}

// a b + c d
fn sum_of_products(a: i64, b: i64, c: i64, d: i64) -> Option<i64>
    ensures { result ≡ sum_of_products a b c d }
{
    sum(product(a, b)?, product(c, d)?)
}

// a b - c d
fn difference_of_products(a: i64, b: i64, c: i64, d: i64) -> Option<i64>
    ensures { result ≡ difference_of_products a b c d }
{
    difference(product(a, b)?, product(c, d)?)
}

fn complex_product(u: Complex<i64>, v: Complex<i64>) -> Option<Complex<i64>>
    ensures { result ≡ checked_product (number_of u) (number_of v) }
{
    Some(Complex {
        re: difference_of_products(u.re, v.re, u.im, v.im)?,
        im: sum_of_products(u.re, v.im, u.im, v.re)?,
    })
}

// The product of two i32.
fn small_product(a: i32, b: i32) -> i64
    ensures { result ≡ a *ℤ b }
{
    i64::from(a) * i64::from(b)
}

// a b - c d of i32 parts, which never leaves i64.
fn small_difference(a: i32, b: i32, c: i32, d: i32) -> i64
    ensures { result ≡ a *ℤ b -ℤ c *ℤ d }
{
    small_product(a, b) - small_product(c, d)
}

// a b + c d of i32 parts.
fn small_sum(a: i32, b: i32, c: i32, d: i32) -> Option<i64>
    ensures { result ≡ checked (a *ℤ b +ℤ c *ℤ d) }
{
    sum(small_product(a, b), small_product(c, d))
}

// (a - b i) (c + d i) of i32 parts: of its six numbers the real sum alone can leave i64.
fn conjugate_product(a: i32, b: i32, c: i32, d: i32) -> Option<Complex<i64>>
    ensures { result ≡ checked_conjugate (gauss a b) (gauss c d) }
{
    Some(Complex {
        re: small_sum(a, c, b, d)?,
        im: small_difference(a, d, b, c),
    })
}

fn complex_sum(u: Complex<i64>, v: Complex<i64>) -> Option<Complex<i64>>
    ensures { result ≡ checked_sum (number_of u) (number_of v) }
{
    Some(Complex {
        re: sum(u.re, v.re)?,
        im: sum(u.im, v.im)?,
    })
}

// (a - b i) (c + d i) e: twelve numbers
fn pair(a: i32, b: i32, c: i32, d: i32, e: Complex<i64>) -> Option<Complex<i64>>
    ensures { result ≡ checked_pair (gauss a b) (gauss c d) (number_of e) }
{
    complex_product(conjugate_product(a, b, c, d)?, e)
}

// The running sum with one pair more: bra a + b i, ket c + d i, element e.
pub fn add_pair(
    s: Option<Complex<i64>>,
    a: i32,
    b: i32,
    c: i32,
    d: i32,
    e: Complex<i64>,
) -> Option<Complex<i64>>
    ensures { result ≡ plus_checked s (checked_pair (gauss a b) (gauss c d) (number_of e)) }
{
    complex_sum(s?, pair(a, b, c, d, e)?)
}
