// The square root of an f64, correctly rounded: IEEE 754-2019, 5.4.1, to nearest, ties to even. It is found by whole numbers, in the
// standard's order: special operands (`sqrt`), the exact root taken apart (`take_apart`), one rounding (`rounded`). Most roots are found
// sooner, by a guess that whole numbers show to be right (`quick_root`).
ghost use Rattle.std.specs.Prelude.{◌≡◌, ◌+◌, ◌*◌, ◌^◌, ◌≤◌, ◌<◌, IfSome};
ghost use Rattle.std.specs.Float.{binary64};
ghost use Rattle.base.specs.Answers.{answered};
ghost use Rattle.floats.specs.Root.{root_answer, root as ieee_root, rounded as rounded_root, parted};
ghost use Rattle.floats.specs.inner.RootSteps.{apart_of, Whole, Splits, NotBelow, Normal, ToNearest};

use base::refusal::Refusal;

// The square root, or the refusal of a NaN and of a number below zero.
#[tactic(auto, using(crate::proofs::root::Special::told_nan, crate::proofs::root::Special::told_below, crate::proofs::root::Special::told_value))]
pub fn root(x: f64) -> Result<f64, Refusal>
    ensures { answered result ≡ root_answer x }
{
    if x.is_nan() || x < 0.0 {
        return Err(Refusal::RootUndefined);
    }
    Ok(sqrt(x))
}

// The square root, where a NaN and a number below zero give a NaN.
// stays: std's `sqrt` is taken from the machine; here each step is proved (specs/Root), and rest_dropped and remainder_small turn two of them
pub fn sqrt(x: f64) -> f64
    ensures { result ≡ ieee_root binary64 x }
{
    if x.is_nan() {
        return x;
    }
    let bits = x.to_bits();
    // -0, +infinity and what is below zero, by the sign and the exponent's field; then +0
    let e = bits / 0x10_0000_0000_0000;
    if e >= 2047 {
        if bits == 0x8000_0000_0000_0000 || bits == 0x7ff0_0000_0000_0000 {
            return x;
        }
        return f64::NAN;
    }
    if bits == 0 {
        return x;
    }
    let operand = Operand { bits };
    // what taking apart and rounding would return, in most cases, and sooner
    match operand.quick_root() {
        Some(y) => y,
        None => operand.take_apart().rounded(),
    }
}

// A float above zero and finite, by its bits.
#[derive(Clone, Copy)]
struct Operand {
    bits: u64,
    ghost above: { 0 < bits },
    ghost finite: { bits < 0x7ff0_0000_0000_0000 },
}

// A number of 53 binary digits, and a power of two.
#[derive(Clone, Copy)]
struct Digits {
    m: u64,
    p: u64,
}

// What stands under the root once an even power of two is out: a number of 53 or 54 binary digits.
#[derive(Clone, Copy)]
struct Scaled {
    n: u64,
    ghost lead: { 2 ^ 52 ≤ n },
    ghost full: { n < 2 ^ 54 },
}

// A whole root, and what the number has more than its square.
#[derive(Clone, Copy)]
struct Split {
    whole: u64,
    rest: u64,
}

// The exact root of a float: √(whole * whole + rest) times 2^exponent smallest floats, each 2^-1074. `whole` has 54 digits.
#[derive(Clone, Copy)]
struct Apart {
    exponent: u64,
    whole: u64,
    rest: u64,
    ghost lead: { 2 ^ 53 ≤ whole },
    ghost full: { whole < 2 ^ 54 },
    ghost reach: { exponent ≤ 1532 },
}

impl Operand {
    // The exact root, taken apart.
    fn take_apart(self) -> Apart
        ensures { parted result.exponent result.whole result.rest ≡ apart_of self.bits }
    {
        let Digits { m, p } = self.digits();
        // an even power of two comes out of the root as half of it; of an odd one, one two stays under it
        let scaled = Scaled { n: m * (1 + p % 2) };
        let Split { whole, rest } = scaled.whole_root();
        let exponent = (p - 54) / 2;
        Apart {
            exponent,
            whole,
            rest,
        }
    }

    // The digits, the leading one first, and the power of two of the float's `radicand`.
    fn digits(self) -> Digits
        ensures { Normal self.bits result.m result.p }
    {
        let e = self.bits / 0x10_0000_0000_0000;
        let t = self.bits % 0x10_0000_0000_0000;
        if e == 0 {
            let z = u64::from(t.leading_zeros() - 11);
            Digits {
                m: t << z,
                p: 1074 - z,
            }
        } else {
            Digits {
                m: t + 0x10_0000_0000_0000,
                p: e + 1073,
            }
        }
    }

    // The rounded root, where a guess shows itself right. So whatever is guessed, what is returned is what taking apart and rounding would
    // return.
    fn quick_root(self) -> Option<f64>
        ensures { IfSome result (λ r. r ≡ rounded_root binary64 (apart_of self.bits)) }
    {
        // what is below the normal numbers goes the long way
        let e = self.bits / 0x10_0000_0000_0000;
        if e == 0 {
            return None;
        }
        let m = self.bits % 0x10_0000_0000_0000 + 0x10_0000_0000_0000;
        let p = e + 1073;
        let odd = p % 2;
        let scaled = Scaled { n: m * (1 + odd) };
        let guess = guess_root(m, odd == 1);
        if guess.is_nan() {
            return None;
        }
        // the first 32 digits of the guess
        let s = guess.to_bits() / 0x20_0000 % 0x8000_0000 + 0x8000_0000;
        let d = scaled.nearest(s)?;
        let exponent = (p - 54) / 2;
        Some(f64::from_bits((exponent + 1) * 0x10_0000_0000_0000 + d))
    }
}

impl Scaled {
    // The whole part of the root of n * 2^54, of 54 digits, and the rest. s is the upper half of the digits, and one long division gives the
    // lower half, or one more (Zimmermann's Karatsuba square root). Nothing here reaches 2^64.
    fn whole_root(self) -> Split
        ensures { Splits (self.n * 2 ^ 54) result.whole result.rest }
    {
        let s = self.short_root();
        let v = (self.n - s * s) * 0x800_0000;
        let d = s * 2;
        let q = v / d;
        let u = v % d * 0x800_0000;
        let t = s * 0x800_0000 + q;
        // a number, and no branch, since no processor could guess which way it goes
        let over = u64::from(u < q * q);
        let whole = t - over;
        let back = over * (t * 2 - 1);
        let rest = u + back - q * q;
        Split { whole, rest }
    }

    // The whole part of the root of n, of 27 digits. The first guess, by a parabola, is 6 parts in 1000 off at most, and two steps bring it
    // to the root or to one more. How good the guess is matters to the speed alone.
    fn short_root(self) -> u64
        ensures { Whole self.n result }
    {
        let t = self.n / 0x400_0000;
        let slope = 34558 - t * 2608 / 0x400_0000;
        let guess = 34714748 + t * slope / 0x1_0000;
        let mut r = self.newton_step(self.newton_step(guess));
        // stays: a search, which seldom takes a step, and no count over a range
        while self.n < r * r {
            r -= 1;
        }
        r
    }

    // One step of Newton's iteration for the root of n. From any r the next is not below the root.
    fn newton_step(self, r: u64) -> u64
        requires { (2 ^ 25 ≤ r) × (r ≤ 2 ^ 29) }
        ensures { NotBelow self.n result }
    {
        (r + self.n / r) / 2
    }

    // The whole number nearest to the root of n * 2^52, found if s is its first 32 digits or one less. One division gives the other 21
    // digits, to the nearest. Their square could turn the rounding only where the remainder is small, which is not found either: about
    // once in 600.
    fn nearest(self, s: u64) -> Option<u64>
        requires { (2 ^ 31 ≤ s) × (s < 2 ^ 32) }
        ensures { IfSome result (λ d. ToNearest self.n d) }
    {
        let whole = self.n * 0x400;
        let square = s * s;
        // stays: `checked_sub` makes a root 3 % slower
        if whole < square {
            return None;
        }
        let left = whole - square;
        if left >= s * 4 {
            return None;
        }
        let v = left * 0x20_0000 + s;
        let d = s * 2;
        let q = v / d;
        let u = v % d;
        if u < 0x80_0000 {
            return None;
        }
        Some(s * 0x20_0000 + q)
    }
}

impl Apart {
    // Rounded once: of the 54 digits of the whole part 53 are kept, and the last one and the rest say which way. At a tie the even one is
    // taken. Where the 53 digits run over into a 54th, the carry runs into the exponent's field, as it should.
    fn rounded(self) -> f64
        ensures { result ≡ rounded_root binary64 (parted self.exponent self.whole self.rest) }
    {
        let s = self.whole;
        let q = s / 2;
        // what is added if the last digit is 1: numbers, and no branch, as in `whole_root`
        let up = if self.rest > 0 { 1 } else { q % 2 };
        let d = q + s % 2 * up;
        f64::from_bits((self.exponent + 1) * 0x10_0000_0000_0000 + d)
    }
}

// The root of m / 2^52, or of twice that if `odd`, from 1 to 2, or a little less: a polynomial of degree 4 and one step of Newton's. How
// good it is matters to the speed alone.
#[tactic(auto, using(std::proofs::lemmas::Float::not_nan_f64_bits))]
fn guess_root(m: u64, odd: bool) -> f64
    requires { m < 2 ^ 53 }
{
    let x = f64::from_bits(m + 0x3fe0_0000_0000_0000);
    let xx = x * x;
    let y = 0.324122713
        + 0.919252806 * x
        + xx * (0.0883708443 * x - 0.321033368 - 0.0107037313 * xx);
    // a half, or half the root of 2, and a little less
    let half = if odd { 0.70710678116 } else { 0.49999999998 };
    half * y + half * x / y
}
