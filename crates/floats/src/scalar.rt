// Rust's helpers on f64, bit for bit: `is_finite`, `abs`, `min`, `max`, `clamp(0.0, 1.0)`, and the tests that a length or an area is above
// zero and that a parameter lies in 0..1. Last, whether two values have the same bits.
// specs/Scalar.antt says what each gives for a NaN and for zeros of either sign.
ghost use Rattle.std.specs.Prelude.{◌≡◌, true};
ghost use Rattle.floats.specs.Scalar.{is_finite, is_positive, float_abs, float_min, float_max, clamp_unit, in_unit};

// stays: std's `is_finite` subtracts and compares, and a loop of it takes a quarter longer
#[tactic(auto, using(crate::proofs::scalar::Laws::finite_between))]
pub fn is_finite(x: f64) -> bool
    ensures { result ≡ is_finite x }
{
    x < f64::INFINITY && f64::NEG_INFINITY < x
}

// Finite and above zero: a NaN fails by itself.
#[tactic(auto, using(crate::proofs::scalar::Order::positive_is))]
pub fn is_positive(x: f64) -> bool
    ensures { result ≡ is_positive x }
{
    0.0 < x && x < f64::INFINITY
}

#[tactic(auto, using(crate::proofs::scalar::Laws::abs_is))]
pub fn abs(x: f64) -> f64
    ensures { result ≡ float_abs x }
{
    x.abs()
}

// stays: std's `min` may give either of two equal zeros
#[tactic(auto, using(crate::proofs::scalar::Laws::nan_differs_alone), unfolding(crate::specs::Scalar::float_min))]
pub fn min(a: f64, b: f64) -> f64
    ensures { result ≡ float_min a b }
{
    if b < a || a.is_nan() { b } else { a }
}

// stays: std's `max` may give either of two equal zeros
#[tactic(auto, using(crate::proofs::scalar::Laws::nan_differs_alone), unfolding(crate::specs::Scalar::float_max))]
pub fn max(a: f64, b: f64) -> f64
    ensures { result ≡ float_max a b }
{
    if a < b || a.is_nan() { b } else { a }
}

#[tactic(auto, unfolding(crate::specs::Scalar::clamp_unit))]
pub fn clamp_unit(x: f64) -> f64
    ensures { result ≡ clamp_unit x }
{
    x.clamp(0.0, 1.0)
}

// In 0..1 or at most 1e-9 outside: a NaN and the infinities fail by themselves.
#[tactic(auto, using(crate::proofs::scalar::Order::unit_is))]
pub fn in_unit(x: f64) -> bool
    ensures { result ≡ in_unit x }
{
    -1e-9 <= x && x <= 1.0 + 1e-9
}

// Whether x and y are the same to the last bit; a NaN is the same as nothing.
#[tactic(auto, using(crate::proofs::scalar::Laws::right_not_nan))]
pub fn same_bits(x: f64, y: f64) -> bool
    ensures { result ≡ true → x ≡ y }
{
    x == y && x.to_bits() == y.to_bits()
}
