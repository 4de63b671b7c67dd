// Lines of the logical grid whose two ends are the same parameter: they cross just there, and nothing has to be worked out.
ghost use Rattle.std.specs.Prelude.{◌≡◌, true, ◌≤◌, length};
ghost use Rattle.curves.specs.inner.Level.{Plain, Straight, Upright};

use floats::scalar::{clamp_unit, in_unit, same_bits};

// In 0..1 and not -0.
fn is_plain(x: f64) -> bool
    ensures { result ≡ true → Plain x }
{
    in_unit(x) && same_bits(clamp_unit(x), x) && x.to_bits() < 0x8000_0000_0000_0000
}

pub(crate) fn is_straight(a: f64, b: f64) -> bool
    ensures { result ≡ true → Straight a b }
{
    same_bits(a, b) && is_plain(a)
}

// Whether all lines from one seam to the other are upright.
pub(crate) fn are_upright(bottom: &[f64], top: &[f64]) -> bool
    requires { length bottom.now ≤ length top.now }
    ensures { result ≡ true → Upright bottom.now top.now }
{
    bottom.iter().zip(top).all(|(a, b)| is_straight(*a, *b))
}
