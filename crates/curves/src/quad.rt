// The quads of a grid: their area, their test (25), and what an output holds in their place once one is refused.
ghost use Rattle.std.specs.Prelude.{◌≡◌, ◌≤◌, length};
ghost use Rattle.base.specs.Refusal.{outcome};
ghost use Rattle.base.specs.Buffers.{splice};
ghost use Rattle.floats.specs.Scalar.{is_positive};
ghost use Rattle.curves.specs.Point.{signed_area};
ghost use Rattle.curves.specs.Quad.{zeros};
ghost use Rattle.curves.specs.Grid.{area_test};

use crate::point::{Point, cross_product};
use base::refusal::Refusal;
use floats::scalar::is_positive;

// By its corners, counter-clockwise from its lower left.
#[derive(Clone, Copy)]
pub(crate) struct Quad {
    pub(crate) lower_left: Point,
    pub(crate) lower_right: Point,
    pub(crate) upper_right: Point,
    pub(crate) upper_left: Point,
}

impl Quad {
    // Above zero where the corners run counter-clockwise.
    #[tactic(auto, unfolding(crate::specs::Point::signed_area))]
    pub(crate) fn signed_area(self) -> f64
        ensures { result ≡ signed_area self.lower_left self.lower_right self.upper_right self.upper_left }
    {
        let mut twice = 0.0;
        twice += cross_product(self.lower_left, self.lower_right);
        twice += cross_product(self.lower_right, self.upper_right);
        twice += cross_product(self.upper_right, self.upper_left);
        twice += cross_product(self.upper_left, self.lower_left);
        0.5 * twice
    }

    // Whether it has an area, finite and above zero.
    pub(crate) fn has_area(self) -> bool
        ensures { result ≡ is_positive (signed_area self.lower_left self.lower_right self.upper_right self.upper_left) }
    {
        is_positive(self.signed_area())
    }

    // 25, where it stands at i, j.
    #[tactic(auto, unfolding(base::specs::Refusal::verdict_of, crate::specs::Quad::quad_test))]
    pub(crate) fn check(self, i: u32, j: u32) -> Result<(), Refusal>
        ensures { outcome result ≡ area_test self i j }
    {
        if self.has_area() {
            return Ok(());
        }
        Err(Refusal::BadQuadArea(i, j))
    }
}

// Writes n zeros.
pub(crate) fn clear(n: usize, out: &mut [f64])
    requires { n ≤ length out.old }
    ensures { out.new ≡ splice out.old 0 (zeros n) }
{
    out[..n].fill(0.0);
}
