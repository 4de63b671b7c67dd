// What a round answers in the good case. The other public functions answer a number or a Boolean by itself. Where a call is refused, each answers
// the refusal. specs/Solver.antt gives each answer its number and values.

// The cost of the move made, or none; and whether any search was cut.
#[derive(Clone, Copy)]
pub struct RoundOutcome {
    pub cost: Option<f64>,
    pub cut: bool,
}
