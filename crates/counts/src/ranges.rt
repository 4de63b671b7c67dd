// A least and a most for each edge, of which the solver is lent two lists.
#[derive(Clone, Copy)]
pub struct Ranges<'a> {
    pub least: &'a [f64],
    pub most: &'a [f64],
}
