// What belongs to each side of a region or patch: bottom 0, right 1, top 2, left 3.

#[derive(Clone, Copy)]
pub struct Sides<T> {
    pub bottom: T,
    pub right: T,
    pub top: T,
    pub left: T,
}
