/// A child that fires several times in a row: once, and `again` times more.
#[derive(Clone, Copy, Debug, PartialEq, Eq)]
pub struct Stretch {
    pub child: u32,
    pub again: u32,
}
