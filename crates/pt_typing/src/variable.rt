/// What has a type: a port of an entity, and the row of an entity's class.
#[derive(Clone, Copy, Debug, PartialEq, Eq)]
pub enum Variable {
    Port(usize, usize),
    Row(usize),
}
