/// What a link joins, by numbers in the order of the document: a port, seen from outside or from inside, and a
/// relation, or two relations.
#[derive(Clone, Copy, Debug, PartialEq, Eq)]
pub enum Wire {
    Outside { port: usize, relation: usize },
    Inside { port: usize, relation: usize },
    Bond { first: usize, second: usize },
}
