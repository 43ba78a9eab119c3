/// What passes at a port of an actor.
#[derive(Clone, Copy, Debug)]
pub enum PortType {
    /// Any one type.
    Free,
    /// Integers.
    Int,
    /// Truth values.
    Boolean,
    /// Texts.
    Words,
    /// The one type that the row of the class speaks of.
    Row,
    /// Arrays of that type.
    RowArray,
    /// What the expression of the actor gives.
    Tree,
    /// A record of what passes at the declared inputs.
    Assembled,
    /// The field of the name of the port, in the records that come in.
    Field,
}

/// What passes at the port of this name of a class of actors.
#[derive(Clone, Copy, Debug)]
pub struct PortTypeRow<N> {
    pub class: N,
    pub port: N,
    pub ty: PortType,
}

/// Which tokens of a parameter pass at ports of the type of the row.
#[derive(Clone, Copy, Debug)]
pub enum Seed {
    /// Its value.
    Whole,
    /// The elements of its value.
    Elements,
}

/// A parameter of a class whose tokens pass at its ports.
#[derive(Clone, Copy, Debug)]
pub struct SeedRow<N> {
    pub class: N,
    pub parameter: N,
    pub seed: Seed,
}
