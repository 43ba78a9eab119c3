/// What the value of a parameter has to be.
#[derive(Clone, Copy, Debug)]
pub enum Form {
    /// Any token.
    Any,
    /// A truth value.
    Truth,
    /// An integer from the one number to the other.
    Integer { least: i64, most: i64 },
    /// An array.
    Array,
    /// An array of one element at least.
    FullArray,
    /// An array of integers, the first 0 or more and each greater than the one before.
    Offsets,
    /// A tree, which is read and not evaluated.
    Tree,
    /// The name of an order, taken as it is written.
    Comparison,
    /// The name of a function of truth values, taken as it is written.
    Function,
    /// `and` or `or`, taken as it is written.
    Gate,
    /// Whatever is written: it isn't looked at.
    Ignored,
}

/// What a parameter has where it isn't given.
#[derive(Clone, Copy, Debug)]
pub enum Standard {
    /// Nothing.
    Nothing,
    /// An integer.
    Integer(i64),
    /// A truth value.
    Truth(bool),
    /// An array of one integer.
    Single(i64),
    /// The first of the texts that the form allows.
    FirstWord,
}

/// What a parameter of a class of actors or directors is.
#[derive(Clone, Copy, Debug)]
pub struct FormRow<N> {
    pub class: N,
    pub name: N,
    pub form: Form,
    pub standard: Standard,
}

pub type ParameterForm = FormRow<&'static str>;
