use pt_language::Expr;
use pt_value::Token;

/// What a parameter has.
#[derive(Drop)]
pub enum ParameterValue {
    /// The token that its text comes to.
    Token(Token),
    /// The tree that its text reads as, where it is evaluated only in firings.
    Tree(Expr),
    /// Its text as it is written.
    Word,
}
