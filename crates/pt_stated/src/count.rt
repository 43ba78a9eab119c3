ghost use Rattle.std.specs.Prelude.{◌≡◌};
ghost use Rattle.pt_stated.specs.Numbers as spec;

use pt_value::Token;

/// The most tokens that a channel has room for, and the most of one firing on a port.
const MOST_TOKENS: i64 = 1_000_000;

/// An integer from 1 to 1,000,000 as a number of tokens, and 0 for another.
pub fn count(number: i64) -> usize
    ensures { result ≡ spec.count number }
{
    if 1 <= number && number <= MOST_TOKENS {
        number.unsigned_abs() as usize
    } else {
        0
    }
}

pub fn count_of(token: &Token) -> usize
    ensures { result ≡ spec.count_of token.now }
{
    match token {
        Token::Int(number) => count(*number),
        Token::Bool(_) | Token::Text(_) | Token::Array(_) | Token::Record(_) => 0,
    }
}
