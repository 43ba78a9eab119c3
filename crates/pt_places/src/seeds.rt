ghost use Rattle.std.specs.Prelude.{◌≡◌, IfOk, map};
ghost use Rattle.pt_value.specs.Token.{value_of};
ghost use Rattle.pt_value.specs.Value.{values_of};
ghost use Rattle.pt_datatypes.specs.Datatype.{Unknown};
ghost use Rattle.pt_types.specs.Ty.{type_of};
ghost use Rattle.pt_datatypes.specs.Join.{join as join_types};
ghost use Rattle.pt_datatypes.specs.Token.{type_of_value};
ghost use Rattle.pt_inequalities.specs.Rows.{seeded, joined_values, standard_type};

use pt_inequalities::Seed;
use pt_scopes::Standard;
use pt_types::{Ty, join, type_of_token};
use pt_value::Token;
use std::alloc::{AllocError, Global};

/// The join of a type with that of a token.
pub(crate) fn joined_with(alloc: Global, ty: &Ty, token: &Token) -> Result<Ty, AllocError>
    ensures { IfOk result (λ t. type_of t ≡ join_types (type_of ty.now) (type_of_value (value_of token.now))) }
{
    let next = type_of_token(alloc, token)?;
    join(alloc, ty, &next)
}

/// The join of the types of some tokens.
fn joined(alloc: Global, tokens: &[Token]) -> Result<Ty, AllocError>
    ensures { IfOk result (λ t. type_of t ≡ joined_values Unknown (values_of (map value_of tokens.now))) }
{
    let mut ty = Ty::Unknown;
    for token in tokens {
        ty = joined_with(alloc, &ty, token)?;
    }
    Ok(ty)
}

/// The type of what passes of a token of a parameter.
pub(crate) fn seeded(alloc: Global, seed: Seed, token: &Token) -> Result<Ty, AllocError>
    ensures { IfOk result (λ t. type_of t ≡ seeded seed (value_of token.now)) }
{
    match seed {
        Seed::Whole => type_of_token(alloc, token),
        Seed::Elements => match token {
            Token::Array(items) => joined(alloc, items.as_slice()),
            Token::Int(_) | Token::Bool(_) | Token::Text(_) | Token::Record(_) => Ok(Ty::Unknown),
        },
    }
}

/// The type of what passes where a parameter isn't given.
pub(crate) fn standard_type(standard: Standard) -> Ty
    ensures { type_of result ≡ standard_type standard }
{
    match standard {
        Standard::Integer(_) | Standard::Single(_) => Ty::Int,
        Standard::Truth(_) => Ty::Boolean,
        Standard::FirstWord | Standard::Nothing => Ty::Unknown,
    }
}
