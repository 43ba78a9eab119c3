ghost use Rattle.std.specs.Prelude.{◌≡◌, map, negsuc, zero};
ghost use Rattle.pt_value.specs.Token.{value_of};
ghost use Rattle.pt_scopes.specs.Forms.{forms, form_in, form_of, row_of, fits, ascend_from};
ghost use Rattle.pt_scopes.specs.Agreement.{standard_in, standard_of};

use crate::form::{Form, ParameterForm, Standard};
use crate::tables::FORMS;
use pt_value::Token;

fn form_among(rows: &'static [ParameterForm], class: &str, name: &str) -> Form
    ensures { result ≡ form_in (map row_of rows.now) class.now name.now }
{
    for row in rows {
        if row.class == class && row.name == name {
            return row.form;
        }
    }
    Form::Any
}

/// The form of a parameter of a class of actors or directors.
#[tactic(auto, unfolding(crate::specs::Forms::form_of, crate::specs::Forms::forms))]
pub fn form_of(class: &str, name: &str) -> Form
    ensures { result ≡ form_of class.now name.now }
{
    form_among(&FORMS, class, name)
}

fn standard_among(rows: &'static [ParameterForm], class: &str, name: &str) -> Standard
    ensures { result ≡ standard_in (map row_of rows.now) class.now name.now }
{
    for row in rows {
        if row.class == class && row.name == name {
            return row.standard;
        }
    }
    Standard::Nothing
}

/// What a parameter of a class of actors or directors has where it isn't given.
#[tactic(auto, unfolding(crate::specs::Agreement::standard_of, crate::specs::Forms::forms))]
pub fn standard_of(class: &str, name: &str) -> Standard
    ensures { result ≡ standard_of class.now name.now }
{
    standard_among(&FORMS, class, name)
}

/// Whether a token has a form.
pub fn fits(form: Form, token: &Token) -> bool
    ensures { result ≡ fits form (value_of token.now) }
{
    match form {
        Form::Any => true,
        Form::Truth => matches!(token, Token::Bool(_)),
        Form::Integer { least, most } => match token {
            Token::Int(n) => least <= *n && *n <= most,
            Token::Bool(_) | Token::Text(_) | Token::Array(_) | Token::Record(_) => false,
        },
        Form::Array => matches!(token, Token::Array(_)),
        Form::FullArray => match token {
            Token::Array(items) => !items.is_empty(),
            Token::Int(_) | Token::Bool(_) | Token::Text(_) | Token::Record(_) => false,
        },
        Form::Offsets => match token {
            Token::Array(items) => ascend(items.as_slice()),
            Token::Int(_) | Token::Bool(_) | Token::Text(_) | Token::Record(_) => false,
        },
        Form::Tree | Form::Comparison | Form::Function | Form::Gate | Form::Ignored => false,
    }
}

/// Whether these are integers, the first 0 or more and each greater than the one before.
fn ascend(elements: &[Token]) -> bool
    ensures { result ≡ ascend_from (negsuc zero) (map value_of elements.now) }
{
    let mut last = -1i64;
    for element in elements {
        match element {
            Token::Int(n) if last < *n => last = *n,
            Token::Int(_) | Token::Bool(_) | Token::Text(_) | Token::Array(_) | Token::Record(_) =>
                return false,
        }
    }
    true
}
