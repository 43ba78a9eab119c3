ghost use Rattle.std.specs.Prelude.{◌≡◌};
ghost use Rattle.pt_document.specs.Codes.{code_number, code_name};

/// Why a document is refused.
#[derive(Clone, Copy, Debug, PartialEq, Eq)]
pub enum Code {
    Json,
    Shape,
    Name,
    Class,
    Parameter,
    Link,
    TwoSources,
    ExprSyntax,
    ExprName,
    Type,
    Place,
    Rates,
    SdfDeadlock,
    ZeroDelayLoop,
    Timed,
    States,
    Record,
    Inputs,
    Limit,
    Value,
}

impl Code {
    /// The number under which a refusal is printed.
    pub fn number(self) -> u16
        ensures { result ≡ code_number self }
    {
        match self {
            Code::Json => 10,
            Code::Shape => 11,
            Code::Name => 12,
            Code::Class => 13,
            Code::Parameter => 14,
            Code::Link => 15,
            Code::TwoSources => 16,
            Code::ExprSyntax => 17,
            Code::ExprName => 18,
            Code::Type => 19,
            Code::Place => 20,
            Code::Rates => 21,
            Code::SdfDeadlock => 22,
            Code::ZeroDelayLoop => 23,
            Code::Timed => 24,
            Code::States => 25,
            Code::Record => 26,
            Code::Inputs => 27,
            Code::Limit => 28,
            Code::Value => 29,
        }
    }

    /// The name under which a refusal is printed.
    pub fn name(self) -> &'static str
        ensures { result.now ≡ code_name self }
    {
        match self {
            Code::Json => "Json",
            Code::Shape => "Shape",
            Code::Name => "Name",
            Code::Class => "Class",
            Code::Parameter => "Parameter",
            Code::Link => "Link",
            Code::TwoSources => "TwoSources",
            Code::ExprSyntax => "ExprSyntax",
            Code::ExprName => "ExprName",
            Code::Type => "Type",
            Code::Place => "Place",
            Code::Rates => "Rates",
            Code::SdfDeadlock => "SdfDeadlock",
            Code::ZeroDelayLoop => "ZeroDelayLoop",
            Code::Timed => "Timed",
            Code::States => "States",
            Code::Record => "Record",
            Code::Inputs => "Inputs",
            Code::Limit => "Limit",
            Code::Value => "Value",
        }
    }
}
