ghost use Rattle.std.specs.Prelude.{◌≡◌};
ghost use Rattle.pt_document.specs.Document.{property_name};
ghost use Rattle.pt_document.specs.View.{property_view};

use crate::parameter_value::ParameterValue;
use pt_document::Property;
use pt_value::Token;

/// What the parameters of an entity have, those of its director, and its Variables at first, and the rate that each of its
/// ports declares, if it does, each in the order of the net.
#[derive(Drop)]
pub struct EntityValues {
    pub parameters: Vec<ParameterValue>,
    pub director: Vec<ParameterValue>,
    pub variables: Vec<Token>,
    pub rates: Vec<Option<Token>>,
}

/// What the parameters of a net have: those of its entities and of its transparent composites, and the tokens of its inputs,
/// `None` for an absent one, each in the order of the net.
#[derive(Drop)]
pub struct Values {
    pub entities: Vec<EntityValues>,
    pub transparent: Vec<Vec<Token>>,
    pub inputs: Vec<Vec<Option<Token>>>,
}

/// The name of a property.
pub fn name_of(property: &Property) -> &str
    ensures { result.now ≡ property_name (property_view property.now) }
{
    property.name.as_str()
}
