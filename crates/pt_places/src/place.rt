ghost use Rattle.std.specs.Prelude.{◌≡◌, ◌++◌, ◌∷◌, [], IfOk, OnOk, map, option_map, slice_get};
ghost use Rattle.pt_value.specs.Token.{value_of};
ghost use Rattle.pt_language.specs.Expr.{tree_of};
ghost use Rattle.pt_document.specs.View.{port_view, properties_view};
ghost use Rattle.pt_net.specs.Net.{entity_view};
ghost use Rattle.pt_scopes.specs.Texts.{names_in};
ghost use Rattle.pt_scopes.specs.Given.{held_view};
ghost use Rattle.pt_scopes.specs.Valued as valued;
ghost use Rattle.pt_typing.specs.Views.{known_entry, tree_view, term_view};
ghost use Rattle.pt_inequalities.specs.Inequalities.{input_at, inputs_of, with_type, known, of_tree, of_held, of_trees, of_fields, of_port, of_ports, of_seed, of_value, of_parameter, of_parameters};
ghost use Rattle.pt_places.specs.Views.{types_at, IsAdded};

use crate::rows::{port_type_by, rows_of, seed_of};
use crate::seeds::seeded;
use pt_document::{Direction, Port};
use pt_frames::Frames;
use pt_inequalities::{PortType, Seed};
use pt_language::Expr;
use pt_net::NetEntity;
use pt_scopes::{EntityValues, ParameterValue, name_of, names_of};
use pt_types::{Ty, type_of_token};
use pt_typing::{Inequality, Term, TreeTerm, Variable};
use pt_value::{Text, Token};
use std::alloc::{AllocError, Global};

/// An entity of a net, by its number, with what its parameters have and what is seen round it.
#[derive(Clone, Copy)]
pub struct Place<'a> {
    pub number: usize,
    pub entity: &'a NetEntity,
    pub values: &'a EntityValues,
    pub frames: &'a Frames,
}

/// One more inequality.
pub fn add(
    inequalities: &mut Vec<Inequality>,
    variable: Variable,
    term: Term,
) -> Result<(), AllocError>
    ensures { OnOk result (IsAdded inequalities.old.items inequalities.new.items ((variable, term_view term) ∷ [])) }
{
    inequalities.push(Inequality { variable, term })?;
    Ok(())
}

/// Adds a port where it is an input.
fn add_input(
    alloc: Global,
    number: usize,
    index: usize,
    port: &Port,
    inputs: &mut Vec<(Text, Variable)>,
) -> Result<(), AllocError>
    ensures { OnOk result (inputs.new.items ≡ inputs.old.items ++ input_at number index (port_view port.now)) }
{
    match port.direction {
        Direction::Input => {
            let name = port.name.copy(alloc)?;
            inputs
                .push((name, Variable::Port(number, index)))
                .map_err(AllocError::from)?;
            Ok(())
        }
        Direction::Output => Ok(()),
    }
}

/// What a parameter of this number has.
fn value_at(values: &[ParameterValue], index: usize) -> Option<&ParameterValue>
    ensures { option_map (λ v. held_view v.now) result ≡ slice_get (map held_view values.now) index }
{
    values.get(index)
}

impl Place<'_> {
    /// The inputs of the entity under their names.
    fn inputs(&self, alloc: Global) -> Result<Vec<(Text, Variable)>, AllocError>
        ensures { IfOk result (λ inputs. inputs.items ≡ inputs_of self.now.number (entity_view self.now.entity.now)) }
    {
        let mut inputs = Vec::new(alloc);
        for (index, port) in self.entity.ports.iter().enumerate() {
            add_input(alloc, self.number, index, port, &mut inputs)?;
        }
        Ok(inputs)
    }

    /// Adds a name where it is that of a parameter.
    fn add_known(
        &self,
        alloc: Global,
        name: &str,
        list: &mut Vec<(Text, Ty)>,
    ) -> Result<(), AllocError>
        ensures { OnOk result (map known_entry list.new.items ≡ map known_entry list.old.items ++ with_type name.now (types_at self.now name.now)) }
    {
        match self
            .frames
            .seen(self.entity.within, self.entity.parent, name)
        {
            Some(token) => {
                let ty = type_of_token(alloc, token)?;
                let name = Text::of(alloc, name)?;
                list.push((name, ty)).map_err(AllocError::from)?;
                Ok(())
            }
            None => Ok(()),
        }
    }

    /// The names of an expression that are parameters, with their types.
    fn known(&self, alloc: Global, tree: &Expr) -> Result<Vec<(Text, Ty)>, AllocError>
        ensures { IfOk result (λ list. map known_entry list.items ≡ known (types_at self.now) (names_in (tree_of tree.now))) }
    {
        let mut list = Vec::new(alloc);
        let names = names_of(alloc, tree)?;
        for name in &names {
            self.add_known(alloc, name.as_str(), &mut list)?;
        }
        Ok(list)
    }

    /// The term of an expression.
    pub fn tree(&self, alloc: Global, tree: &Expr) -> Result<TreeTerm, AllocError>
        ensures { IfOk result (λ t. tree_view t ≡ of_tree self.now.number (entity_view self.now.entity.now) (types_at self.now) (tree_of tree.now)) }
    {
        Ok(TreeTerm {
            tree: tree.copy(alloc)?,
            ports: self.inputs(alloc)?,
            known: self.known(alloc, tree)?,
        })
    }

    /// An expression is below a variable.
    fn add_held(
        &self,
        alloc: Global,
        variable: Variable,
        value: &ParameterValue,
        inequalities: &mut Vec<Inequality>,
    ) -> Result<(), AllocError>
        ensures { OnOk result (IsAdded inequalities.old.items inequalities.new.items (of_held self.now.number (entity_view self.now.entity.now) (types_at self.now) variable (held_view value.now))) }
    {
        match value {
            ParameterValue::Tree(tree) => {
                let term = self.tree(alloc, tree)?;
                let term = Box::new(alloc, term)?;
                add(inequalities, variable, Term::TreeOf(term))
            }
            ParameterValue::Token(_) | ParameterValue::Word => Ok(()),
        }
    }

    /// The expressions of the entity are below a variable.
    fn add_trees(
        &self,
        alloc: Global,
        variable: Variable,
        inequalities: &mut Vec<Inequality>,
    ) -> Result<(), AllocError>
        ensures { OnOk result (IsAdded inequalities.old.items inequalities.new.items (of_trees self.now.number (entity_view self.now.entity.now) (types_at self.now) variable (map held_view self.now.values.now.parameters.items))) }
    {
        for value in &self.values.parameters {
            self.add_held(alloc, variable, value, inequalities)?;
        }
        Ok(())
    }

    /// The fields of the inputs under a name are below a variable.
    fn add_fields(
        &self,
        alloc: Global,
        variable: Variable,
        name: &str,
        inequalities: &mut Vec<Inequality>,
    ) -> Result<(), AllocError>
        ensures { OnOk result (IsAdded inequalities.old.items inequalities.new.items (of_fields variable name.now (inputs_of self.now.number (entity_view self.now.entity.now)))) }
    {
        let inputs = self.inputs(alloc)?;
        for (_, input) in &inputs {
            let field = Text::of(alloc, name)?;
            add(inequalities, variable, Term::FieldOf(*input, field))?;
        }
        Ok(())
    }

    /// What the row of the class says of a port.
    fn add_port(
        &self,
        alloc: Global,
        index: usize,
        name: &str,
        ty: PortType,
        inequalities: &mut Vec<Inequality>,
    ) -> Result<(), AllocError>
        ensures { OnOk result (IsAdded inequalities.old.items inequalities.new.items (of_port self.now.number (entity_view self.now.entity.now) (valued.entity_view self.now.values.now) (types_at self.now) index name.now ty)) }
    {
        let port = Variable::Port(self.number, index);
        let row = Variable::Row(self.number);
        match ty {
            PortType::Free => Ok(()),
            PortType::Int => add(inequalities, port, Term::Fixed(Ty::Int)),
            PortType::Boolean => add(inequalities, port, Term::Fixed(Ty::Boolean)),
            PortType::Words => add(inequalities, port, Term::Fixed(Ty::Words)),
            PortType::Row => {
                add(inequalities, port, Term::Same(row))?;
                add(inequalities, row, Term::Same(port))
            }
            PortType::RowArray => {
                add(inequalities, port, Term::ArrayOf(row))?;
                add(inequalities, row, Term::ElementOf(port))
            }
            PortType::Tree => self.add_trees(alloc, port, inequalities),
            PortType::Assembled => {
                let inputs = self.inputs(alloc)?;
                add(inequalities, port, Term::RecordOf(inputs))
            }
            PortType::Field => self.add_fields(alloc, port, name, inequalities),
        }
    }

    /// What the row of the class says of the ports.
    pub(crate) fn add_ports(
        &self,
        alloc: Global,
        inequalities: &mut Vec<Inequality>,
    ) -> Result<(), AllocError>
        ensures { OnOk result (IsAdded inequalities.old.items inequalities.new.items (of_ports self.now.number (entity_view self.now.entity.now) (valued.entity_view self.now.values.now) (types_at self.now) 0 (map port_view self.now.entity.now.ports.items))) }
    {
        let class = self.entity.class.as_str();
        let rows = rows_of(class);
        for (index, port) in self.entity.ports.iter().enumerate() {
            let ty = port_type_by(rows, class, port);
            self.add_port(alloc, index, port.name.as_str(), ty, inequalities)?;
        }
        Ok(())
    }

    /// A token that a parameter gives is of the type of the row.
    fn add_seed(
        &self,
        alloc: Global,
        seed: Option<Seed>,
        token: &Token,
        inequalities: &mut Vec<Inequality>,
    ) -> Result<(), AllocError>
        ensures { OnOk result (IsAdded inequalities.old.items inequalities.new.items (of_seed self.now.number seed (value_of token.now))) }
    {
        match seed {
            Some(seed) => {
                let ty = seeded(alloc, seed, token)?;
                add(inequalities, Variable::Row(self.number), Term::Fixed(ty))
            }
            None => Ok(()),
        }
    }

    /// What a parameter of a name says of the type of the row.
    fn add_value(
        &self,
        alloc: Global,
        name: &str,
        value: &ParameterValue,
        inequalities: &mut Vec<Inequality>,
    ) -> Result<(), AllocError>
        ensures { OnOk result (IsAdded inequalities.old.items inequalities.new.items (of_value self.now.number self.now.entity.now.class name.now (held_view value.now))) }
    {
        match value {
            ParameterValue::Token(token) => {
                let seed = seed_of(self.entity.class.as_str(), name);
                self.add_seed(alloc, seed, token, inequalities)
            }
            ParameterValue::Tree(_) | ParameterValue::Word => Ok(()),
        }
    }

    fn add_parameter(
        &self,
        alloc: Global,
        name: &str,
        value: Option<&ParameterValue>,
        inequalities: &mut Vec<Inequality>,
    ) -> Result<(), AllocError>
        ensures { OnOk result (IsAdded inequalities.old.items inequalities.new.items (of_parameter self.now.number self.now.entity.now.class name.now (option_map (λ v. held_view v.now) value.entry))) }
    {
        match value {
            Some(value) => self.add_value(alloc, name, value, inequalities),
            None => Ok(()),
        }
    }

    /// What the parameters say of the type of the row.
    pub(crate) fn add_parameters(
        &self,
        alloc: Global,
        inequalities: &mut Vec<Inequality>,
    ) -> Result<(), AllocError>
        ensures { OnOk result (IsAdded inequalities.old.items inequalities.new.items (of_parameters self.now.number self.now.entity.now.class (properties_view self.now.entity.now.parameters.items) (map held_view self.now.values.now.parameters.items))) }
    {
        for (index, property) in self.entity.parameters.iter().enumerate() {
            let value = value_at(self.values.parameters.as_slice(), index);
            self.add_parameter(alloc, name_of(property), value, inequalities)?;
        }
        Ok(())
    }
}
