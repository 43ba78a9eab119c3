ghost use Rattle.std.specs.Prelude.{◌≡◌, map};
ghost use Rattle.pt_document.specs.View.{port_view};
ghost use Rattle.pt_inequalities.specs.Rows.{port_row, seeding, port_type_in, port_type, seed_in, seed_of, declared_output, port_rows, seedings};
ghost use Rattle.pt_places.specs.Views.{rows_behind, class_rows};

use pt_document::{Direction, Port};
use pt_inequalities::{PORT_TYPES, PortType, PortTypeRow, SEEDS, Seed, SeedRow};

/// The rows from the first one of this class on.
fn rows_from(
    rows: &'static [PortTypeRow<&'static str>],
    class: &str,
) -> &'static [PortTypeRow<&'static str>]
    ensures { map port_row result.now ≡ rows_behind (map port_row rows.now) class.now }
{
    for (index, row) in rows.iter().enumerate() {
        if row.class == class {
            return &rows[index..];
        }
    }
    &[]
}

/// The rows that are searched for the ports of this class. They are found once for all ports of an entity.
#[tactic(auto, unfolding(pt_inequalities::specs::Rows::port_rows))]
pub fn rows_of(class: &str) -> &'static [PortTypeRow<&'static str>]
    ensures { map port_row result.now ≡ class_rows class.now }
{
    rows_from(&PORT_TYPES, class)
}

fn port_type_among(rows: &'static [PortTypeRow<&'static str>], class: &str, name: &str) -> PortType
    ensures { result ≡ port_type_in (map port_row rows.now) class.now name.now }
{
    for row in rows {
        if row.class == class && row.port == name {
            return row.ty;
        }
    }
    PortType::Free
}

/// What passes at a declared output, and otherwise at a port.
fn output_type(class: &str, direction: Direction, otherwise: PortType) -> PortType
    ensures { result ≡ declared_output class.now direction otherwise }
{
    match direction {
        Direction::Output => {
            if class == "RecordDisassembler" {
                PortType::Field
            } else {
                otherwise
            }
        }
        Direction::Input => otherwise,
    }
}

/// What passes at a port of an entity of this class, by the rows of the class.
#[tactic(auto, unfolding(pt_inequalities::specs::Rows::port_type))]
pub fn port_type_by(
    rows: &'static [PortTypeRow<&'static str>],
    class: &str,
    port: &Port,
) -> PortType
    requires { map port_row rows.now ≡ class_rows class.now }
    ensures { result ≡ port_type class.now (port_view port.now) }
{
    let otherwise = port_type_among(rows, class, port.name.as_str());
    output_type(class, port.direction, otherwise)
}

fn seed_among(rows: &'static [SeedRow<&'static str>], class: &str, name: &str) -> Option<Seed>
    ensures { result ≡ seed_in (map seeding rows.now) class.now name.now }
{
    for row in rows {
        if row.class == class && row.parameter == name {
            return Some(row.seed);
        }
    }
    None
}

/// Which tokens of a parameter pass at the ports of its entity.
#[tactic(auto, unfolding(pt_inequalities::specs::Rows::seed_of, pt_inequalities::specs::Rows::seedings))]
pub(crate) fn seed_of(class: &str, name: &str) -> Option<Seed>
    ensures { result ≡ seed_of class.now name.now }
{
    seed_among(&SEEDS, class, name)
}
