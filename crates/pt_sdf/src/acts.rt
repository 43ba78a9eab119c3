// The law that makes the core a director of the driver.

ghost use Rattle.pt_meaning.specs.Tree.{Rows};
ghost use Rattle.pt_meaning.specs.Lawful.{LawfulRows};
ghost use Rattle.pt_value.specs.declared.token.Token.{Token};
ghost use Rattle.pt_core.specs.Lawful.{Lawful};
ghost use Rattle.pt_sdf.specs.SdfActs.{sdf_acts};

/// The calls of the core are lawful: a driver of any director makes firings of SDF composites by them.
pub fn sdf_is_lawful<A>()
    ensures { (rows : Rows Token A) → LawfulRows rows → Lawful (sdf_acts rows) }
{}
