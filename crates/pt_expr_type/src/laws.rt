ghost use Rattle.pt_language.specs.Laws.{TypedTreesAreSound, TreeTypesGrow, ProperTreesAreTyped};

/// Where tokens are of the types of their names, an expression that has a type is never wrong, and its value is of that type.
pub fn typed_trees_are_sound()
    ensures { TypedTreesAreSound }
{}

/// Greater types of the names give no smaller type of an expression.
pub fn tree_types_grow()
    ensures { TreeTypesGrow }
{}

/// What a rule makes of an expression is the expression's type, where it isn't general.
pub fn proper_trees_are_typed()
    ensures { ProperTreesAreTyped }
{}
