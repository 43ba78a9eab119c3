ghost use Rattle.pt_stretches.specs.Stretches.{RowsGoOn};

/// Firings of a child in a row, of which an SDF core was told one after another, are turns one after another.
pub fn rows_go_on()
    ensures { RowsGoOn }
{}
