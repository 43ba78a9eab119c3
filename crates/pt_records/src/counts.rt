// The laws of the numbers of finished firings.

ghost use Rattle.pt_records.specs.Counts.{CountsGrow, NumbersGoOn, StaysWired};

/// A step that is done raises the number of finished firings of each path by the records that its log has there, under every director.
pub fn counts_grow<T, A>()
    ensures { CountsGrow T A }
{}

/// However a step ends, its log has at each path the firings that follow those finished before, one by one.
pub fn numbers_go_on<T, A>()
    ensures { NumbersGoOn T A }
{}

/// What these laws ask of a node holds again after a step that is done.
pub fn stays_wired<T, A>()
    ensures { StaysWired T A }
{}
