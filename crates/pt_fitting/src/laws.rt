ghost use Rattle.pt_fitting.specs.Laws.{ModalsFit};

/// In the net of a document whose types break nowhere, a Modal entity with a machine is wired as its director asks, round the trees of what stands in it.
pub fn modals_fit()
    ensures { ModalsFit }
{}
