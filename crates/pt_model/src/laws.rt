ghost use Rattle.pt_model.specs.Typed.{ModelsKeepTypes};

/// No finished firing in a run of the model of the net of a document takes or gives a token of another type than its port's.
pub fn models_keep_types()
    ensures { ModelsKeepTypes }
{}
