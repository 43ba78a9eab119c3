ghost use Rattle.pt_typed.specs.Laws.{RowsKeepTypes, FirstTokensAreTyped, TypedStepsKeepTypes, TypedRunsKeepTypes};
ghost use Rattle.pt_typed.specs.TypedNet.{TreesAreTyped, NetsKeepTypes};
ghost use Rattle.pt_typed.specs.InputLaw.{InputsAreTyped};
ghost use Rattle.pt_typed.specs.HeldLaw.{ParametersHoldTokens};
ghost use Rattle.pt_typed.specs.DocumentLaw.{DocumentsAreNamed};
ghost use Rattle.pt_typed.specs.ExpressionLaw.{ExpressionRowsAreMet};
ghost use Rattle.pt_typed.specs.RowLaw.{TypingsGoUp, PlainRowsAreMet, SeededRowsAreMet, RecordRowsAreMet, TypedNetsKeepTypes};

/// An actor whose row is met by the types of its places and outputs keeps to them, whatever it fires or tells early.
pub fn rows_keep_types()
    ensures { RowsKeepTypes }
{}

/// Its first tokens are of the type of each of its outputs.
pub fn first_tokens_are_typed()
    ensures { FirstTokensAreTyped }
{}

/// In a tree of typed actors, of composites whose directors only move tokens, and of Modal entities that keep to types, along whose channels types go up, each firing keeps to the types.
pub fn typed_steps_keep_types()
    ensures { TypedStepsKeepTypes }
{}

/// So does the log of a job, at each fuel.
pub fn typed_runs_keep_types()
    ensures { TypedRunsKeepTypes }
{}

/// The tree of a net is typed by the types of its ports: where its channels stand in order, types go up along them, the row of each actor is met, and each Modal entity keeps to the types.
pub fn trees_are_typed()
    ensures { TreesAreTyped }
{}

/// The log of a run of such a tree keeps to the types of the ports.
pub fn nets_keep_types()
    ensures { NetsKeepTypes }
{}

/// Along each channel of a net its typing goes up.
pub fn typings_go_up()
    ensures { TypingsGoUp }
{}

/// The typing of a net meets the row of each actor that makes what it gives of its inputs, of numbers and of truth values.
pub fn plain_rows_are_met()
    ensures { PlainRowsAreMet }
{}

/// So does it meet the row of each actor that gives tokens of its parameters.
pub fn seeded_rows_are_met()
    ensures { SeededRowsAreMet }
{}

/// So does it meet the row of each actor that makes records of its inputs, or takes them apart.
pub fn record_rows_are_met()
    ensures { RecordRowsAreMet }
{}

/// Each parameter of a Const, a Sequence, a SampleDelay, a NonStrictDelay and a Pre has a token.
pub fn parameters_hold_tokens()
    ensures { ParametersHoldTokens }
{}

/// The typing of a net meets the row of each Expression.
pub fn expression_rows_are_met()
    ensures { ExpressionRowsAreMet }
{}

/// In the net of a document parameters and ports have names as the classes of their entities say.
pub fn documents_are_named()
    ensures { DocumentsAreNamed }
{}

/// The tokens that a job supplies are of the types of the top's inputs.
pub fn inputs_are_typed()
    ensures { InputsAreTyped }
{}

/// No finished firing in a run of the tree of the net of a document, whose types break nowhere, takes or gives a token of another type than its port's.
pub fn tokens_are_typed()
    ensures { TypedNetsKeepTypes }
{}
