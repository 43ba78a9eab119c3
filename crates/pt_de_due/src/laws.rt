// What the calls of a core change of who is due.

ghost use Rattle.pt_de_due.specs.Laws.{TokensCome, InputsLeave, OutputsArePut, TokensMakeDue, TargetsMakeDue, WakesMakeDue, TurnsChangeDue, CallsAreSteps, FirstsComeNext, TurnsAreCounted, ShapesStay};

/// Tokens on a channel come to the child that reads it, and to no other.
pub fn tokens_come<T>()
    ensures { TokensCome T }
{}

/// As a child is asked to fire its inputs leave their channels, and what is at all others stays.
pub fn inputs_leave<T>()
    ensures { InputsLeave T }
{}

/// What a child gives, and what comes to the own inputs, is put on one channel after another.
pub fn outputs_are_put<T>()
    ensures { OutputsArePut T }
{}

/// Tokens on a channel make its reader due, if it has had no turn, or one of those that fire after all others.
pub fn tokens_make_due<T>()
    ensures { TokensMakeDue T }
{}

/// So does what is put on the targets of a row, one after another.
pub fn targets_make_due<T>()
    ensures { TargetsMakeDue T }
{}

/// As a reaction begins those children are due whose wakes are.
pub fn wakes_make_due<T>()
    ensures { WakesMakeDue T }
{}

/// A child that is asked to fire is due no more, and one that has answered fires after all others.
pub fn turns_change_due<T>()
    ensures { TurnsChangeDue T }
{}

/// Each call is a turn, a wake or a beginning, and then what is put on the channels.
pub fn calls_are_steps<T>()
    ensures { CallsAreSteps T }
{}

/// The child that comes first in the sets is one that may come next, and where they are empty each has had its turn.
pub fn firsts_come_next<T>()
    ensures { FirstsComeNext T }
{}

/// One child waits less once it has its turn or answers, and one that has fired on a row has the others left.
pub fn turns_are_counted<T>()
    ensures { TurnsAreCounted T }
{}

/// The lists of a core fit its plan whatever is called.
pub fn shapes_stay<T>()
    ensures { ShapesStay T }
{}
