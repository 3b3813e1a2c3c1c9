//! What holds of the definitions, as contracts.

ghost use Rattle.diag_compare.specs.Meaning.{AnswersLaw, AsksLaw, HeadsLaw, HeardLaw, StatusLaw, TellsLaw};

/// The requests of a tester that are compared are those of the journal of the run.
pub fn asks_law()
    ensures { AsksLaw }
{}

/// The messages of the unit that are compared are what the events of its side give.
pub fn heard_law()
    ensures { HeardLaw }
{}

/// The first frame of a message has its first two bytes, by which it is told which request it answers.
pub fn heads_law()
    ensures { HeadsLaw }
{}

/// What is told with each line, and at the end, is each exchange of a tester once, in the order in which they are over.
pub fn tells_law()
    ensures { TellsLaw }
{}

/// The status is 0 exactly where everything agrees and something was compared, 8 exactly where something differs, and 9 exactly
/// where everything agrees and nothing was compared; and it is one of these.
pub fn status_law()
    ensures { StatusLaw }
{}

/// A tester's exchanges agree exactly where they are those of its requests in the run of the capture, the unit sent to each
/// what the server replies there, as `IsAnswered` says, and it sent nothing unasked.
pub fn answers_law()
    ensures { AnswersLaw }
{}
