//! Laws over the definitions alone.
ghost use Rattle.diag_desk.specs.Fault.{OneJournalLaw};
ghost use Rattle.diag_desk.specs.Legal.{LegalPrefixLaw};
ghost use Rattle.diag_desk.specs.Unlocking.{UnlockLaw};

/// A prefix of a legal journal is legal.
pub fn legal_prefix_law()
    ensures { LegalPrefixLaw }
{}

/// A text is that of one journal.
pub fn one_journal_law()
    ensures { OneJournalLaw }
{}

/// A value that needs a security level is written by the services only after its tester has sent the level's key, or a
/// key of the length of the level's keys where it takes any, and has stayed the holder with the level unlocked since (ISO
/// 14229-1:2013, 9.4). What a row of answers says in their place is no such value.
pub fn unlock_law()
    ensures { UnlockLaw }
{}
