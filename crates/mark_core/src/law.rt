//! The law of all runs.

ghost use Rattle.mark_core.specs.Runs.{RunsKeepLaw, EventsKeepLaw, StacksChange, TagsRise};
ghost use Rattle.mark_core.specs.Runs.{PopsFindLinks, MarksRise, ClosedIsDetermined};
ghost use Rattle.mark_core.specs.Runs.{AccountsHaveEachOnce, AccountsAreApart};
ghost use Rattle.mark_core.specs.Conclusions.{FirstTagsAreFirst, ListsKeepLaw};
ghost use Rattle.mark_core.specs.Conclusions.{LoadedHeadsWere, LossesAreContested, PushesFollowChanges, TagsKeepParity};
ghost use Rattle.mark_core.specs.Quiet.{QuietIsDone};

/// Does nothing. Its contract says what holds of a marking after every list of possible events, of any number of
/// workers, splits and joins included.
///
/// From every opening on, each buffer is on one of the two stacks or held by one account, the mark of each object says
/// where the object is, and the shares add up to the whole (`law`). Each possible event keeps this law (`events`). The
/// other clauses are further facts about each event and run: `docs/MARKING.md` has a line for each, under "The law".
pub fn all_runs_keep_law()
    ensures law { RunsKeepLaw }
    ensures events { EventsKeepLaw }
    ensures stacks { StacksChange }
    ensures tags { TagsRise }
    ensures links { PopsFindLinks }
    ensures marks { MarksRise }
    ensures once { AccountsHaveEachOnce }
    ensures apart { AccountsAreApart }
    ensures closed { ClosedIsDetermined }
    ensures lists { ListsKeepLaw }
    ensures loaded { LoadedHeadsWere }
    ensures first { FirstTagsAreFirst }
    ensures parity { TagsKeepParity }
    ensures losses { LossesAreContested }
    ensures pushes { PushesFollowChanges }
    ensures quiet { QuietIsDone }
{}
