// The laws of windows and stores: a number of a source is new at most once, and a full store leaves each source its share.
ghost use Rattle.laws_node.specs.PriorityLaws.{AFullStoreHasAVictim, AnEntryIsNext, FairShares, MarkedIsSeen, SeenStaysSeen, WindowSeesItsMarks};

/// A law: the window that any list of marks leaves sees a number exactly where it is one of them, or at least 1,024 below the greatest.
pub fn a_window_sees_its_marks_and_all_numbers_far_below()
    ensures { WindowSeesItsMarks }
{}

/// A law: a number that is marked is seen from then on.
pub fn what_is_marked_is_seen()
    ensures { MarkedIsSeen }
{}

/// A law: a number that is seen stays seen, whatever is marked.
pub fn what_is_seen_stays_seen()
    ensures { SeenStaysSeen }
{}

/// A law: where one entry more than the capacity C of a store comes from k sources and the victim goes, its source keeps at least C / k.
pub fn a_full_store_leaves_fair_shares()
    ensures { FairShares }
{}

/// A law: whatever was served last, an entry of a store is next in turn, and none is exactly where the store is empty.
pub fn an_entry_is_next_unless_the_store_is_empty()
    ensures { AnEntryIsNext }
{}

/// A law: an entry goes where one more arrives exactly where the store is full.
pub fn a_full_store_has_a_victim()
    ensures { AFullStoreHasAVictim }
{}
