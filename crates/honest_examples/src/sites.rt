//! What a site tells of its links. Nothing here runs: the contracts are the examples.
ghost use Rattle.honest_examples.specs.Sites.{AGrantComesFirst, AGreetingIsOfItsServer, ANewLinkHasSeenTheHistory, ANewLinkIsGreeted, ConnectingLeavesTheHistory, GrantsArePrefixesOfOneList, LinksPutDifferentKeys, TheHistoryIsToldOnceAllAreBack, TwoLinksSideBySide};

/// A new link to a quiet site of a willing server has seen its history. Where others write, it may have
/// seen more.
pub fn a_new_link_has_seen_the_history()
    ensures { ANewLinkHasSeenTheHistory }
{}

/// A greeting that says another ending of result sets than the server's, or another version, is no greeting
/// of it.
pub fn a_greeting_is_of_its_server()
    ensures { AGreetingIsOfItsServer }
{}

/// On a new link a greeting waits, and it holds no lock.
pub fn a_new_link_is_greeted()
    ensures { ANewLinkIsGreeted }
{}

/// Connecting to a quiet site leaves its history. Where others write, it may have grown.
pub fn connecting_leaves_the_history()
    ensures { ConnectingLeavesTheHistory }
{}

/// Once all links are back, the history is the old one and what they committed. Before that it stands.
pub fn the_history_is_told_once_all_are_back()
    ensures { TheHistoryIsToldOnceAllAreBack }
{}

/// A site doesn't stay honest with two grants of the read lock of which neither is a prefix of the other.
pub fn grants_are_prefixes_of_one_list()
    ensures { GrantsArePrefixesOfOneList }
{}

/// Nor does it where two links have put rows of one key.
pub fn links_put_different_keys()
    ensures { LinksPutDifferentKeys }
{}

/// Of the histories of two links, one begins as the first had seen it when it was granted the read lock,
/// and another doesn't.
pub fn a_grant_comes_first()
    ensures { AGrantComesFirst }
{}

/// The first link puts a row and takes the read lock, the second sees that row beside it, and both put
/// a row: what each is told, and what the site tells of both.
pub fn two_links_side_by_side()
    ensures { TwoLinksSideBySide }
{}
