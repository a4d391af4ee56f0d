//! What holds of all files, as contracts of functions without effect.
ghost use Rattle.ci_block.specs.Laws.{BlockIsOne, BlocksAreOne, WaysAreLeaders, WordBehindIsLeader};
ghost use Rattle.ci_block.specs.Laws.{ListingIsOne};

/// The definition of the listed leaders determines them.
pub fn leaders_are_determined()
    ensures { ListingIsOne }
{}

/// The leaders of a file determine its blocks: their instructions and their successors.
pub fn blocks_are_determined()
    ensures block { BlockIsOne }
    ensures blocks { BlocksAreOne }
{}

/// Where a block leads by a branch, a jump or its end is a leader, if that is a word of the text, and so is the word
/// behind it.
pub fn ways_lead_to_leaders()
    ensures ways { WaysAreLeaders }
    ensures behind { WordBehindIsLeader }
{}
