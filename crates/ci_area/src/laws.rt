//! Laws of the definitions, each the contract of a function that does nothing.
ghost use Rattle.std.specs.Prelude.{ℕ, ◌≤◌, ◌<◌, Bool, List};
ghost use Rattle.ci_area.specs.declared.piece.Piece.{Piece};
ghost use Rattle.ci_area.specs.declared.log.AreaItem.{AreaItem};
ghost use Rattle.ci_area.specs.Greedy.{IsGreedy};
ghost use Rattle.ci_area.specs.Pieces.{ArePieces, IsBestSet};
ghost use Rattle.ci_cut.specs.Best.{IsSameSet};
ghost use Rattle.ci_area.specs.AreaRules.{IsAccepted};

/// An accepted log shows that the set is the best.
pub fn an_accepted_log_shows_the_best_set()
    ensures { (pieces : List Piece) (limit : ℕ) (best : ℕ → Bool) (items : List AreaItem)
        → IsAccepted pieces limit best items → IsBestSet pieces limit best }
{}

/// There is one greedy set, so whether a prefix is open depends on one gain.
pub fn there_is_one_greedy_set()
    ensures { (pieces : List Piece) (limit : ℕ) (first second : ℕ → Bool) → ArePieces pieces
        → IsGreedy pieces limit first → IsGreedy pieces limit second → IsSameSet first second }
{}
