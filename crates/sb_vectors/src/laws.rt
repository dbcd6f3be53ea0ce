//! Laws of boxes that move.

ghost use Rattle.sb_vectors.specs.Laws.{RegisteringMoves, RegisteringStays, RetiringMoves, RetiringStays};

/// Where codes are unique, a box that is made live takes its code behind the live ones, and the spare ones are left without it. Where
/// none is spare, no box and no code moves.
pub fn registering_moves_codes()
    ensures moves { RegisteringMoves }
    ensures stays { RegisteringStays }
{}

/// The same of a box that is made spare, with the live ones and the spare ones exchanged.
pub fn retiring_moves_codes()
    ensures moves { RetiringMoves }
    ensures stays { RetiringStays }
{}
