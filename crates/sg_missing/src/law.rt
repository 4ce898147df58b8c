// What is missing after bytes came: laws of the definitions.
ghost use Rattle.std.specs.Prelude.{◌≡◌, ◌↔◌, ℕ, ◌+◌, ◌<◌, List, [], ◌∷◌, Contains, Some, drop, length};
ghost use Rattle.sg_base.specs.declared.file.Listed.{Listed};
ghost use Rattle.sg_missing.specs.Missing.{AreFiles, Holding, IsAlone, IsUnderWay, after_pieces, first_missing, missing, staged_of, with_bytes};
ghost use Rattle.sg_missing.specs.Pieces.{IsMissingAt, missing_from, piece_end};

/// The first missing file is the only one of which a part may be staged. Where a piece of it comes whole, that piece is no
/// longer missing, and all others are; where it comes in part, what it lacks is missing in its place. It does nothing when it
/// runs; its clauses are the laws.
pub fn each_piece_comes_once()
    ensures whole { (here : Holding) (files : List Listed) (file : Listed) (count : ℕ)
        → AreFiles files → IsAlone here.part file → first_missing here.holds files ≡ Some file
        → staged_of here.part file + count ≡ piece_end (staged_of here.part file) file.length
        → missing here files ≡ (file.media.0, staged_of here.part file)
        ∷ missing (with_bytes here file count) files }
    ensures part { (here : Holding) (files : List Listed) (file : Listed) (count : ℕ)
        → AreFiles files → IsAlone here.part file → first_missing here.holds files ≡ Some file
        → staged_of here.part file + count < piece_end (staged_of here.part file) file.length
        → missing (with_bytes here file count) files
        ≡ (file.media.0, staged_of here.part file + count) ∷ drop 1 (missing here files) }

    // After as many whole pieces as are missing, nothing is.
    ensures all { (here : Holding) (files : List Listed) → AreFiles files → IsUnderWay here files
        → missing (after_pieces (length (missing here files)) here files) files ≡ [] }

    // The places at which a file's missing pieces begin.
    ensures places { (here n at : ℕ) → here < n
        → (Contains (missing_from here n) at ↔ IsMissingAt here n at) }
{}
