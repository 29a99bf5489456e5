//! The lines of an input.

ghost use Rattle.std.specs.Prelude.{◌≡◌, ◌<◌, ℕ, List, [], ◌∷◌, ◌++◌, length};
ghost use Rattle.std.specs.List.{AllByRecursion, flat_map};
ghost use Rattle.bw_shell.specs.Lines.{lines_of, with_newline, HasNoFeed};

/// An input has one list of lines.
pub fn lines_are_exact()
    ensures whole { (lines : List (List ℕ)) → AllByRecursion HasNoFeed lines → lines_of (flat_map with_newline lines) ≡ lines }
    ensures last { (lines : List (List ℕ)) (part : List ℕ) → AllByRecursion HasNoFeed lines → HasNoFeed part → 0 < length part
        → lines_of (flat_map with_newline lines ++ part) ≡ lines ++ part ∷ [] }
{}
