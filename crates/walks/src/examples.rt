//! The definitions at small values: each function does nothing, and its contract computes them.
ghost use Rattle.std.specs.Prelude.{codes, ◌≡◌, ◌∷◌, [], None, Some};
ghost use Rattle.walks.specs.BackPages.{begin_above, pairs_from, place_from};
ghost use Rattle.walks.specs.BackWalks.{pairs_upward};
ghost use Rattle.walks.specs.Neighbours.{above_in, key_above};

/// Above a key comes the key with a 0 behind it, if there is room; else the last byte that isn't 255 is one more, and nothing stands behind it.
pub fn keys_above_are_found()
    ensures first { key_above [] ≡ Some (0 ∷ []) }
    ensures short { key_above (97 ∷ 255 ∷ []) ≡ Some (97 ∷ 255 ∷ 0 ∷ []) }
    ensures full { above_in 2 (97 ∷ 98 ∷ []) ≡ Some (97 ∷ 99 ∷ []) }
    ensures carried { above_in 2 (97 ∷ 255 ∷ []) ≡ Some (98 ∷ []) }
    ensures greatest { above_in 2 (255 ∷ 255 ∷ []) ≡ None }
{}

/// A page backward is cut off below the lowest key, which belongs to the walk, and the walk goes on unless it would go below that key.
pub fn pages_backward_are_cut_off()
    ensures pairs { pairs_from (codes "b") ((codes "a", codes "1") ∷ (codes "b", codes "2") ∷ []) ≡ (codes "b", codes "2") ∷ [] }
    ensures goes_on { place_from (codes "b") (Some (codes "b")) ≡ Some (codes "b") }
    ensures stops { place_from (codes "b") (Some (codes "a")) ≡ None }
    ensures first { place_from [] None ≡ None }
    ensures range { begin_above (codes "b") (Some (codes "c")) ≡ 99 ∷ 0 ∷ [] }
    ensures whole_range { begin_above (codes "b") None ≡ codes "b" }
{}

/// Read from its end, a walk down of two pages shows the second page's pairs before the first one's.
pub fn walks_back_are_read_upward()
    ensures { pairs_upward
        (record { upto = codes "d"; next = Some (codes "b"); pairs = (codes "c", codes "3") ∷ (codes "d", codes "4") ∷ []; actor = 0; begun = 0; done = 2 }
        ∷ record { upto = codes "b"; next = None; pairs = (codes "a", codes "1") ∷ []; actor = 0; begun = 3; done = 5 } ∷ [])
        ≡ (codes "a", codes "1") ∷ (codes "c", codes "3") ∷ (codes "d", codes "4") ∷ [] }
{}
