//! What is so of escaped bytes.
ghost use Rattle.std.specs.Prelude.{◌≢◌, ◌≤◌, ℕ, List};
ghost use Rattle.std.specs.List.{All};
ghost use Rattle.tree_picture.specs.Document.{IsWellFormed, escape};
ghost use Rattle.tree_picture.specs.Elements.{document_text};
ghost use Rattle.tree_picture.specs.declared.shape.Shape.{Shape};

/// Whatever the bytes are, what stands for them has nothing that begins or ends an element or that ends a quoted value, and nothing
/// but printable ASCII. It does nothing.
pub fn escapes_are_safe()
    ensures { (bytes : List ℕ) → All (λ b. (b ≢ 60) × (b ≢ 62) × (b ≢ 34) × (32 ≤ b) × (b ≤ 126)) (escape bytes) }
{}

/// Whatever the shapes are, and the words in them, their document is well-formed. It does nothing.
pub fn documents_are_well_formed()
    ensures { (width height : ℕ) (title description : List ℕ) (shapes : List Shape) → IsWellFormed (document_text width height title description shapes) }
{}
