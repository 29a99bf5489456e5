//! Colours.
ghost use Rattle.std.specs.Prelude.{◌≡◌};
ghost use Rattle.tree_picture.specs.Colours.{colour_text};

/// What a colour stands for.
#[derive(Clone, Copy)]
pub enum Colour {
    /// Text, and the edge of a page.
    Ink,
    /// Less important text.
    Grey,
    /// The ground of the picture, and of a base.
    Paper,
    /// A page of its side chain with its term.
    Page,
    /// A delta.
    Delta,
    /// A side link.
    Side,
    /// A term.
    Term,
    /// A term that isn't there yet.
    Missing,
    /// What is held.
    Held,
    /// A removed page.
    Removed,
    /// A merged page.
    Merged,
    /// An actor, and what it reads next.
    Actor,
    /// What the last step changed.
    Changed,
}

impl Colour {
    /// The colour by its parts red, green and blue in hexadecimal digits, behind '#'.
    pub fn text(self) -> &'static str
        ensures { result.now ≡ colour_text self }
    {
        match self {
            Colour::Ink => "#1b1f24",
            Colour::Grey => "#57606a",
            Colour::Paper => "#ffffff",
            Colour::Page => "#ddf4e4",
            Colour::Delta => "#dbe9ff",
            Colour::Side => "#0a5ec2",
            Colour::Term => "#1a7f37",
            Colour::Missing => "#bc4c00",
            Colour::Held => "#ffe08a",
            Colour::Removed => "#ffc9c4",
            Colour::Merged => "#e4d4fa",
            Colour::Actor => "#8250df",
            Colour::Changed => "#cf222e",
        }
    }
}
