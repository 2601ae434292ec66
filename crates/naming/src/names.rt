// The names of what a command speaks of.
use state::registers::{Auto, Combination, Move, Target};

// Functions, and no `Display` in crate state, here and below: `+1` or `off` is the word of this crate's lines alone (docs/FORMATS.md). The four
// names of a combination stand in screens too, which does not rest on this: a `Display` would make a line's words part of the lowest crate.
/// What two data set.
pub(crate) fn target_name(target: Target) -> &'static str {
    match target {
        Target::Cursor => "cursor",
        Target::Offset => "offset",
        Target::Pointer => "pointer",
        Target::TextHome => "text home",
        Target::TextArea => "text area",
        Target::GraphicHome => "graphic home",
        Target::GraphicArea => "graphic area",
    }
}

/// How text and graphic are put together.
pub(crate) fn combination_name(combination: Combination) -> &'static str {
    match combination {
        Combination::Or => "OR",
        Combination::Exor => "EXOR",
        Combination::And => "AND",
        Combination::Attribute => "attribute",
    }
}

/// Which auto mode.
pub(crate) fn auto_name(auto: Auto) -> &'static str {
    match auto {
        Auto::Off => "off",
        Auto::Write => "write",
        Auto::Read => "read",
    }
}

/// How the pointer moves.
pub(crate) fn move_name(direction: Move) -> &'static str {
    match direction {
        Move::Up => "+1",
        Move::Down => "-1",
        Move::Stay => "stays",
    }
}
