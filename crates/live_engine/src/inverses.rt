//! What takes an edit back.

use crate::drafts::Draft;
use crate::noting::NoteBack;
use crate::repainting::Repaint;

/// What an edit took the place of. It is put in place of what the edit made, and so the edit is taken back.
#[derive(Drop)]
pub enum Inverse {
    /// What stood for a name, or that nothing did.
    Name(Draft),
    /// The tiles that a source had where it was painted.
    Tiles(Repaint),
    /// What was noted beside the names.
    Note(NoteBack),
}
