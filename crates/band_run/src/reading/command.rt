//! Commands.
use lisp_graph::{Name, Sequence, Text};

/// A command over the saved bands.
#[derive(Debug, Drop)]
pub enum BandCommand {
    /// Restart the disk, and open its store.
    Open,
    /// Save a text under a name: the lines of a world file, each with its line feed.
    Save { name: Name, text: Text },
    /// Write the text last saved under a name.
    Load { name: Name },
    /// Write each name, with the length of its text in bytes.
    List,
}

/// Commands, in the order of their lines.
pub type Commands = Sequence<BandCommand>;
