//! What a machine is called to do.
use lisp_graph::{CommandHead, Condemn};
use store_word::Levels;

/// One command of a machine, plain data. It is refused if it names a register or an area that doesn't exist.
#[derive(Clone, Copy)]
pub enum Call {
    /// A command as it is. `Set`, a `List` without its registers, `Stats` and `Dump` are refused.
    Do(CommandHead),
    /// A new compact list of `count` conses, 1 to 1,024, of the values of this register and those after it, in turn.
    List {
        to: u8,
        area: u8,
        item: u8,
        count: u16,
    },
    /// Begins a collection of the levels from 1 to this one, at most 6.
    FlipLevels {
        up_to: u8,
    },
}

impl Call {
    /// What a flip condemns; None if the call isn't a flip.
    pub fn condemned(self) -> Option<Condemn> {
        match self {
            Call::Do(CommandHead::Flip { what }) => Some(what),
            Call::FlipLevels { up_to } if up_to >= 1 && up_to <= 6 => Some(Condemn::Chosen(
                Levels::up_to(up_to),
            )),
            _ => None,
        }
    }
}
