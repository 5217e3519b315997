//! The trouble with a refused line of a world.
ghost use Rattle.std.specs.Prelude.{◌≡◌};
ghost use Rattle.world_text.specs.Reader.{NamesArea};
ghost use Rattle.line_input.specs.Statuses.{world_trouble};

use crate::statuses::status::RunError;
use lisp_graph::AreaRule;
use world_text::WorldFault;

/// The trouble if the line of this number is refused for this reason (`fault`); the lines before it name these areas.
pub fn world_trouble(line: u64, areas: &[AreaRule], fault: WorldFault) -> RunError
    requires { NamesArea areas.now fault }
    ensures { result ≡ world_trouble line areas.now fault }
{
    match fault {
        WorldFault::Bad(reason) => RunError::Line(line, reason),
        WorldFault::TooSmall => RunError::TooSmall(line),
        WorldFault::Exhausted {
            area,
            charged,
            wanted,
            quota,
        } => RunError::Exhausted {
            line,
            area: areas[usize::from(area)].name.copy(),
            charged,
            wanted,
            quota,
        },
        WorldFault::NoMemory => RunError::Memory,
    }
}
