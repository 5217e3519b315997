//! Dumps of what a machine holds.
ghost use Rattle.std.specs.Prelude.{◌≡◌, ◌≤◌, IfOk};
ghost use Rattle.world_text.specs.writing.Dump.{HasSwapCause, IsDump};

use crate::DumpFault;
use crate::writing::dumped::{dumped_registers, write_objects};
use crate::writing::file::{head_text, push_end};
use crate::writing::object_writer::ObjectWriter;
use crate::writing::visit::VisitedObjects;
use lisp_graph::{AreaRule, Text, Walk};
use std::alloc::Global;
use store_word::Space;

/// The text of the world file that a machine dumps: the space and the areas as they are given, the objects that the registers
/// reach, and the registers. It fails if memory runs out, which it also reports if more than 2^32 - 1 objects are reached or if a key
/// is 2^32 or more, or if a page call of the swap device fails. It changes nothing that the walk shows. Each
/// register and each reachable cons is read once; of each block, the form and each field are read once.
pub fn dump_text<W: Walk>(
    alloc: Global,
    walk: &mut W,
    space: &Space,
    areas: &[AreaRule],
) -> Result<Text, DumpFault>
    requires { space.now.levels ≤ 6 }
    ensures value { IfOk result (λ text. IsDump (W.graph walk.old) space.now areas.now text) }
    ensures unchanged { W.graph walk.new ≡ W.graph walk.old }
    ensures cause { HasSwapCause (W.faults walk.old) (W.faults walk.new) result }
{
    let mut visits = VisitedObjects::new(alloc);
    let registers = dumped_registers(alloc, walk, &mut visits)?;
    let head = head_text(alloc, space, areas)?;
    let mut writer = ObjectWriter::new(alloc, head);
    write_objects(alloc, walk, &mut visits, areas, &mut writer)?;
    let mut text = writer.text;
    push_end(&mut text, registers.as_slice())?;
    Ok(text)
}
