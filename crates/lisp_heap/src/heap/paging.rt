//! The command on pages.
ghost use Rattle.std.specs.Prelude.{◌≡◌, drop, length, min};
ghost use Rattle.mem_port.specs.Frames.{EvictsFewer};
ghost use Rattle.lisp_heap.specs.Stands.{Runs};
ghost use Rattle.lisp_heap.specs.Words.{paged};

use crate::heap::Heap;
use heap_state::commands_are_steps;
use lisp_graph::{Command, Reply};
use mem_port::Memory;
use store_word::SwapFault;

impl<M: Memory> Heap<M> {
    /// `page-out`: evicts this many resident pages, or all if there are fewer, the least recently used first. If a swap error
    /// occurs, fewer were evicted before it, the least recently used first.
    pub fn page_out(&mut self, count: u32) -> Reply
        ensures runs { Runs self.old self.new 0 0 (Command.PageOut count) result }
        ensures resident { result ≡ Reply.Fine → self.new.resident ≡ drop (min count (length self.old.resident)) self.old.resident }
        ensures stops { result ≡ Reply.Fault → EvictsFewer self.old.resident self.new.resident count }
    {
        let evicted = self.ground.mem.evict_oldest(count);
        commands_are_steps();
        paged(evicted)
    }
}

// The reply to an eviction.
fn paged(evicted: Result<u32, SwapFault>) -> Reply
    ensures { result ≡ paged evicted }
{
    match evicted {
        Ok(_) => Reply::Fine,
        Err(_) => Reply::Fault,
    }
}
