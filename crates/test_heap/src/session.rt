//! Sessions, and the text of their replies.
ghost use Rattle.world_text.specs.Limits.{IsAccepted};

use crate::trial::Trial;
use lisp_graph::{Areas, Command, Reply, World};
use mem_port::{Memory, PlainMemory};
use paged_memory::{PagedMemory, SwapMemory};
use std::alloc::Global;
use std::test::Fail;
use trace_text::{account_text, reply_text};

/// A machine over a flat memory.
pub(crate) fn open_flat(alloc: Global, world: &World) -> Result<Trial<PlainMemory>, Fail>
    requires { IsAccepted world.now }
{
    let mem = PlainMemory::new(alloc, &world.space)?;
    Trial::open(alloc, world, mem)
}

/// A machine over a paged memory, one of whose page calls fails, or none at 0.
pub(crate) fn open_paged(
    alloc: Global,
    world: &World,
    fail: u32,
) -> Result<Trial<PagedMemory<SwapMemory>>, Fail>
    requires { IsAccepted world.now }
{
    match PagedMemory::open(alloc, &world.space, SwapMemory::new(alloc, fail)) {
        Ok(mem) => Trial::open(alloc, world, mem),
        Err(_) => Err("no memory".into()),
    }
}

/// What was replied, and how many commands were repeated because they replied `fault`.
#[derive(Drop)]
pub(crate) struct Answers {
    pub text: Vec<u8>,
    pub faults: u32,
    evicts: bool,
}

impl Answers {
    // Writes the reply of a command. If pages are evicted, a command that replies `fault` is repeated.
    fn reply<M: Memory>(
        &mut self,
        trial: &mut Trial<M>,
        areas: &Areas,
        command: &Command,
    ) -> Result<(), Fail> {
        let mut reply = trial.answer(command).ok_or("not asked")?;
        if self.evicts && reply == Reply::Fault {
            self.faults = self.faults.saturating_add(1);
            reply = trial.answer(command).ok_or("not asked")?;
        }
        self.text
            .extend_from_slice(reply_text(&reply, areas).as_bytes())?;
        Ok(())
    }

    // Writes the account of each area.
    fn accounts<M: Memory>(&mut self, trial: &Trial<M>, areas: &Areas) -> Result<(), Fail> {
        for (area, rule) in areas.as_slice().iter().enumerate() {
            let charged = trial.account(area).ok_or("no area")?;
            self.text
                .extend_from_slice(account_text(rule, charged).as_bytes())?;
        }
        Ok(())
    }

    // Writes the reply to a command.
    fn step<M: Memory + Drop>(
        &mut self,
        alloc: Global,
        trial: Trial<M>,
        areas: &Areas,
        command: &Command,
    ) -> Result<Trial<M>, Fail> {
        let mut trial = trial;
        match command {
            Command::Stats => self.accounts(&trial, areas)?,
            Command::Dump => {
                let (dumped, text) = trial.dump(alloc, areas);
                trial = dumped;
                self.text
                    .extend_from_slice(text.ok_or("no dump")?.as_slice())?;
            }
            _ => self.reply(&mut trial, areas, command)?,
        }
        Ok(trial)
    }
}

/// Runs commands. If `evicts` is set, all pages that can be evicted are evicted after each command, and each command that replies
/// `fault` is repeated.
pub(crate) fn run<M: Memory + Drop>(
    alloc: Global,
    trial: Trial<M>,
    areas: &Areas,
    commands: &[Command],
    evicts: bool,
) -> Result<Answers, Fail> {
    let mut trial = trial;
    let mut answers = Answers {
        text: Vec::new(alloc),
        faults: 0,
        evicts,
    };
    for command in commands {
        trial = answers.step(alloc, trial, areas, command)?;
        if evicts {
            answers.reply(&mut trial, areas, &Command::PageOut { count: 32 })?;
        }
    }
    Ok(answers)
}
