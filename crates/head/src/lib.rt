// The switch of a measuring head: one step takes a frame on a port to a verdict, by the eleven
// rules of the practical AXE algorithm, flood, drop duplicates, learn.
//
// A switch is its setup, which fitters and cables decide, and what a step changes: the next nonce
// and the learning table. A step changes them in place, and the filter and the output are lent to it.
// The work is done on nonce and table lent as their parts, so that whoever keeps them elsewhere, a
// head in C, copies nothing; a method of `Switch` lends its own.
#![tactic(auto)]

pub mod causes;
pub mod inner;

ghost use Rattle.std.specs.Prelude.{length};
ghost use Rattle.head.specs.Step.{Steps, refusal, refusal_but1};

use refusal::Refusal;
use rules::{Report, Setup};
use table::Table;

#[derive(Clone, Copy, PartialEq, Eq)]
pub struct Switch {
    pub setup: Setup,
    pub nonce: u32,
    pub table: Table,
}

impl Switch {
    // A step without refusal 1, for a switch and a filter that are known to be well-formed.
    pub fn step_on(
        &mut self,
        filter: &mut [u8],
        port: u8,
        frame: &[u8],
        out: &mut [u8],
    ) -> Result<Report, Refusal>
        ensures { Steps (refusal_but1 self.old.setup port frame.now (length out.old)) self.old filter.old port frame.now out.old result self.new filter.new out.new }
    {
        inner::step_on(
            self.setup,
            &mut self.nonce,
            &mut self.table.addresses,
            &mut self.table.ports,
            &mut self.table.hops,
            filter,
            port,
            frame,
            out,
        )
    }

    // One step: a frame on a port, with the filter and an output lent.
    pub fn step(
        &mut self,
        filter: &mut [u8],
        port: u8,
        frame: &[u8],
        out: &mut [u8],
    ) -> Result<Report, Refusal>
        ensures { Steps (refusal self.old filter.old port frame.now (length out.old)) self.old filter.old port frame.now out.old result self.new filter.new out.new }
    {
        inner::step_in(
            self.setup,
            &mut self.nonce,
            &mut self.table.addresses,
            &mut self.table.ports,
            &mut self.table.hops,
            filter,
            port,
            frame,
            out,
        )
    }
}
