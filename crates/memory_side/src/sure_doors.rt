//! Doors in memory.
ghost use Rattle.std.specs.Prelude.{◌≡◌, ◌↔◌, ◌≤◌, [], IfOk, IsNone, Some, None, map, length, slice_get};
ghost use Rattle.std.specs.Option.{option_copied};
ghost use Rattle.memory_side.specs.Memory.{Supply, DoorsTold, written_by};
ghost use Rattle.agg_outside.specs.Links.{Closed};

use crate::sure_done::SureDone;
use crate::sure_sink::SureSink;
use crate::sure_source::SureSource;
use agg_outside::{Bytes, Doors, Failed, Keys, Memory};
use std::alloc::Global;
use std::collections::VecDeque;
use std::marker::Model;

/// Gives out links whose inputs are all there, and never fails.
#[derive(Debug, Drop)]
pub struct SureDoors {
    alloc: Global,
    sources: VecDeque<SureSource>,
    back: Vec<SureDone>,
    port: u16,
    links: u32,
    given: u32,
}

impl Model for SureDoors {
    ghost use Rattle.std.specs.Prelude.{◌≤◌, ◌+◌, length, map, vec_capacity};
    ghost use Rattle.memory_side.specs.Memory.{Supply, DoorsTold};

    ghost Value = { DoorsTold };

    ghost view = { λ d. record {
      port = d.port;
      links = d.links;
      given = d.given;
      taken = length d.back.items;
      left = map (λ (s : Supply). s.left) d.sources.items;
      back = d.back.items;
    } };

    // There is room for each link that is out or left.
    ghost invariant = { λ d. (d.given ≤ d.links) × (length d.back.items ≤ d.given) × (d.given + length d.sources.items ≤ vec_capacity d.back) };
}

impl SureDoors {
    /// Doors whose links have copies of these inputs, in order.
    pub fn new(alloc: Global, start: &Keys) -> Result<SureDoors, Memory>
        ensures { IfOk result (λ d. d ≡ record { port = 0; links = 0; given = 0; taken = 0; left = start.now; back = [] }) }
    {
        let sources = sources_of(alloc, start.as_slice())?;
        let back = Vec::with_capacity(alloc, sources.len())?;
        Ok(SureDoors {
            alloc,
            sources,
            back,
            port: 0,
            links: 0,
            given: 0,
        })
    }

    /// What the link at that place among those taken back, from 0, had written; `None` exactly where
    /// there is no such link.
    pub fn output(&self, link: usize) -> Option<&[u8]>
        ensures value { option_copied result ≡ written_by (slice_get self.now.back link) }
        ensures none { IsNone result ↔ length self.now.back ≤ link }
    {
        match self.back.get(link) {
            Some(done) => Some(done.written()),
            None => None,
        }
    }
}

fn sources_of(alloc: Global, inputs: &[Bytes]) -> Result<VecDeque<SureSource>, Memory>
    ensures { IfOk result (λ sources. map (λ (s : Supply). s.left) sources.items ≡ inputs.now) }
{
    let mut sources = VecDeque::new(alloc);
    for input in inputs {
        sources.push_back(SureSource::new(alloc, input.as_slice())?)?;
    }
    Ok(sources)
}

impl Doors for SureDoors {
    type In = SureSource;

    type Out = SureSink;

    type Done = SureDone;

    ghost faults = { λ _. 0 };

    ghost port = { λ d. d.port };

    ghost links = { λ d. d.links };

    ghost given = { λ d. d.given };

    ghost taken = { λ d. d.taken };

    ghost left = { λ d. Some d.left };

    ghost back = { λ d. Some d.back };

    ghost closed = { λ d. d };

    fn listen(&mut self, number: u16, count: u32) -> Result<(), Failed> {
        self.port = number;
        self.links = count;
        self.given = 0;
        self.back.clear();
        Ok(())
    }

    fn next_link(&mut self) -> Result<Option<(SureSource, SureSink)>, Failed> {
        if self.given == self.links {
            return Ok(None);
        }
        let Some(source) = self.sources.pop_front() else {
            return Ok(None);
        };
        self.given += 1;
        Ok(Some((source, SureSink::empty(self.alloc))))
    }

    fn close_link(input: SureSource, output: SureSink) -> SureDone {
        SureDone::new(input, output)
    }

    fn take_back(&mut self, done: SureDone) {
        let Ok(()) = self.back.push(done) else {
            unreachable!()
        };
    }
}
