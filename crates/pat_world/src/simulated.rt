//! The world as what plays runs.
use crate::World;
use cluster_model::Step;
use event_list::EventList;
use script_model::Head;
use simulation::Simulation;
use std::alloc::{AllocError, Global};

impl Simulation for World {
    ghost facts = { λ world. world };

    fn begin(alloc: Global, head: &Head) -> Result<World, AllocError> {
        World::new(alloc, head)
    }

    fn close(self) {
        World::close(self);
    }

    fn step(&mut self, step: &Step, events: &mut EventList) -> Result<(), AllocError> {
        World::step(self, step, events)
    }

    fn idle_for(&mut self, step: &Step, most: u64) -> u64 {
        World::idle_for(self, step, most)
    }
}
