//! Who plays runs: steps, and what they print.
ghost use Rattle.std.specs.Prelude.{◌≡◌, ◌<◌, ◌∷◌, ◌++◌, [], false, length, IfOk, IsErrOf, OnOk, replicate, Some};
ghost use Rattle.pat_outside.specs.Prints.{Prints};
ghost use Rattle.script_model.specs.Script.{IsLine, names_of};
ghost use Rattle.cluster_model.specs.Cluster.{cluster_over};
ghost use Rattle.cluster_model.specs.Next.{run_events};
ghost use Rattle.cluster_model.specs.Starting.{cluster_of};
ghost use Rattle.cluster_model.specs.Steps.{IsStep, names_in, steps_of, steps_of_line};
ghost use Rattle.summary_model.specs.SummaryText.{closing_text};
ghost use Rattle.world_model.specs.Idle.{IsTick};
ghost use Rattle.world_model.specs.Room.{most_steps};
ghost use Rattle.simulation.specs.Steps.{HasStepsLeft, IsCounted, TookSteps};
ghost use Rattle.run_player.specs.Playing.{Idles, Plays, PrintsWholeSteps, player_of};
ghost use Rattle.run_model.specs.Run.{noted_from, printed_from, traced_after};
ghost use Rattle.run_model.specs.Watches.{first_summary};

use cluster_model::Step;
use event_list::EventList;
use pat_outside::{Discard, Sink};
use run_printing::{
    PrintError, first_summary, note, note_ticks, print_closing, print_lines, set_text,
};
use script_model::{Command, Head, Line, Script};
use simulation::Simulation;
use std::alloc::{AllocError, Global};
use summary::Summary;

/// Takes steps in a world, and prints what happens. It can't be dropped, since a world can't: `into_world` gives that back.
pub struct Player<W> {
    pub alloc: Global,
    pub world: W,
    /// Whether messages are traced.
    pub trace: bool,
    /// What the steps so far come to in the closing summary.
    pub summary: Summary,
    /// A buffer for the events of one step.
    events: EventList,
    /// A buffer for the text of one step.
    pub text: String,
}

impl<W: Simulation> Player<W> {
    /// The player of the world of this head, in which no step was taken. It fails only for want of memory.
    pub fn new(alloc: Global, head: &Head) -> Result<Player<W>, AllocError>
        ensures world { IfOk result (λ player. (W.facts player.world).cluster ≡ cluster_of head.now) }
        ensures steps { IfOk result (λ player. (W.facts player.world).steps ≡ 0) }
        ensures room { IfOk result (λ player. HasStepsLeft (W.facts player.world) most_steps) }
        ensures counted { IfOk result (λ player. IsCounted (W.facts player.world)) }
        ensures trace { IfOk result (λ player. player.trace ≡ false) }
        ensures summary { IfOk result (λ player. player.summary ≡ first_summary head.now) }
    {
        let summary = first_summary(alloc, head)?;
        // the world comes last, since nothing that fails may leave it behind
        let world = W::begin(alloc, head)?;
        Ok(Player {
            alloc,
            world,
            trace: false,
            summary,
            events: EventList::new(alloc, false),
            text: String::new(alloc),
        })
    }

    /// The world after the steps that were taken.
    pub fn into_world(self) -> W
        ensures { result ≡ self.world }
    {
        let Player {
            alloc: _,
            world,
            trace: _,
            summary: _,
            events: _,
            text: _,
        } = self;
        world
    }

    /// The lines of a script, one after another, and then the closing summary.
    pub(crate) fn play<K: Sink>(&mut self, script: Script, out: &mut K) -> Result<(), PrintError>
        requires room { HasStepsLeft (W.facts self.old.world) (length (steps_of script.body)) }
        requires members { names_in (W.facts self.old.world).cluster.facts.members ≡ names_of script.head }
        ensures world { OnOk result ((W.facts self.new.world).cluster ≡ cluster_over (W.facts self.old.world).cluster (run_events (W.facts self.old.world).cluster (steps_of script.body))) }
        ensures taken { OnOk result (TookSteps (W.facts self.old.world) (W.facts self.new.world) (length (steps_of script.body))) }
        ensures printed { Prints K.Sink out.old out.new PrintError.Write result
            (printed_from (W.facts self.old.world).cluster self.old.trace (steps_of script.body) ++ closing_text (noted_from self.old.summary (W.facts self.old.world).cluster (steps_of script.body)).watch.closing) }
        ensures whole { IsErrOf result PrintError.Memory → PrintsWholeSteps K.Sink out.old out.new (W.facts self.old.world).cluster self.old.trace (steps_of script.body) }
    {
        self.play_body(script, out)?;
        print_closing(self.alloc, &self.summary.closing(), out)
    }

    /// The lines of a script, one after another, in silence, and then the closing summary.
    pub(crate) fn drill<K: Sink>(&mut self, script: Script, out: &mut K) -> Result<(), PrintError>
        requires room { HasStepsLeft (W.facts self.old.world) (length (steps_of script.body)) }
        requires members { names_in (W.facts self.old.world).cluster.facts.members ≡ names_of script.head }
        ensures world { OnOk result ((W.facts self.new.world).cluster ≡ cluster_over (W.facts self.old.world).cluster (run_events (W.facts self.old.world).cluster (steps_of script.body))) }
        ensures taken { OnOk result (TookSteps (W.facts self.old.world) (W.facts self.new.world) (length (steps_of script.body))) }
        ensures printed { Prints K.Sink out.old out.new PrintError.Write result
            (closing_text (noted_from self.old.summary (W.facts self.old.world).cluster (steps_of script.body)).watch.closing) }
        ensures memory { IsErrOf result PrintError.Memory → out.new ≡ out.old }
    {
        self.play_body(script, &mut Discard)?;
        print_closing(self.alloc, &self.summary.closing(), out)
    }

    /// Takes the steps of a script's lines, one line after another, and prints what happens, each line in one piece. On Err it may have
    /// taken some of them: where memory is wanting, what was printed are the lines of whole steps.
    pub fn play_body<K: Sink>(&mut self, script: Script, out: &mut K) -> Result<(), PrintError>
        requires room { HasStepsLeft (W.facts self.old.world) (length (steps_of script.body)) }
        requires members { names_in (W.facts self.old.world).cluster.facts.members ≡ names_of script.head }
        ensures { Plays K.Sink (player_of W.facts self.old) (player_of W.facts self.new) out.old out.new result (steps_of script.body) }
    {
        let mut lines = script.into_lines();
        while let Some(line) = lines.next() {
            self.play_line(line, out)?;
        }
        Ok(())
    }

    fn play_line<K: Sink>(&mut self, line: Line, out: &mut K) -> Result<(), PrintError>
        requires room { HasStepsLeft (W.facts self.old.world) (length (steps_of_line line)) }
        requires declared { IsLine (names_in (W.facts self.old.world).cluster.facts.members) line }
        ensures { Plays K.Sink (player_of W.facts self.old) (player_of W.facts self.new) out.old out.new result (steps_of_line line) }
    {
        match line {
            Line::Run(count) => self.play_ticks(count, &Step::Scheduled, out),
            Line::Tick(count) => self.play_ticks(count, &Step::Tick, out),
            Line::Command(command) => self.play_step(&Step::Command(command), out),
        }
    }

    /// So many ticks of one kind. Those that bring nothing else are taken at once, as far as that is known: they print nothing.
    fn play_ticks<K: Sink>(
        &mut self,
        count: u64,
        step: &Step,
        out: &mut K,
    ) -> Result<(), PrintError>
        requires room { HasStepsLeft (W.facts self.old.world) count }
        requires tick { IsTick step.now }
        ensures { Plays K.Sink (player_of W.facts self.old) (player_of W.facts self.new) out.old out.new result (replicate count step.now) }
    {
        let mut left = count;
        while left > 0 {
            self.play_step(step, out)?;
            left = self.idle(step, left - 1)?;
        }
        Ok(())
    }

    /// Takes those of so many ticks of one kind at once that are known to bring nothing else, and answers how many are left.
    fn idle(&mut self, step: &Step, count: u64) -> Result<u64, AllocError>
        requires tick { IsTick step.now }
        requires room { HasStepsLeft (W.facts self.old.world) count }
        ensures { IfOk result (Idles (player_of W.facts self.old) (player_of W.facts self.new) step.now count) }
    {
        let ticks = self.world.idle_for(step, count);
        note_ticks(&mut self.summary, ticks)?;
        Ok(count - ticks)
    }

    fn play_step<K: Sink>(&mut self, step: &Step, out: &mut K) -> Result<(), PrintError>
        requires room { HasStepsLeft (W.facts self.old.world) 1 }
        requires declared { IsStep (W.facts self.old.world).cluster.facts.members step.now }
        ensures { Plays K.Sink (player_of W.facts self.old) (player_of W.facts self.new) out.old out.new result (step.now ∷ []) }
    {
        self.events.begin(self.trace);
        self.world.step(step, &mut self.events)?;
        note(&mut self.summary, &self.events)?;
        // the whole text comes first, so that behind it only the sink can fail
        set_text(&mut self.text, &self.events, self.trace)?;
        print_lines(self.text.as_bytes(), out)?;
        self.trace = traced_after(self.trace, step);
        Ok(())
    }
}

/// Whether messages are traced after a step.
fn traced_after(trace: bool, step: &Step) -> bool
    ensures { result ≡ traced_after trace step.now }
{
    match step {
        Step::Command(Command::Trace(on)) => *on,
        _ => trace,
    }
}
