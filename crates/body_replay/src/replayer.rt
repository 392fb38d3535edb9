//! A body at work again, whose calls do what their records say.

ghost use Rattle.std.specs.Prelude.{◌+◌, ◌<◌, ◌≡◌, IfOk, None, OnOk, Some};
ghost use Rattle.core_program.specs.ProgramRows.{ProgramRows};
ghost use Rattle.eval_ops.specs.Machines.{IsReady};
ghost use Rattle.program_run.specs.declared.history.History as kept;
ghost use Rattle.body_replay.specs.{Counting.CountsEachStep, Counting.Tally, Traces.tally_of};
ghost use Rattle.body_replay.specs.Again.{AfterChild, AfterTurn, AtBody, AtChild, Job, work_left};

use crate::applied::apply;
use crate::counted::count_steps;
use call_tree::{Event, Events};
use cell_value::{Memory, Steps, Value, WayOut};
use core_program::Program;
use eval_ops::Machine;
use evaluator::{Body, Stop, go_on};
use program_run::History;
use std::alloc::Global;

/// A body at work again.
#[derive(Drop)]
pub struct Replayer {
    pub machine: Machine,
    pub body: Body,
    /// The events so far.
    pub events: Events,
    /// The number of the next call that the body makes.
    pub next: u32,
}

impl Replayer {
    /// Puts the effect of the next call in place of its run, and gives how that call ended.
    fn meet<L>(
        &mut self,
        alloc: Global,
        run: &History,
        steps: &mut Steps<L>,
    ) -> Result<(WayOut, Option<Value>), Memory>
        requires ready { IsReady self.old.machine }
        requires child { (p : ProgramRows) × (j : Job run.now) × AtChild p run.now j self.old }
        ensures met { (p : ProgramRows) (j : Job run.now) → AtChild p run.now j self.old
            → IfOk result (λ end. AfterChild p run.now j end self.new) }
        ensures ready { OnOk result (IsReady self.new.machine) }
        ensures less { OnOk result (work_left self.new < work_left self.old) }
        ensures counts { (first : Tally) → CountsEachStep run.now first (tally_of steps.old self.old)
            → OnOk result (CountsEachStep run.now first (tally_of steps.new self.new)) }
    {
        let number = self.next;
        let call = run.calls.call(number);
        apply(alloc, &mut self.machine, &run.log, call, number, steps)?;
        self.events.push(Event::Child(number))?;
        self.next = call.last + 1;
        Ok((call.way, call.result))
    }

    /// Goes on after a call that ended so, or gives how the body ended.
    fn resume(&mut self, way: WayOut, answer: Option<Value>) -> Option<(WayOut, Option<Value>)>
        ensures turned { (p : ProgramRows) (h : kept.History) (j : Job h)
            → AfterChild p h j (way, answer) self.old → AfterTurn p h j result self.new }
        ensures machine { self.new.machine ≡ self.old.machine }
        ensures events { self.new.events ≡ self.old.events }
    {
        match way {
            WayOut::Returned => {
                self.body.child_ended(way, answer);
                None
            }
            WayOut::Jumped(_, _) => {
                self.body.child_ended(way, answer);
                None
            }
            _ => Some((way, None)),
        }
    }

    /// Goes on to the next stop of the body, and over it. It gives how the body ended, if it did.
    fn step<L>(
        &mut self,
        alloc: Global,
        program: &Program,
        run: &History,
        steps: &mut Steps<L>,
    ) -> Result<Option<(WayOut, Option<Value>)>, Memory>
        requires ready { IsReady self.old.machine }
        requires rests { (j : Job run.now) × AtBody program.now run.now j self.old }
        ensures turned { (j : Job run.now) → AtBody program.now run.now j self.old
            → IfOk result (λ end. AfterTurn program.now run.now j end self.new) }
        ensures ready { OnOk result (IsReady self.new.machine) }
        ensures less { IfOk result (λ end. end ≡ None → work_left self.new < work_left self.old) }
        ensures counts { (first : Tally) → CountsEachStep run.now first (tally_of steps.old self.old)
            → OnOk result (CountsEachStep run.now first (tally_of steps.new self.new)) }
    {
        let before = self.machine.steps;
        let stop = go_on(&mut self.body, alloc, program, &mut self.machine)?;
        count_steps(steps, before, self.machine.steps);
        match stop {
            Stop::Line(line) => {
                self.events.push(Event::Line(line))?;
                Ok(None)
            }
            Stop::Enter(_, args) => {
                // The record of the call has them too.
                drop(args);
                let (way, answer) = self.meet(alloc, run, steps)?;
                Ok(self.resume(way, answer))
            }
            Stop::Ended(way, answer) => Ok(Some((way, answer))),
        }
    }

    /// Goes on until the body has ended, and gives how it ended. Each step that is taken, and each change of a cell by
    /// the effect of a call, is counted.
    pub fn go<L>(
        &mut self,
        alloc: Global,
        program: &Program,
        run: &History,
        steps: &mut Steps<L>,
    ) -> Result<(WayOut, Option<Value>), Memory>
        requires ready { IsReady self.old.machine }
        requires rests { (j : Job run.now) × AtBody program.now run.now j self.old }
        ensures over { (j : Job run.now) → AtBody program.now run.now j self.old
            → IfOk result (λ end. AfterTurn program.now run.now j (Some end) self.new) }
        ensures ready { OnOk result (IsReady self.new.machine) }
        ensures counts { (first : Tally) → CountsEachStep run.now first (tally_of steps.old self.old)
            → OnOk result (CountsEachStep run.now first (tally_of steps.new self.new)) }
    {
        'stops: loop {
            match self.step(alloc, program, run, steps)? {
                None => {}
                Some(end) => return Ok(end),
            }
        }
    }
}
