//! The runner: it runs a program with the open calls in a list.

ghost use Rattle.std.specs.Prelude.{◌+◌, ◌<◌, ◌≡◌, ◌≤◌, ℕ, IfOk, IsSome, None, OnOk, Option, Some, length};
ghost use Rattle.core_program.specs.{Replay.end_of, Run.End, Run.Ended, Run.Halted, State.stack_end, Tree.Out};
ghost use Rattle.core_program.specs.ProgramRows.{ProgramRows, routine_at};
ghost use Rattle.eval_ops.specs.Machines.{AllowsCall, IsReady, machine_state, moment_of};
ghost use Rattle.evaluator.specs.declared.body.Body as bodies;
ghost use Rattle.program_run.specs.Runners.{At, AtRest, CallBegun, Chain, InnermostEnds, IsWell, cells_begun};
ghost use Rattle.program_run.specs.Runners.{invocation, opens_in, rest_in, work_left};
ghost use Rattle.program_run.specs.Table.{side_of};
ghost use Rattle.program_run.specs.Tower.{Calls as Calling, Ends, First, IsOver, stage_after};

use crate::open_call::OpenCall;
use call_tree::{Calls, Side};
use cell_value::{Cells, Memory, Value, WayOut};
use core_program::{Program, Routine};
use eval_ops::{Halt, Machine, close_call, make_frame, open_call, remove_frame};
use evaluator::{Body, Stop, go_on};
use std::alloc::{AllocError, Global};

/// A run at work.
#[derive(Drop)]
pub struct Runner {
    pub machine: Machine,
    /// The calls so far.
    pub calls: Calls,
    /// The open calls, the outermost first.
    pub opens: Vec<OpenCall>,
    /// What the innermost open call has still to do, and nothing where no call is open.
    pub body: Option<Body>,
}

/// What is kept of a state beside a call.
fn side(machine: &Machine) -> Result<Side, Memory>
    requires few { length machine.now.output < 4294967296 }
    ensures { IfOk result (λ s. s ≡ side_of (length machine.now.log) (machine_state machine.now)) }
{
    let store = machine.store.snapshot()?;
    Ok(Side {
        mark: machine.log.len(),
        top: machine.top,
        fresh: machine.fresh,
        place: machine.place,
        output: machine.output.as_slice().len() as u32,
        steps: machine.steps,
        calls: machine.calls,
        store,
    })
}

/// How a call begins.
#[derive(Clone, Copy)]
pub enum Begun {
    /// In a frame of this many cells.
    Framed(u32),
    /// The frame is not made, and the call ends so.
    Ended(WayOut),
}

/// Enters a call of a routine and makes its frame.
fn begin(
    alloc: Global,
    machine: &mut Machine,
    args: &Cells,
    routine: Routine,
) -> Result<Begun, Memory>
    requires ready { IsReady machine.old }
    requires room { AllowsCall machine.old }
    ensures begins { IfOk result (λ begun. (p : ProgramRows) (f : ℕ) → routine_at p f ≡ Some routine
        → CallBegun p (invocation f routine args.now) begun (moment_of machine.old) (moment_of machine.new)) }
    ensures fits { IfOk result (λ begun. machine.old.top + cells_begun begun ≤ stack_end) }
    ensures spent { OnOk result (machine.new.steps ≤ machine.old.steps) }
    ensures ready { OnOk result (IsReady machine.new) }
{
    open_call(machine);
    match make_frame(alloc, machine, args, routine) {
        Ok(cells) => Ok(Begun::Framed(cells)),
        Err(Halt::Fault(kind)) => Ok(Begun::Ended(WayOut::Faulted(kind, 0))),
        Err(Halt::OutOfSteps) => Ok(Begun::Ended(WayOut::OutOfSteps)),
        Err(Halt::Limited(which)) => Ok(Begun::Ended(WayOut::Limited(which))),
        Err(Halt::Memory) => Err(AllocError),
    }
}

impl Runner {
    /// Ends the innermost open call, and gives its caller.
    fn leave(
        &mut self,
        alloc: Global,
        way: WayOut,
        answer: Option<Value>,
    ) -> Result<Option<Body>, Memory>
        requires well { IsWell self.old }
        requires open { 0 < length self.old.opens.items }
        ensures left { IfOk result (λ caller. (p : ProgramRows) (first : First) (e : End)
            → InnermostEnds p first e self.old (way, answer) → At p first (stage_after (rest_in p caller) e) self.new) }
        ensures chain { IfOk result (λ caller. (body : bodies.Body) → Chain (Some body) (opens_in self.old)
            → Chain caller (opens_in self.new)) }
        ensures fewer { OnOk result (length self.new.opens.items < length self.old.opens.items) }
        ensures same_steps { OnOk result (self.new.machine.steps ≡ self.old.machine.steps) }
        ensures same_calls { OnOk result (self.new.machine.calls ≡ self.old.machine.calls) }
        ensures well { OnOk result (IsWell self.new) }
    {
        let open = self.opens.pop().unwrap();
        remove_frame(alloc, &mut self.machine, open.base, open.cells)?;
        let depth = self.machine.depth.saturating_sub(1);
        close_call(&mut self.machine, depth);
        let exit = side(&self.machine)?;
        self.calls.leave(exit, way, answer);
        Ok(open.caller)
    }

    /// Ends each open call in the same way, the innermost first.
    fn halt(&mut self, alloc: Global, way: WayOut) -> Result<(), Memory>
        requires well { IsWell self.old }
        ensures over { (p : ProgramRows) (first : First) → At p first (Ends (Halted way)) self.old
            → OnOk result (AtRest p first self.new.body self.new) }
        ensures less { OnOk result (work_left self.new + length self.old.opens.items ≤ work_left self.old) }
        ensures chain { OnOk result (Chain self.new.body (opens_in self.new)) }
        ensures well { OnOk result (IsWell self.new) }
    {
        'calls: while !self.opens.is_empty() {
            self.leave(alloc, way, None)?;
        }
        self.body = None;
        Ok(())
    }

    /// Ends the innermost open call, which returned or was left by a jump, and goes on in its caller.
    fn resume(&mut self, alloc: Global, way: WayOut, answer: Option<Value>) -> Result<(), Memory>
        requires well { IsWell self.old }
        requires open { 0 < length self.old.opens.items }
        requires chain { (body : bodies.Body) × Chain (Some body) (opens_in self.old) }
        ensures rests { (p : ProgramRows) (first : First) (out : Out)
            → InnermostEnds p first (Ended out) self.old (way, answer) → end_of way answer ≡ Ended out
            → OnOk result (AtRest p first self.new.body self.new) }
        ensures less { OnOk result (work_left self.new < work_left self.old) }
        ensures chain { OnOk result (Chain self.new.body (opens_in self.new)) }
        ensures well { OnOk result (IsWell self.new) }
    {
        match self.leave(alloc, way, answer)? {
            None => {
                self.body = None;
                Ok(())
            }
            Some(mut caller) => {
                caller.child_ended(way, answer);
                self.body = Some(caller);
                Ok(())
            }
        }
    }

    /// Ends the innermost open call.
    fn end(&mut self, alloc: Global, way: WayOut, answer: Option<Value>) -> Result<(), Memory>
        requires well { IsWell self.old }
        requires open { 0 < length self.old.opens.items }
        requires chain { (body : bodies.Body) × Chain (Some body) (opens_in self.old) }
        ensures rests { (p : ProgramRows) (first : First) → At p first (Ends (end_of way answer)) self.old
            → OnOk result (AtRest p first self.new.body self.new) }
        ensures less { OnOk result (work_left self.new < work_left self.old) }
        ensures chain { OnOk result (Chain self.new.body (opens_in self.new)) }
        ensures well { OnOk result (IsWell self.new) }
    {
        match way {
            WayOut::Returned => self.resume(alloc, way, answer),
            WayOut::Jumped(_, _) => self.resume(alloc, way, None),
            WayOut::Faulted(_, _) => self.halt(alloc, way),
            WayOut::OutOfSteps => self.halt(alloc, way),
            WayOut::Limited(_) => self.halt(alloc, way),
        }
    }

    /// Enters a call of a routine that is there, for a caller, and begins its body.
    pub fn enter(
        &mut self,
        alloc: Global,
        program: &Program,
        caller: Option<Body>,
        routine: u32,
        args: Cells,
    ) -> Result<(), Memory>
        requires well { IsWell self.old }
        requires room { AllowsCall self.old.machine }
        requires there { IsSome (routine_at program.now routine) }
        requires under { 0 < length self.old.calls.calls → 0 < length self.old.opens.items }
        requires chain { Chain caller (opens_in self.old) }
        requires calls { (first : First) × At program.now first (Calling routine args (rest_in program.now caller))
            self.old }
        ensures rests { (first : First) → At program.now first (Calling routine args (rest_in program.now caller))
            self.old → OnOk result (AtRest program.now first self.new.body self.new) }
        ensures less { OnOk result (work_left self.new + 1 ≤ work_left self.old) }
        ensures chain { OnOk result (Chain self.new.body (opens_in self.new)) }
        ensures well { OnOk result (IsWell self.new) }
    {
        let row = program.routine(routine).unwrap();
        let base = self.machine.top;
        let entry = side(&self.machine)?;
        let begun = begin(alloc, &mut self.machine, &args, row)?;
        self.calls.enter(routine, args, entry)?;
        match begun {
            Begun::Framed(cells) => {
                self.opens.push(OpenCall {
                    caller,
                    base,
                    cells,
                })?;
                self.body = Some(Body::new(alloc, routine, base));
                Ok(())
            }
            Begun::Ended(way) => {
                self.opens.push(OpenCall {
                    caller,
                    base,
                    cells: 0,
                })?;
                self.halt(alloc, way)
            }
        }
    }

    /// Goes on with the body of the innermost open call to its next stop. Where no call is open, it does nothing.
    fn go_on(&mut self, alloc: Global, program: &Program) -> Result<(), Memory>
        requires well { IsWell self.old }
        requires chain { Chain self.old.body (opens_in self.old) }
        requires rests { (first : First) × AtRest program.now first self.old.body self.old }
        ensures rests { (first : First) → AtRest program.now first self.old.body self.old
            → OnOk result (AtRest program.now first self.new.body self.new) }
        ensures less { (body : bodies.Body) → self.old.body ≡ Some body
            → OnOk result (work_left self.new < work_left self.old) }
        ensures chain { OnOk result (Chain self.new.body (opens_in self.new)) }
        ensures well { OnOk result (IsWell self.new) }
    {
        match &mut self.body {
            None => Ok(()),
            // The body stays where it is from line to line: it is large.
            Some(body) => match go_on(body, alloc, program, &mut self.machine)? {
                Stop::Line(_) => Ok(()),
                Stop::Enter(routine, args) => {
                    let caller = self.body.take();
                    self.enter(alloc, program, caller, routine, args)
                }
                Stop::Ended(way, answer) => self.end(alloc, way, answer),
            },
        }
    }

    /// Goes on until no call is open.
    pub fn go(&mut self, alloc: Global, program: &Program) -> Result<(), Memory>
        requires well { IsWell self.old }
        requires chain { Chain self.old.body (opens_in self.old) }
        requires rests { (first : First) × AtRest program.now first self.old.body self.old }
        ensures over { (first : First) → AtRest program.now first self.old.body self.old
            → OnOk result (IsOver program.now first (moment_of self.new.machine) self.new.calls) }
    {
        'stops: loop {
            match &self.body {
                None => return Ok(()),
                Some(_) => self.go_on(alloc, program)?,
            }
        }
    }
}
