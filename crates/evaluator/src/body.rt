//! A body, and the single steps on it.

ghost use Rattle.std.specs.Prelude.{if◌then◌else◌, ◌+◌, ◌∷◌, ◌≡◌, ℕ, Err, IfErr, OnOk, Some, max};
ghost use Rattle.cell_value.specs.declared.values.Value.{Value as CellValue};
ghost use Rattle.core_program.specs.{Accesses.address, Accesses.scalar, Actions.Action, Actions.performs};
ghost use Rattle.core_program.specs.{ProgramRows.ProgramRows, ProgramRows.routine_at, Replay.end_of, Run.Ended};
ghost use Rattle.core_program.specs.{Run.whole, Statements.nothing, declared.program.Routine.Routine as RoutineRow};
ghost use Rattle.core_program.specs.Tree.{Bounded, Cells as CellsOut, Out, Ret, bind, doing};
ghost use Rattle.eval_ops.specs.Machines.{DoesAll, Moment};
ghost use Rattle.evaluator.specs.Rest.{below_list, below_passed, below_top, copies_in, copy_of, first_of, from};
ghost use Rattle.evaluator.specs.Rest.{from_under, home_below, left_now, lists_below, lists_of, rest_of, resume};
ghost use Rattle.evaluator.specs.Rest.{tasks_of, top, top_list, values_below, values_of, waiting, with_copy};
ghost use Rattle.evaluator.specs.Turns.{Configuration, Leads, Moves, Turns, before};
ghost use Rattle.evaluator.specs.Weight.{Falls, body_weight, come, now_weight, task_weight, tasks_weight};

use crate::records::Records;
use crate::tasks::{
    ChoiceTask, Home, Located, Next, Now, OperandTask, Part, Pause, Task, TransferTask, Way,
};
use cell_value::{Cells, Value, WayOut};
use eval_ops::Halt;
use std::alloc::Global;
use std::mem::size_of;

/// The copy of an array that is passed by value: which cell of the parameters is to have its address, and its values.
#[derive(Drop)]
pub struct Copied {
    pub at: u32,
    pub cells: Cells,
}

/// One activation of a routine. Whatever its parts hold has a meaning, and so they are open to the files that take its
/// turns. Nothing is said of what a body does after `Memory`.
#[derive(Drop)]
pub struct Body {
    /// The routine that it is of, and where its frame begins.
    pub home: Home,
    /// What waits for the part that is at work.
    pub tasks: Vec<Task>,
    /// The values that wait, of left operands and of for statements.
    pub values: Vec<Value>,
    /// The lists of cells that wait, of actual parameters and of assignments.
    pub lists: Vec<Cells>,
    /// Of each call whose actual parameters are being passed, the copies of arrays that go with them.
    pub copies: Vec<Vec<Copied>>,
    pub now: Now,
    /// The line at which the last turn failed.
    pub line: u32,
}

/// How a turn ends: at a stop, or before one, or it fails on the body's `line`.
pub type Turned = Result<Option<Pause>, Halt>;

const _: () = prove!(size_of::<Turned>() <= 16);

impl Body {
    /// A body at its beginning, of a routine whose frame begins at a base. It takes no memory yet.
    pub fn new(alloc: Global, routine: u32, base: u32) -> Body
        ensures begins { (p : ProgramRows) (r : RoutineRow) → routine_at p routine ≡ Some r
            → rest_of p result ≡ whole p routine base r }
    {
        Body {
            home: Home {
                routine,
                base,
                records: Records::new(alloc),
            },
            tasks: Vec::new(alloc),
            values: Vec::new(alloc),
            lists: Vec::new(alloc),
            copies: Vec::new(alloc),
            now: Now::Begin(Part::Block),
            line: 0,
        }
    }

    /// Goes on after the call that the body stopped at, by how that call ended: it returned, and then with the result
    /// of a function, or a goto left it.
    pub fn child_ended(&mut self, way: WayOut, answer: Option<Value>)
        ensures goes_on { (p : ProgramRows) (out : Out) → end_of way answer ≡ Ended out
            → rest_of p self.new ≡ waiting p self.old out }
        ensures home { self.new.home ≡ self.old.home }
    {
        self.now = Now::Came(match (way, answer) {
            (WayOut::Returned, Some(value)) => Way::Scalar(value),
            (WayOut::Jumped(label, base), _) => Way::Jump(label, base),
            _ => Way::Nothing,
        });
    }

    /// Puts a task on top of those that wait, and sets what is now at work.
    #[inline(always)]
    pub fn wait(&mut self, task: Task, now: Now) -> Turned
        ensures turns { (p : ProgramRows) → Leads p (from_under p self.old now task) result self.new }
        ensures home { self.new.home ≡ self.old.home }
        ensures falls { Falls result (body_weight self.new)
            (now_weight now + task_weight task + tasks_weight self.old + 1) }
    {
        self.tasks.push(task)?;
        self.now = now;
        Ok(None)
    }

    /// Lets a value wait, which the task holds that is put on top, and sets what is now at work.
    #[inline(always)]
    pub fn hold(&mut self, value: Value, task: Task, now: Now) -> Turned
        ensures turns { (p : ProgramRows) → Leads p (left_now p self.old.home now (task ∷ tasks_of self.old) (value ∷
            values_of self.old) (lists_of self.old)) result self.new }
        ensures home { self.new.home ≡ self.old.home }
        ensures falls { Falls result (body_weight self.new)
            (now_weight now + task_weight task + tasks_weight self.old + 1) }
    {
        self.values.push(value)?;
        self.tasks.push(task)?;
        self.now = now;
        Ok(None)
    }

    /// Sets what is now at work.
    #[inline(always)]
    pub fn go(&mut self, now: Now) -> Turned
        ensures turns { (p : ProgramRows) → Leads p (from p self.old now) result self.new }
        ensures home { self.new.home ≡ self.old.home }
        ensures falls { Falls result (body_weight self.new) (now_weight now + tasks_weight self.old + 1) }
    {
        self.now = now;
        Ok(None)
    }

    /// Stops for good, since an action on a line was not done.
    #[inline(always)]
    pub fn fail(&mut self, line: u32, halt: Halt) -> Turned
        ensures fails { result ≡ Err halt }
        ensures line { self.new.line ≡ line }
        ensures home { self.new.home ≡ self.old.home }
    {
        self.line = line;
        Err(halt)
    }

    /// Stops for good, since the tables are not whole. That never comes of a program; it counts as out of memory.
    #[inline(always)]
    pub fn no_row(&mut self) -> Turned
        ensures turns { (p : ProgramRows) (c : Configuration) (m : Moment) → Turns p c result self.new m }
        ensures fails { result ≡ Err Halt.Memory }
        ensures home { self.new.home ≡ self.old.home }
        ensures falls { Falls result (body_weight self.new) 0 }
    {
        self.fail(0, Halt::Memory)
    }

    /// An action on a line gave the value of an expression, or it was not done.
    #[inline(always)]
    pub fn scalar(&mut self, line: u32, done: Result<Value, Halt>) -> Turned
        ensures moves { (p : ProgramRows) (a : Action CellValue) (m m' : Moment)
            → DoesAll (λ v. v) (performs a m.state) done m m'
            → Moves p (before self.old m (bind (doing line a scalar) (waiting p self.old)) (come + 1)) result
            self.new m' }
        ensures falls { Falls result (body_weight self.new) (come + tasks_weight self.old + 1) }
        ensures home { self.new.home ≡ self.old.home }
    {
        match done {
            Ok(value) => self.go(Now::Came(Way::Scalar(value))),
            Err(halt) => self.fail(line, halt),
        }
    }

    /// An action on a line gave the address of a variable, or it was not done.
    #[inline(always)]
    pub fn address(&mut self, line: u32, done: Result<u32, Halt>) -> Turned
        ensures moves { (p : ProgramRows) (a : Action ℕ) (m m' : Moment)
            → DoesAll (λ n. n) (performs a m.state) done m m'
            → Moves p (before self.old m (bind (doing line a address) (waiting p self.old)) (come + 1)) result
            self.new m' }
        ensures falls { Falls result (body_weight self.new) (come + tasks_weight self.old + 1) }
        ensures home { self.new.home ≡ self.old.home }
    {
        match done {
            Ok(addr) => self.go(Now::Came(Way::Address(addr))),
            Err(halt) => self.fail(line, halt),
        }
    }

    /// An action on a line gave a conformant array and the frame that has its bounds, or it was not done.
    #[inline(always)]
    pub fn bounded(&mut self, line: u32, done: Result<(u32, u32), Halt>) -> Turned
        ensures moves { (p : ProgramRows) (a : Action (ℕ × ℕ)) (m m' : Moment)
            → DoesAll (λ x. x) (performs a m.state) done m m'
            → Moves p (before self.old m (bind (doing line a (λ (addr, frame). Ret (Bounded addr frame)))
            (waiting p self.old)) (come + 1)) result self.new m' }
        ensures falls { Falls result (body_weight self.new) (come + tasks_weight self.old + 1) }
        ensures home { self.new.home ≡ self.old.home }
    {
        match done {
            Ok((addr, frame)) => self.go(Now::Came(Way::Bounded(addr, frame))),
            Err(halt) => self.fail(line, halt),
        }
    }

    /// An action on a line, after which a statement has ended, was done or not.
    #[inline(always)]
    pub fn finally(&mut self, line: u32, done: Result<(), Halt>) -> Turned
        ensures moves { (p : ProgramRows) (a : Action (Unit {0})) (m m' : Moment)
            → DoesAll (λ _. tt) (performs a m.state) done m m'
            → Moves p (before self.old m (bind (doing line a (λ _. nothing)) (waiting p self.old)) (come + 1)) result
            self.new m' }
    {
        match done {
            Ok(()) => self.go(Now::Came(Way::Nothing)),
            Err(halt) => self.fail(line, halt),
        }
    }

    /// The values of cells are what came.
    pub fn give_cells(&mut self, values: Cells) -> Turned
        ensures turns { (p : ProgramRows) → Leads p (waiting p self.old (CellsOut values)) result self.new }
        ensures falls { Falls result (body_weight self.new) (come + 1 + tasks_weight self.old) }
        ensures home { self.new.home ≡ self.old.home }
    {
        self.lists.push(values)?;
        self.now = Now::Came(Way::Cells);
        Ok(None)
    }

    /// What is now at work is the one, or else the other.
    #[inline(always)]
    pub fn either(&mut self, taken: bool, now: Now, otherwise: Now) -> Turned
        ensures turns { (p : ProgramRows) → Leads p (if taken then from p self.old now else from p self.old otherwise)
            result self.new }
        ensures falls { Falls result (body_weight self.new)
            (max (now_weight now) (now_weight otherwise) + tasks_weight self.old + 1) }
        ensures home { self.new.home ≡ self.old.home }
    {
        if taken {
            self.go(now)
        } else {
            self.go(otherwise)
        }
    }

    /// Takes the last value that waits.
    pub fn take_value(&mut self) -> Value
        ensures result { result ≡ top (values_of self.old) }
        ensures waits { (p : ProgramRows) → waiting p self.new ≡ resume p self.old.home (tasks_of self.old)
            (below_top (values_of self.old)) (lists_of self.old) }
        ensures values { values_of self.new ≡ below_top (values_of self.old) }
        ensures home { self.new.home ≡ self.old.home }
        ensures tasks { self.new.tasks.items ≡ self.old.tasks.items }
        ensures lists { lists_of self.new ≡ lists_of self.old }
    {
        match self.values.pop() {
            Some(value) => value,
            None => Value::Undefined,
        }
    }

    /// Takes the last list that waits.
    pub fn take_list(&mut self, alloc: Global) -> Cells
        ensures result { result ≡ top_list (lists_of self.old) }
        ensures waits { (p : ProgramRows) → waiting p self.new ≡ resume p self.old.home (tasks_of self.old)
            (values_of self.old) (below_list (lists_of self.old)) }
        ensures lists { lists_of self.new ≡ below_list (lists_of self.old) }
        ensures home { self.new.home ≡ self.old.home }
        ensures tasks { self.new.tasks.items ≡ self.old.tasks.items }
        ensures values { self.new.values.items ≡ self.old.values.items }
        ensures copies { self.new.copies.items ≡ self.old.copies.items }
    {
        match self.lists.pop() {
            Some(list) => list,
            None => Cells::new(alloc),
        }
    }

    /// Takes the copies that go with what is passed of the innermost call.
    pub fn take_copies(&mut self, alloc: Global) -> Vec<Copied>
        ensures result { copies_in result ≡ first_of (lists_of self.old).copies }
        ensures copies { (lists_of self.new).copies ≡ below_top (lists_of self.old).copies }
        ensures lists { self.new.lists.items ≡ self.old.lists.items }
        ensures home { self.new.home ≡ self.old.home }
        ensures tasks { self.new.tasks.items ≡ self.old.tasks.items }
        ensures values { self.new.values.items ≡ self.old.values.items }
    {
        match self.copies.pop() {
            Some(copies) => copies,
            None => Vec::new(alloc),
        }
    }

    /// Puts a copy to those that go with what is passed of the innermost call.
    pub fn add_copy(&mut self, alloc: Global, copied: Copied) -> Result<(), Halt>
        ensures copies { OnOk result (lists_of self.new ≡ with_copy (lists_of self.old) (copy_of copied)) }
        ensures home { self.new.home ≡ self.old.home }
        ensures tasks { self.new.tasks.items ≡ self.old.tasks.items }
        ensures values { self.new.values.items ≡ self.old.values.items }
        ensures memory { IfErr result (λ e. e ≡ Halt.Memory) }
    {
        let mut copies = self.take_copies(alloc);
        copies.push(copied)?;
        self.copies.push(copies)?;
        Ok(())
    }

    /// Drops what a task holds.
    pub fn drop_task(&mut self, alloc: Global, task: Task)
        ensures values { values_of self.new ≡ values_below task (values_of self.old) }
        ensures lists { lists_of self.new ≡ lists_below task (lists_of self.old) }
        ensures tasks { self.new.tasks.items ≡ self.old.tasks.items }
        ensures home { self.new.home ≡ home_below task self.old.home }
    {
        match task {
            Task::Operand(OperandTask::Both { .. }) => self.drop_value(),
            Task::Operand(OperandTask::Member { .. }) => self.drop_value(),
            Task::Operand(OperandTask::First { .. }) => self.drop_value(),
            Task::Range { .. } => {
                self.drop_value();
                self.drop_value();
            }
            Task::Texts { .. } => self.drop_list(alloc),
            Task::Located(Located::Passed { .. }) => self.drop_passed(alloc),
            Task::Actual { .. } => self.drop_passed(alloc),
            Task::ArrayPlace { .. } => self.drop_passed(alloc),
            Task::ArrayValue { .. } => self.drop_passed(alloc),
            Task::TextValue { .. } => self.drop_passed(alloc),
            Task::Choice(ChoiceTask::Last { .. }) => self.drop_value(),
            Task::Put { .. } => self.drop_value(),
            Task::PutCells { .. } => self.drop_list(alloc),
            Task::Point { .. } => self.drop_value(),
            Task::Next(Next::Counted { .. }) => {
                self.drop_value();
                self.drop_value();
            }
            Task::Transfer(TransferTask::Into(_)) => self.drop_value(),
            Task::Transfer(TransferTask::Width { .. }) => self.drop_value(),
            Task::Transfer(TransferTask::TextWidth { .. }) => self.drop_list(alloc),
            Task::Leave => self.home.records.leave(),
            _ => {}
        }
    }

    /// Drops the last value that waits.
    fn drop_value(&mut self)
        ensures values { values_of self.new ≡ below_top (values_of self.old) }
        ensures lists { lists_of self.new ≡ lists_of self.old }
        ensures tasks { self.new.tasks.items ≡ self.old.tasks.items }
        ensures home { self.new.home ≡ self.old.home }
    {
        self.take_value();
    }

    /// Drops the last list that waits.
    pub fn drop_list(&mut self, alloc: Global)
        ensures values { self.new.values.items ≡ self.old.values.items }
        ensures lists { lists_of self.new ≡ below_list (lists_of self.old) }
        ensures tasks { self.new.tasks.items ≡ self.old.tasks.items }
        ensures home { self.new.home ≡ self.old.home }
    {
        drop(self.take_list(alloc));
    }

    /// Drops what was passed of the innermost call.
    fn drop_passed(&mut self, alloc: Global)
        ensures values { self.new.values.items ≡ self.old.values.items }
        ensures lists { lists_of self.new ≡ below_passed (lists_of self.old) }
        ensures tasks { self.new.tasks.items ≡ self.old.tasks.items }
        ensures home { self.new.home ≡ self.old.home }
    {
        drop(self.take_list(alloc));
        drop(self.take_copies(alloc));
    }
}
