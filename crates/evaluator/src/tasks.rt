//! What a body has to do, and how far it is with it.

use crate::records::Records;
use cell_value::{Cells, Order, Value, WayOut};
use core_program::Scan;
use core_program::rows::OrdinalFunction;
use eval_ops::Dyadic;
use std::mem::size_of;

/// The routine that a body is of, where its frame begins, and the records of the with statements at work.
#[derive(Drop)]
pub struct Home {
    pub routine: u32,
    pub base: u32,
    pub records: Records,
}

/// A part of the program that begins, by the number of its row. `line` is that of the innermost statement at work.
#[derive(Clone, Copy)]
pub enum Part {
    /// The value of an expression.
    Eval { row: u32, line: u32 },
    /// The variable that an access denotes, which may be a target.
    Locate { row: u32, target: bool, line: u32 },
    /// The actual parameters from an item on. What was passed before them is the last that waits.
    Pass { at: u32, line: u32 },
    /// The members of a set constructor from an item on. The set of those before it is the last value that waits.
    Gather { at: u32, line: u32 },
    /// A statement.
    Exec { row: u32, line: u32 },
    /// The records of a with statement from an item on, and then its body.
    Establish { at: u32, body: u32, line: u32 },
    /// The statements from an item on, of the sequence that begins with the first item.
    Sequence { first: u32, at: u32, line: u32 },
    /// A further turn of a while or repeat statement.
    Turn { row: u32, line: u32 },
    /// The statement part of the body's routine.
    Block,
    /// The actuals of a read statement from an item on.
    Receive { at: u32, line: u32 },
    /// The rest of an integer that is read, of which this much was met.
    Scanning { scan: Scan, line: u32 },
    /// The rest of a line of the input, with its end.
    RestOfLine { line: u32 },
    /// The actuals of a write statement from an item on.
    Print { at: u32, line: u32 },
}

/// How the last part ended.
#[derive(Clone, Copy)]
pub enum Way {
    Nothing,
    Scalar(Value),
    /// The last list that waits holds the values.
    Cells,
    /// What is passed to a routine is the last that waits.
    Actuals,
    Address(u32),
    /// The address of a conformant array, and the base of the frame that has its bounds.
    Bounded(u32, u32),
    /// A goto to a label, in the frame at a base.
    Jump(u32, u32),
}

/// How far a body is.
#[derive(Clone, Copy)]
pub enum Now {
    Begin(Part),
    /// A statement whose step is taken and whose line is told.
    Carry(u32),
    /// A part has ended, and the last task that waits comes next.
    Came(Way),
}

/// What waits for the value of an operand, an index or an argument.
#[derive(Clone, Copy)]
pub enum OperandTask {
    Sign {
        minus: bool,
        line: u32,
    },
    Not,
    /// The left operand of a dyadic operator, before the right one.
    Right {
        dyadic: Dyadic,
        right: u32,
        line: u32,
    },
    /// The right operand of a dyadic operator. The left one is the last value that waits.
    Both {
        dyadic: Dyadic,
        line: u32,
    },
    /// A member of a set constructor. The set of those before it is the last value that waits, as in `First`.
    Member {
        next: u32,
        line: u32,
    },
    /// The first of a range of members, before its last.
    First {
        last: u32,
        next: u32,
        line: u32,
    },
    Function {
        function: OrdinalFunction,
        least: i32,
        greatest: i32,
        line: u32,
    },
    /// The component of a variable of an array type at an address.
    Component {
        array: u32,
        addr: u32,
        line: u32,
    },
}

/// What waits for a variable of an expression or of an access.
#[derive(Clone, Copy)]
pub enum Located {
    /// Its value is wanted.
    Value { of: u32, line: u32 },
    Index { index: u32, array: u32, line: u32 },
    Field { field: u32, target: bool, line: u32 },
    /// The pointer in it is followed (6.5.4).
    Pointed { line: u32 },
    /// It is an actual variable parameter. What was passed before it is the last that waits.
    Passed { next: u32, line: u32 },
}

/// What waits for a value by which a statement goes on.
#[derive(Clone, Copy)]
pub enum ChoiceTask {
    If {
        then: u32,
        line: u32,
    },
    IfElse {
        then: u32,
        otherwise: u32,
        line: u32,
    },
    Case {
        choices: u32,
        line: u32,
    },
    While {
        row: u32,
        body: u32,
        line: u32,
    },
    /// The condition after a turn of a repeat statement.
    Until {
        row: u32,
        line: u32,
    },
    /// The first value of a for statement, before the last one.
    First {
        last: u32,
        turns: u32,
        line: u32,
    },
    /// The last value of a for statement. The first one is the last value that waits.
    Last {
        turns: u32,
        line: u32,
    },
}

/// What comes after a statement.
#[derive(Clone, Copy)]
pub enum Next {
    /// The next item of the sequence that begins with the first item.
    Sequence { first: u32, at: u32, line: u32 },
    /// What follows a labelled statement, which begins again after a jump to its label.
    Labelled { row: u32, label: u32, line: u32 },
    /// A further turn of a while statement.
    Again { row: u32, line: u32 },
    /// The condition of a repeat statement.
    Condition { row: u32, condition: u32, line: u32 },
    /// What comes after a turn of a for statement. The last values that wait are the one of that turn, and above it the
    /// one of the last turn.
    Counted { row: u32, line: u32 },
    /// After a procedure, and after the actuals of a read or a write statement that ends no line.
    Forget,
    /// The rest of the line, after the actuals of a read statement.
    PassLine { line: u32 },
    /// The end of the line, after the actuals of a write statement.
    EndLine { line: u32 },
}

/// An actual of a read statement: the variable, by the row of its access, and its type. `next` is the item after it.
#[derive(Clone, Copy)]
pub struct Reading {
    pub access: u32,
    pub of: u32,
    pub next: u32,
    pub line: u32,
}

/// What waits for a part of an actual of a read or a write statement.
#[derive(Clone, Copy)]
pub enum TransferTask {
    /// An integer that is read for a variable, which is located once the integer is known.
    Integer(Reading),
    /// The variable that is to get what was read, which is the last value that waits.
    Into(Reading),
    /// What is written.
    Written {
        of: u32,
        next: u32,
        line: u32,
    },
    /// What is written in a width, which comes after it.
    Wide {
        of: u32,
        width: u32,
        next: u32,
        line: u32,
    },
    /// The width of the last value that waits, by the host of its type.
    Width {
        host: u32,
        next: u32,
        line: u32,
    },
    /// The width of the string that is the last list that waits.
    TextWidth {
        next: u32,
        line: u32,
    },
}

/// The arrays of a pack or an unpack statement (6.6.5.4), and the index from which on it goes, by their rows.
#[derive(Clone, Copy)]
pub struct ArrayRows {
    pub unpacked: u32,
    pub index: u32,
    pub packed: u32,
    pub line: u32,
}

/// The same arrays by their rows, and by their addresses: the unpacked one is the wide one.
#[derive(Clone, Copy)]
pub struct ArrayPlaces {
    pub unpacked: u32,
    pub packed: u32,
    pub wide: u32,
    pub close: u32,
    pub line: u32,
}

/// What waits for a part that is at work.
#[derive(Clone, Copy)]
pub enum Task {
    Operand(OperandTask),
    Located(Located),
    /// An actual value parameter. What was passed before it is the last that waits.
    Actual {
        of: u32,
        next: u32,
        line: u32,
    },
    /// A conformant array, before an index in it: its type, and that of the component.
    BoundedIndex {
        index: u32,
        array: u32,
        of: u32,
        line: u32,
    },
    /// The index of a component of a conformant array at an address, whose bounds are in the frame at a base.
    BoundedComponent {
        array: u32,
        of: u32,
        addr: u32,
        frame: u32,
        line: u32,
    },
    /// An array that is an actual variable parameter: whether it is the first of its section, the type of the
    /// parameter, and its own. What was passed before it is the last that waits, as in the next two.
    ArrayPlace {
        first: bool,
        of: u32,
        actual: u32,
        next: u32,
        line: u32,
    },
    /// The same of an actual value parameter.
    ArrayValue {
        first: bool,
        of: u32,
        actual: u32,
        next: u32,
        line: u32,
    },
    /// A string that is an actual of a conformant parameter by value.
    TextValue {
        first: bool,
        of: u32,
        next: u32,
        line: u32,
    },
    /// The call of a routine, once its actual parameters are known: of a procedure, or else of a function.
    Call {
        procedure: bool,
        routine: u32,
        levels: u32,
        line: u32,
    },
    /// The call of a routine parameter, by the row of its name, once its actual parameters are known: of a
    /// procedure, or else of a function.
    CallFormal {
        procedure: bool,
        formal: u32,
        levels: u32,
        line: u32,
    },
    /// The last of a range of members. The last values that wait are the first of the range, and below it the set of
    /// the members before.
    Range {
        next: u32,
        line: u32,
    },
    /// The left one of two strings, before the right one.
    TextRight {
        order: Order,
        right: u32,
        line: u32,
    },
    /// The right one of two strings. The left one is the last list that waits.
    Texts {
        order: Order,
        line: u32,
    },
    Choice(ChoiceTask),
    /// An assignment, whose target is located once the value is known.
    Target {
        target: u32,
        of: u32,
        line: u32,
    },
    /// The last value that waits goes to the target of an assignment.
    Put {
        target: u32,
        of: u32,
        line: u32,
    },
    /// The last list that waits goes to a variable.
    PutCells {
        line: u32,
    },
    /// The record of a with statement, before the further ones from an item on and its body.
    Record {
        next: u32,
        body: u32,
        line: u32,
    },
    /// The last value that waits, a pointer to a new variable, goes to a variable (6.6.5.3).
    Point {
        line: u32,
    },
    /// A pointer, whose variable of a type is to be disposed of (6.6.5.3).
    Dispose {
        of: u32,
        line: u32,
    },
    Next(Next),
    Transfer(TransferTask),
    /// The first array of a pack or an unpack statement, before the second one.
    PackFirst {
        packing: bool,
        rows: ArrayRows,
    },
    /// The second array, where the first one is at an address.
    PackSecond {
        packing: bool,
        rows: ArrayRows,
        first: u32,
    },
    /// The index, where both arrays are found.
    PackIndex {
        packing: bool,
        places: ArrayPlaces,
    },
    /// The end of what is inside of the last record of a with statement.
    Leave,
}

const _: () = prove!(size_of::<Task>() <= 24);

/// What a turn of a body pauses at. It is small, since each turn hands one up. At a call its arguments are the last
/// list that waits, and at the end what came tells how the body ended.
#[derive(Clone, Copy)]
pub enum Pause {
    /// A statement that is neither compound nor empty has begun on this line.
    Line(u32),
    /// A call of a routine that has passed its limits is to be entered.
    Enter(u32),
    Ended,
}

/// What a body stops at.
#[derive(Drop)]
pub enum Stop {
    /// A statement that is neither compound nor empty has begun on this line.
    Line(u32),
    /// A call of a routine that has passed its limits is to be entered, with its arguments: the link, the cells of its
    /// parameters, and those of the copies of arrays.
    Enter(u32, Cells),
    /// The body has ended, with its result if it is a function's and returned.
    Ended(WayOut, Option<Value>),
}
