//! The rows of a program's tables.
//!
//! A row is numbered by the token that its construct alone has: a definition by its name; a type by its `(`, `..`,
//! `^`, `[`, `set` or `record`, each further index type of an array by the comma before it, and each further spec of a
//! schema by the semicolon before it; an expression by its operator, sign, bracket, or only token; an access by its
//! name or its last selector; a statement by `:=`, by its first word or name, by `end` if it is compound, by `until`,
//! or by the `do` of a with statement. The types integer, Boolean and char have the numbers 0, 1 and 2, and required
//! names have those after the last token.
//!
//! A list (statements, actuals, members, values of a case) is a chain of rows at the token that opens it and at its
//! separators: each names the next one, which stands after it, and the last one names the number 0, which ends lists.
//!
//! A type of which a broken rule leaves nothing known is a number at which no type stands.

use cell_value::{ArithOp, Order};
use std::mem::size_of;

/// The number of the type integer.
pub const INTEGER: u32 = 0;

/// The number that ends a list. No item stands there, since the type integer does.
pub const LIST_END: u32 = 0;

/// The number of the type Boolean.
pub const BOOLEAN: u32 = 1;

/// The number of the type char.
pub const CHAR: u32 = 2;

/// What stands at a number of the table.
#[derive(Clone, Copy)]
pub enum Row {
    /// Nothing, or a construct of which a broken rule leaves nothing known.
    Nothing,
    Type(TypeRow),
    Name(NameRow),
    Part(PartRow),
    Statement(StatementRow),
    Expression(ExpressionRow),
    Access(AccessRow),
    Item(ItemRow),
}

const _: () = prove!(size_of::<Row>() <= 24);

/// A type (6.4).
#[derive(Clone, Copy)]
pub enum TypeRow {
    /// Integer, Boolean, char or an enumeration: the least and the greatest ordinal. The constant of ordinal n of an
    /// enumeration at token t is spelled at token t + 1 + 2n.
    Ordinal {
        least: i32,
        greatest: i32,
    },
    /// A subrange: the type of its constants, and their ordinals.
    Subrange {
        host: u32,
        least: i32,
        greatest: i32,
    },
    /// A set of values of an ordinal type.
    Set {
        packed: bool,
        base: u32,
    },
    /// A pointer to variables of a type.
    Pointer {
        domain: u32,
    },
    /// An array: its index type, its component type, and its cells.
    Array {
        packed: bool,
        index: u32,
        component: u32,
        cells: u32,
    },
    /// The array of a conformant parameter, by a spec of its schema: the type of the spec, the component type, which is
    /// by the next spec where there is one, and the place in the frame of the cell with its least index. The cell after
    /// that has the greatest one.
    Conformant {
        packed: bool,
        index: u32,
        component: u32,
        place: u32,
    },
    /// A record: the region of its fields, its cells, and the number of its variant part.
    Record {
        packed: bool,
        region: u32,
        cells: u32,
        variants: Option<u32>,
    },
}

/// What a name stands for, at the token of its definition.
#[derive(Clone, Copy)]
pub enum NameRow {
    /// A constant of an ordinal type.
    Constant {
        of: u32,
        value: i32,
    },
    /// A string of at least two characters, which the token of this number spells.
    Text {
        token: u32,
    },
    TypeName {
        of: u32,
    },
    /// A variable or a parameter: its type, its place in a frame, and how many blocks are around the one of the frame.
    Variable {
        mode: Mode,
        of: u32,
        place: u32,
        level: u32,
    },
    /// A bound of a conformant parameter: its type, its place in a frame, and the level of the frame.
    Bound {
        of: u32,
        place: u32,
        level: u32,
    },
    /// A procedure or function as a parameter: its cell's place, the level of the frame, and the number of its heading.
    RoutineFormal {
        place: u32,
        level: u32,
        heading: u32,
    },
    /// A field: its type, its place in the record, and the number of the record or the variant that holds it.
    Field {
        of: u32,
        offset: u32,
        holder: u32,
    },
    /// A tag field, and the number of the variant part whose variants it chooses from.
    Tag {
        of: u32,
        offset: u32,
        holder: u32,
        variants: u32,
    },
    /// A routine that the program declares: whether a value is assigned to its name so far, its number among the
    /// routines, and the region of its parameters and its block.
    Routine {
        assigned: bool,
        number: u32,
        region: u32,
    },
    Required {
        routine: Required,
    },
    TextFile {
        file: TextFile,
    },
    /// A declared label: whether it marks a statement so far, its value, how many blocks are around the one that
    /// declares it, and how many ways lead from where the check stands to statements that it marks.
    Label {
        marked: bool,
        value: u32,
        level: u32,
        ways: u32,
    },
}

/// How a frame holds a variable or a parameter.
#[derive(Clone, Copy, PartialEq, Eq, Hash)]
pub enum Mode {
    /// The variable of a variable part: its cells.
    Own,
    /// A value parameter: its cells, of which an actual makes the first values.
    Value,
    /// A variable parameter: a cell with the address of the actual.
    Place,
    /// A conformant parameter by value: a cell with the address of its copy, of which an actual makes the first values.
    Copy,
}

/// Parts of types, of headings, and of routines that are declared in two places.
#[derive(Clone, Copy)]
pub enum PartRow {
    /// A variant part, at its word `case`: whether its tag is hidden, the place of the tag's cell, how many cells its
    /// variants have, the list of the values that choose them, and the number of the record or the variant that holds
    /// it.
    Variants {
        hidden: bool,
        offset: u32,
        cells: u32,
        values: u32,
        holder: u32,
    },
    /// A variant, at its `(`: its variant part, and its position there, from 1.
    Variant {
        variants: u32,
        position: u32,
    },
    /// A heading, at its word: the name that it defines, the list of its sections of parameters, and the result type of
    /// a function.
    Heading {
        name: u32,
        sections: u32,
        result: Option<u32>,
    },
    /// A routine with a forward heading, at the name there, until its own row takes this place: whether it is a
    /// function, and which of the routines of its part, from 0, has its block, once that is known (6.6.1, 6.6.2).
    Forward {
        function: bool,
        block: Option<u32>,
    },
    /// A heading that completes a forward one, at its name: the name in the forward heading.
    Completing {
        first: u32,
    },
}

/// The required procedures and functions (6.6.5, 6.6.6, 6.9).
#[derive(Clone, Copy, PartialEq, Eq)]
pub enum Required {
    Abs,
    Sqr,
    Odd,
    Ord,
    Chr,
    Succ,
    Pred,
    Eof,
    Eoln,
    Read,
    Readln,
    Write,
    Writeln,
    Page,
    New,
    Dispose,
    Pack,
    Unpack,
}

/// The text files of a program.
#[derive(Clone, Copy, PartialEq, Eq)]
pub enum TextFile {
    Input,
    Output,
}

/// An element of a list, and where the next one stands.
#[derive(Clone, Copy)]
pub enum ItemRow {
    /// A statement of a sequence, the access of a with statement, or an actual of read.
    Element {
        item: u32,
        next: u32,
    },
    /// An actual by value: an expression, and the type that its value is tested for.
    Value {
        value: u32,
        of: u32,
        next: u32,
    },
    /// An actual of a variable parameter: an access.
    Place {
        access: u32,
        next: u32,
    },
    /// An actual of a conformant variable parameter: an access, the type of the parameter, and whether it is the first
    /// of its section, of which the bounds are taken.
    ArrayPlace {
        first: bool,
        access: u32,
        of: u32,
        next: u32,
    },
    /// An actual of a conformant parameter by value: an expression, and the same.
    ArrayValue {
        first: bool,
        value: u32,
        of: u32,
        next: u32,
    },
    /// An actual of a routine parameter: a routine, and how many links lead to the frame that declares it.
    Routine {
        routine: u32,
        levels: u32,
        next: u32,
    },
    /// An actual of a routine parameter that is itself one: the number of its name's row, and how many links lead to
    /// its frame.
    RoutineFormal {
        formal: u32,
        levels: u32,
        next: u32,
    },
    /// What is written: an expression and its type.
    Written {
        value: u32,
        of: u32,
        next: u32,
    },
    /// The same with a width.
    WrittenWide {
        value: u32,
        of: u32,
        width: u32,
        next: u32,
    },
    /// A member of a set constructor.
    Member {
        value: u32,
        next: u32,
    },
    /// The members from one to another.
    Members {
        first: u32,
        last: u32,
        next: u32,
    },
    /// A constant of a case statement or a variant part, and the statement or the variant that it chooses.
    Choice {
        value: i32,
        chosen: u32,
        next: u32,
    },
    /// A section of formal parameters: the name of the first, and how many they are.
    Section {
        mode: Mode,
        first: u32,
        count: u32,
        next: u32,
    },
    /// A section that is a heading: the number of that.
    RoutineSection {
        heading: u32,
        next: u32,
    },
}

/// A statement (6.8). Its line is that of its first token, a label counting.
#[derive(Clone, Copy)]
pub enum StatementRow {
    Empty,
    /// The value goes to the target, which is an access of a variable of a type.
    Assign {
        line: u32,
        target: u32,
        value: u32,
        of: u32,
    },
    /// A call of a routine of the program, and how many links lead to the frame that declares it.
    Call {
        line: u32,
        routine: u32,
        levels: u32,
        actuals: u32,
    },
    /// A call of a routine parameter: the number of its name's row, and how many links lead to its frame.
    CallFormal {
        line: u32,
        formal: u32,
        levels: u32,
        actuals: u32,
    },
    /// A jump to a label's value, and how many links lead to the frame that declares it.
    Goto {
        line: u32,
        label: u32,
        levels: u32,
    },
    /// A labelled statement, at its label.
    Labelled {
        label: u32,
        statement: u32,
    },
    Compound {
        statements: u32,
    },
    If {
        line: u32,
        condition: u32,
        then: u32,
    },
    IfElse {
        line: u32,
        condition: u32,
        then: u32,
        otherwise: u32,
    },
    Case {
        line: u32,
        selector: u32,
        choices: u32,
    },
    Repeat {
        line: u32,
        statements: u32,
        condition: u32,
    },
    While {
        line: u32,
        condition: u32,
        body: u32,
    },
    /// A for statement: its first value, and the row of its turns, at `to` or `downto`.
    For {
        line: u32,
        initial: u32,
        turns: u32,
    },
    /// The turns of a for statement: which way, up to what, and the control variable's place in the frame and type.
    Turns {
        direction: Direction,
        last: u32,
        place: u32,
        of: u32,
        body: u32,
    },
    With {
        line: u32,
        records: u32,
        body: u32,
    },
    /// `read`, and `readln` if it goes on to the next line.
    Read {
        ends_line: bool,
        line: u32,
        actuals: u32,
    },
    /// `write`, and `writeln` if it ends the line.
    Write {
        ends_line: bool,
        line: u32,
        actuals: u32,
    },
    Page {
        line: u32,
    },
    /// The access of a pointer, and the type of the variables that it points to.
    New {
        line: u32,
        access: u32,
        of: u32,
    },
    /// The value of a pointer, and the type of the variables that it points to.
    Dispose {
        line: u32,
        value: u32,
        of: u32,
    },
    /// `pack`, and `unpack` if it is not packing: the accesses of the unpacked and the packed array, and the index.
    Pack {
        packing: bool,
        line: u32,
        unpacked: u32,
        index: u32,
        packed: u32,
    },
}

/// Which way a for statement counts (6.8.3.9).
#[derive(Clone, Copy, PartialEq, Eq)]
pub enum Direction {
    Up,
    Down,
}

/// An expression (6.7). An access that is used for its value has its own row alone.
#[derive(Clone, Copy)]
pub enum ExpressionRow {
    /// A constant of an ordinal type.
    Constant {
        value: i32,
    },
    /// A string of at least two characters, which the token of this number spells.
    Text {
        token: u32,
    },
    Nil,
    /// A sign before an integer.
    Sign {
        minus: bool,
        operand: u32,
    },
    Not {
        operand: u32,
    },
    Arithmetic {
        operator: ArithOp,
        left: u32,
        right: u32,
    },
    Logic {
        operator: Logic,
        left: u32,
        right: u32,
    },
    /// An operator on sets that gives a set.
    Sets {
        operator: SetOperator,
        left: u32,
        right: u32,
    },
    /// A relation of two ordinals.
    Compare {
        order: Order,
        left: u32,
        right: u32,
    },
    /// A relation of two strings.
    CompareTexts {
        order: Order,
        left: u32,
        right: u32,
    },
    /// A relation of two sets: `<=` and `>=` say which includes which.
    CompareSets {
        order: Order,
        left: u32,
        right: u32,
    },
    /// Whether two pointers are equal, or whether they are not.
    ComparePointers {
        equal: bool,
        left: u32,
        right: u32,
    },
    In {
        left: u32,
        right: u32,
    },
    /// A set constructor and the list of its members.
    Set {
        members: u32,
    },
    /// A function designator of a function of the program, as `StatementRow::Call`.
    Apply {
        routine: u32,
        levels: u32,
        actuals: u32,
    },
    /// A function designator of a routine parameter, as `StatementRow::CallFormal`.
    ApplyFormal {
        formal: u32,
        levels: u32,
        actuals: u32,
    },
    /// A required function of an ordinal, and the bounds of the argument's host type.
    Function {
        function: OrdinalFunction,
        operand: u32,
        least: i32,
        greatest: i32,
    },
    Eof,
    Eoln,
}

/// The operators on Booleans with two operands (6.7.2.3).
#[derive(Clone, Copy, PartialEq, Eq)]
pub enum Logic {
    And,
    Or,
}

/// The operators on sets that give a set (6.7.2.4).
#[derive(Clone, Copy, PartialEq, Eq)]
pub enum SetOperator {
    Union,
    Difference,
    Intersection,
}

/// The required functions of one ordinal (6.6.6).
#[derive(Clone, Copy, PartialEq, Eq)]
pub enum OrdinalFunction {
    Abs,
    Sqr,
    Odd,
    Ord,
    Chr,
    Succ,
    Pred,
}

/// An access of a variable (6.5). Each row has the type of what it accesses.
#[derive(Clone, Copy)]
pub enum AccessRow {
    /// The cells at a place in the frame to which this many links lead: a variable, a value parameter or the result of
    /// a function.
    Variable {
        place: u32,
        levels: u32,
        of: u32,
    },
    /// A variable parameter: the variable whose address the cell at that place holds.
    Reference {
        place: u32,
        levels: u32,
        of: u32,
    },
    /// A conformant parameter: the variable whose address the cell at that place holds, and whose bounds stand in the
    /// same frame.
    Conformant {
        place: u32,
        levels: u32,
        of: u32,
    },
    /// A component of the array of a conformant parameter, as `Index`.
    Component {
        access: u32,
        index: u32,
        array: u32,
        of: u32,
    },
    /// A field of the record of a with statement: that record's position among those of the with statements around,
    /// the outermost being 0, and the number of the field.
    Within {
        record: u32,
        field: u32,
        of: u32,
    },
    /// A component of an array: the array's access, the index, the array's type.
    Index {
        access: u32,
        index: u32,
        array: u32,
        of: u32,
    },
    /// A field of a record: the record's access, and the number of the field.
    Field {
        access: u32,
        field: u32,
        of: u32,
    },
    /// The variable to which a pointer points.
    Dereference {
        access: u32,
        of: u32,
    },
}
