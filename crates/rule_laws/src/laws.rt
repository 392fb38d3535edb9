//! The laws, each the contract of a call that does nothing.

ghost use Rattle.rule_laws.specs.{CaseNumbers.TextsTellNumbers, LabelLaws.BlocksTellLabels, Laws.PartsTellRuleEight};
ghost use Rattle.rule_laws.specs.{OnlyLaws.TextsSpareLabels, TextCases.TextsTellCases};
ghost use Rattle.rule_laws.specs.CaseLaws.{CasesTellEqualConstants, VariantsTellEqualConstants};
ghost use Rattle.rule_laws.specs.NameLaws.{BlocksTellNames, HeadingsTellFormals, LabelPartsTellLabels};
ghost use Rattle.rule_laws.specs.NameLaws.{PartsTellSecondHeadings, ProgramsTellParameters, RecordsTellFields};
ghost use Rattle.rule_laws.specs.OnlyLaws.{TextsBreakEight, TextsBreakFifteen, TextsBreakTwelve, TextsBreakTwo};
ghost use Rattle.rule_laws.specs.ResultLaws.{FunctionsTellAssignments};
ghost use Rattle.rule_laws.specs.TextLaws.{TextsTellFields, TextsTellForwards, TextsTellMarks, TextsTellNames};
ghost use Rattle.rule_laws.specs.TextLaws.{TextsTellResults, TextsTellUndeclared, TokensDiffer};

/// No token stands twice in the tree of a text.
pub fn tokens_of_a_text_differ()
    ensures { TokensDiffer }
{}

/// Of the procedures and functions of a part, those break rule 8 that are forward and have no block later in the part.
pub fn forward_headings_are_completed()
    ensures { PartsTellRuleEight }
{}

/// Of the constants of a case statement, those break rule 22 that are not of the selector's host type, or are equal to
/// one before them.
pub fn case_constants_differ()
    ensures { CasesTellEqualConstants }
{}

/// So of the constants of a variant part, by the host type of its tag.
pub fn variant_constants_differ()
    ensures { VariantsTellEqualConstants }
{}

/// Of the labels in front of the statements of a block, those break rule 15 that the block doesn't declare, or that
/// stand before an earlier statement of it, too.
pub fn labels_are_declared_and_differ()
    ensures { BlocksTellLabels }
{}

/// A function breaks rule 12 if no statement of its block or of a routine in it assigns to the function. Inside of with
/// statements a name stands for a field of their records, if one of them has a field of this name.
pub fn functions_are_assigned()
    ensures { FunctionsTellAssignments }
{}

/// Of the names of a block's constants, types and variables, and of the enumerations in their types, those break rule 2
/// that are defined before them in the region.
pub fn names_are_defined_once()
    ensures { BlocksTellNames }
{}

/// So of the fields of a record, those of all its variants.
pub fn fields_are_defined_once()
    ensures { RecordsTellFields }
{}

/// In a text, of the fields of each record type, those of all its variants, each breaks rule 2 whose name one before it
/// has.
pub fn fields_of_a_text_differ()
    ensures { TextsTellFields }
{}

/// So of the constants, types, variables, procedures, functions and labels of the program's block, and of those of each
/// procedure and function together with its formal parameters, which are those of the forward heading if it has the
/// block of one.
pub fn names_of_a_text_differ()
    ensures { TextsTellNames }
{}

/// A text breaks rule 2 nowhere else: at a name or label alone that one before it in its region is equal to, which may
/// be a formal parameter of the forward heading that the block completes; and at no heading that completes one.
pub fn second_names_alone_break_rule_two()
    ensures { TextsBreakTwo }
{}

/// In a text, each forward heading of the program's block breaks rule 8 or has its block later in the part; and so each
/// of the block of a procedure or function, which may be the block of a forward heading itself.
pub fn forward_headings_of_a_text_have_blocks()
    ensures { TextsTellForwards }
{}

/// A text breaks rule 8 nowhere else: at a name of a forward heading alone, which breaks rule 2, too, or has no block
/// later in the part.
pub fn forward_headings_alone_lack_blocks()
    ensures { TextsBreakEight }
{}

/// In a text, of the labels in front of the statements of the program's block, and of the block of each procedure and
/// function, each breaks rule 15 whose value one before it has.
pub fn labels_of_statements_differ()
    ensures { TextsTellMarks }
{}

/// A text breaks rule 15 nowhere else: at labels in front of statements alone.
pub fn labels_alone_break_rule_fifteen()
    ensures { TextsBreakFifteen }
{}

/// Of the labels in front of the statements of the program's block none breaks rule 15 that is the first of its value
/// there, and whose value the program's label part has. So it is with those of the block of each procedure and
/// function, unless it is the block of a forward heading.
pub fn first_declared_labels_are_right()
    ensures { TextsSpareLabels }
{}

/// In a text each label in front of a statement breaks rule 15 whose value the label part of its block doesn't have.
pub fn labels_of_statements_are_declared()
    ensures { TextsTellUndeclared }
{}

/// In a text each function that has a block breaks rule 12 whose name no assignment of the block, and of the procedures
/// and functions in it, has alone on its left; and if that is the block of a forward heading, each whose name none has
/// so between this heading and the end of the block.
pub fn functions_of_a_text_are_assigned()
    ensures { TextsTellResults }
{}

/// In a text that breaks no rule, and whose tables are whole, the row of each case statement stands at its word. Each
/// of its constants, seen from inside of its block and the records of the with statements around it, is found, is of
/// the host type of the selector if its value is known, and is equal to none before it.
pub fn case_constants_of_a_text_differ()
    ensures { TextsTellCases }
{}

/// So no two numbers, and no two characters, among the constants of a case statement of such a text are equal.
pub fn numbers_of_case_statements_differ()
    ensures { TextsTellNumbers }
{}

/// A text breaks rule 12 nowhere else: at names of functions alone that have blocks.
pub fn functions_alone_break_rule_twelve()
    ensures { TextsBreakTwelve }
{}

/// So of the formal parameters of a heading.
pub fn formals_are_defined_once()
    ensures { HeadingsTellFormals }
{}

/// So of the program parameters, of which only `input` and `output` are defined.
pub fn parameters_are_defined_once()
    ensures { ProgramsTellParameters }
{}

/// Of the procedures and functions of a part, those break rule 2 whose name is defined before them in the region, but
/// for one that has the block of the first heading of its name.
pub fn routines_are_defined_once()
    ensures { PartsTellSecondHeadings }
{}

/// Of the labels of a label part, those break rule 2 that are declared before them in the block.
pub fn labels_are_declared_once()
    ensures { LabelPartsTellLabels }
{}
