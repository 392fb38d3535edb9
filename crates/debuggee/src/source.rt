//! From the bytes of a source to a program, and from a program to its run.
ghost use Rattle.std.specs.Prelude.{◌<◌, ◌≡◌, ◌≤◌, IfErr, IfOk, length};
ghost use Rattle.pas_lexer.specs.{Lexed.Lexed, Limits.source_bytes};
ghost use Rattle.core_program.specs.ProgramRows.{ProgramRows};
ghost use Rattle.run_laws.specs.LaidOut.{LaidOut};
ghost use Rattle.program_run.specs.History.{IsOfRun};
ghost use Rattle.debuggee.specs.{Execution.execution, Execution.execution_of, Limits.input_bytes, Limits.most_steps};
ghost use Rattle.debuggee.specs.Program.{IsProgram, IsRefused, Keeps};

use crate::runs::Debuggee;
use cell_names::NameFinder;
use code_checker::{SourceFault, check_tokens, one_text_one_program, read_tokens};
use core_program::{Program, every_program_runs, every_run_has_a_call};
use pas_lexer::Tokens;
use program_run::{calls_are_told, run};
use std::alloc::{AllocError, Global};

/// A source that is a program: its tokens, and the program that they are.
#[derive(Drop)]
pub struct SourceProgram {
    /// The tokens of the source, with its bytes.
    pub tokens: Tokens,
    /// The program that they are.
    pub program: Program,
}

/// The program that a source is. It takes memory. A source is refused that is no program of the language, that breaks a
/// static rule, or in which something is too big.
pub fn read_source(alloc: Global, source: &[u8]) -> Result<SourceProgram, SourceFault>
    requires { length source.now ≤ source_bytes }
    // The answer is the one program that the source is.
    ensures only { (t : Lexed) (p : ProgramRows) → IsProgram source.now t p → Keeps t p result }
    // A refused source is no program; and it is told why and where: at the first piece that does not fit, at a token
    // with which no tree of the grammar goes on, or at the first broken rule.
    ensures refused { IfErr result (IsRefused source.now) }
    // A source that is no program is refused, unless memory runs out.
    ensures found { IfOk result (λ s. IsProgram source.now s.tokens s.program) }
    // Its tables are laid out: so each cell of a frame of its run but the link has a name.
    ensures laid { IfOk result (λ s. LaidOut s.program) }
{
    // A text is one program, or it is refused.
    one_text_one_program();
    let tokens = read_tokens(alloc, source)?;
    let program = check_tokens(alloc, &tokens)?;
    Ok(SourceProgram { tokens, program })
}

/// The run of a program, with an input and a budget of steps. It takes memory, also for the names of cells.
pub fn run_program<'a>(
    alloc: Global,
    source: SourceProgram,
    input: &'a [u8],
    budget: u32,
) -> Result<Debuggee<'a>, AllocError>
    requires input { length input.now ≤ input_bytes }
    requires steps { 0 < budget }
    requires few_steps { budget ≤ most_steps }
    ensures kept { IfOk result (λ debuggee. execution debuggee
        ≡ execution_of source.tokens source.program (record { input = input.now; budget = budget })) }
    // All that is kept of the run is that of the program's run: the calls with what was there at their entry and exit,
    // the log, the items of the input, and what was given out.
    ensures history { IfOk result (λ debuggee. IsOfRun source.program input.now budget debuggee.history) }
{
    every_program_runs();
    every_run_has_a_call();
    // Of each call can be told what it did.
    calls_are_told();
    let SourceProgram { tokens, program } = source;
    program.is_whole();
    let history = run(alloc, &program, input, budget)?;
    let names = NameFinder::new(alloc, &program, tokens.len(), &history.log)?;
    Ok(Debuggee {
        tokens,
        program,
        input,
        history,
        names,
    })
}
