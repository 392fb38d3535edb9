//! What takes memory and needs no run: lists, the readings of a source, the store, the log and calls, each called once
//! with ample memory.
use call_tree::{Calls, Side};
use cell_value::{Cells, Change, Memory, Seen, Steps, Touch, Value, WayOut};
use check_steps::Def;
use code_checker::check;
use core_program::Program;
use core_program::rows::{Row, StatementRow};
use decl_checker::{Scopes, declare, find_in};
use edge_ports::Bytes;
use effect_log::{Log, effect};
use pas_lexer::{Token, TokenKind, Tokens, lex};
use pas_parser::parse;
use pas_tree::blocks::Tree;
use persistent_store::Store;
use std::alloc::Global;
use std::test::Fail;

/// Whether lists have what they were given.
fn lists_hold(alloc: Global) -> Result<bool, Memory> {
    let mut cells = Cells::new(alloc);
    cells.push(Value::Nil)?;
    let mut bytes = Bytes::new(alloc);
    bytes.append(b"ab")?;
    bytes.append(b"c")?;
    Ok(cells.as_slice() == [Value::Nil].as_slice() && bytes.as_slice() == b"abc".as_slice())
}

/// Its tokens are numbered from 0: the variable is token 4, the statement part is 8 to 12, and `End` is 14.
const SMALL: &[u8] = b"program p; var i: integer; begin i := 1 end.";

const ONE: Token = Token {
    kind: TokenKind::Number(1),
    start: 38,
    end: 39,
    line: 1,
};

fn are_tokens(tokens: &Tokens) -> bool {
    tokens.len() == 15 && tokens.at(11) == ONE
}

fn is_tree(tree: &Tree) -> bool {
    let body = &tree.block.body;
    let heading = tree.word == 0 && tree.name == 1 && tree.semicolon == 2;
    let statements = body.begin == 8 && body.statements.others.is_empty() && body.end == 12;
    heading && statements && tree.dot == 13 && tree.end == 14
}

/// The frame of the block has a link and the variable.
fn are_scopes(scopes: &Scopes) -> bool {
    let found = find_in(scopes, 1, b"i") == Some(Def::Variable(4));
    found && scopes.routines() == 1 && scopes.frame(0) == 2 && scopes.region(0) == Some(1)
}

fn is_program(program: &Program) -> bool {
    let assignment = matches!(
        program.row(10),
        Row::Statement(StatementRow::Assign {
            line: 1,
            target: 9,
            value: 11,
            of: 0
        })
    );
    match program.routine(0) {
        Some(block) => assignment && block.cells == 2 && block.statements == 8 && block.line == 1,
        None => false,
    }
}

/// Whether the declarations of a tree are those of the small source.
fn declares(alloc: Global, tokens: &Tokens, tree: &Tree) -> bool {
    match declare(alloc, tokens, tree) {
        Ok(scopes) => {
            let told = are_scopes(&scopes);
            drop(scopes);
            told
        }
        Err(_) => false,
    }
}

/// Whether the program of a tree is that of the small source.
fn denotes(alloc: Global, tokens: &Tokens, tree: &Tree) -> bool {
    match check(alloc, tokens, tree) {
        Ok(program) => {
            let told = is_program(&program);
            drop(program);
            told
        }
        Err(_) => false,
    }
}

/// Whether the small source has these tokens, this tree, these declarations and this program.
fn source_holds(alloc: Global) -> Result<bool, Fail> {
    let tokens = lex(alloc, SMALL)?;
    let tree = parse(alloc, &tokens)?;
    let read = are_tokens(&tokens) && is_tree(&tree);
    let declared = declares(alloc, &tokens, &tree);
    let checked = denotes(alloc, &tokens, &tree);
    drop(tree);
    Ok(read && declared && checked)
}

/// Whether a snapshot keeps a cell that is removed after it.
fn store_holds(alloc: Global) -> Result<bool, Memory> {
    let mut made: Steps<()> = Steps::new();
    let mut store = Store::new();
    store.put(alloc, 7, Value::Nil, &mut made)?;
    let before = store.snapshot()?;
    store.remove(alloc, 7, &mut made)?;
    Ok(before.get(7) == Some(Value::Nil) && store.get(7).is_none())
}

/// Whether a read, a write and a byte that was given are the effect of a call whose frame begins at 2.
fn effect_holds(alloc: Global) -> Result<bool, Memory> {
    let mut log = Log::new(alloc);
    log.push(Touch::Read(1, Value::Number(41)))?;
    log.push(Touch::Write(1, Value::Number(42)))?;
    log.push(Touch::Give(b'4'))?;
    let done = effect(alloc, &log, 0, 3, 2, 0)?;
    let seen = done.reads.as_slice() == [(1, Seen::Held(Value::Number(41)))].as_slice();
    let left = done.changes.as_slice() == [(1, Change::Set(Value::Number(42)))].as_slice();
    Ok(seen && left && done.given.as_slice() == b"4".as_slice())
}

/// A side whose log has this many entries.
fn side(mark: u32) -> Side {
    Side {
        mark,
        top: 0,
        fresh: 524_288,
        place: 0,
        output: 0,
        steps: 9,
        calls: 0,
        store: Store::new(),
    }
}

/// Whether a call of routine 1 that the program makes, and that returns, is call 1.
fn calls_hold(alloc: Global) -> Result<bool, Memory> {
    let mut calls = Calls::new(alloc, 2);
    let program = calls.enter(0, Cells::new(alloc), side(0))?;
    let called = calls.enter(1, Cells::new(alloc), side(10))?;
    calls.leave(side(11), WayOut::Returned, Some(Value::Number(5)));
    let call = calls.call(1);
    let left = call.parent == Some(0) && call.entry.mark == 10 && call.exit.mark == 11;
    Ok((program, called) == (0, 1) && left && call.result == Some(Value::Number(5)))
}

#[test]
fn layers(rt: HostRuntime) -> Result<(), Fail> {
    assert!(rt; lists_hold(rt.alloc())?, "lists");
    assert!(rt; source_holds(rt.alloc())?, "a source");
    assert!(rt; store_holds(rt.alloc())?, "a store");
    assert!(rt; effect_holds(rt.alloc())?, "an effect");
    assert!(rt; calls_hold(rt.alloc())?, "calls");
    Ok(())
}
