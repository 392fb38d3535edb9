//! What no clause says of a turn in a page: that memory suffices.
use std::alloc::Global;
use web_page::{NamedFile, PageTurn, take_turn};

const CHANGE: &[u8] =
    b"program change;\nvar coins: integer;\nprocedure fifty;\nbegin coins := coins + 50 end;\nprocedure twenty;\n\
    begin coins := coins + 2 end;\nprocedure seventy;\nbegin fifty; twenty end;\nbegin\n  coins := 0;\n  seventy\n\
    end.\n";

const SHOWN: &[u8] =
    b"call 0 change\n  returned\nask 1 suspects 3 left 2\ncall 1 seventy in call 0\n  reads coins = 0\n  changes \
    coins = 52\n  returned\nentry 2\nask 2 suspects 2 left 1\ncall 2 fifty in call 1\n  reads coins = 0\n  changes \
    coins = 50\n  returned\nentry 3\nask 3 suspects 1 left 0\ncall 3 twenty in call 1\n  reads coins = 50\n  changes \
    coins = 52\n  returned\nentry 4\nfound call 3 twenty\n  line 6\n  returned\n";

/// Whether the session on the wrong change shows what it is to show, with a further file beside the source.
fn shows(alloc: Global) -> bool {
    let further = NamedFile {
        name: "notes",
        bytes: b"seventy coins",
    };
    let turn = PageTurn {
        source: CHANGE,
        input: b"",
        budget: "1000000",
        session: None,
        files: &[further],
        console: b"wrong\nright\nwrong\n",
    };
    let mut screen = [0u8; 1_024];
    let mut saved = [0u8; 16];
    let outcome = take_turn(alloc, &turn, &mut screen, &mut saved);
    outcome.status == 0 && &screen[..outcome.screen] == SHOWN
}

#[test]
fn change_is_asked_about(rt: HostRuntime) {
    assert!(rt; shows(rt.alloc()));
}
