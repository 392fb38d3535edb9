//! The outside of a turn: its files and its console. They lie in memory, so that no call of them fails.
ghost use Rattle.std.specs.Prelude.{◌≡◌};

use edge_ports::{Bytes, Failed, FetchFault, Keeper, Shelf, Source, StoreFault};
use std::alloc::Global;
use std::marker::Model;

/// The files of a turn. None is absent by mistake: a call fails only where memory runs out.
#[derive(Debug, Drop)]
pub struct TurnFiles {
    shelf: Shelf,
}

impl Model for TurnFiles {
    ghost use Rattle.web_page.specs.Outside.{FilesState, files_state_code};

    ghost Value = { FilesState };

    ghost coded = { files_state_code };

    ghost use Rattle.web_page.specs.Outside.{NeverFails, state_of};

    ghost view = { λ f. state_of f.shelf };

    ghost invariant = { λ f. NeverFails f.shelf };
}

impl TurnFiles {
    ghost use Rattle.std.specs.Prelude.{◌≡◌};
    ghost use Rattle.web_page.specs.Outside.{NeverFails, state_of};

    /// The files on this shelf, none of whose calls is to fail, or failed.
    pub fn new(shelf: Shelf) -> TurnFiles
        requires { NeverFails shelf }
        ensures { result ≡ state_of shelf }
    {
        TurnFiles { shelf }
    }
}

impl Keeper for TurnFiles {
    ghost use Rattle.std.specs.Prelude.{Some};
    ghost use Rattle.web_page.specs.Outside.{counts_of};

    ghost files = { λ f. Some f.files };

    ghost counts = { counts_of };

    fn fetch(&mut self, alloc: Global, name: &str, limit: u64) -> Result<Bytes, FetchFault> {
        self.shelf.fetch(alloc, name, limit)
    }

    fn store(&mut self, alloc: Global, name: &str, bytes: &[u8]) -> Result<(), StoreFault> {
        self.shelf.store(alloc, name, bytes)
    }
}

/// The console of a turn, from which no byte is copied.
#[derive(Debug, Drop)]
pub struct TurnConsole<'a> {
    left: &'a [u8],
}

impl<'a> Model for TurnConsole<'a> {
    ghost use Rattle.std.specs.Prelude.{ℕ, List};

    ghost Value = { List ℕ };

    ghost view = { λ c. c.left.now };
}

impl<'a> TurnConsole<'a> {
    /// A console with these bytes.
    pub fn new(bytes: &'a [u8]) -> TurnConsole<'a>
        ensures { result ≡ bytes.entry.now }
    {
        TurnConsole { left: bytes }
    }
}

impl<'a> Source for TurnConsole<'a> {
    ghost use Rattle.std.specs.Prelude.{Some};

    ghost left = { λ c. Some c };

    ghost faults = { λ _. 0 };

    fn take(&mut self, room: &mut [u8]) -> Result<usize, Failed> {
        let count = self.left.len().min(room.len());
        let (front, left) = self.left.split_at(count);
        room[..count].copy_from_slice(front);
        self.left = left;
        Ok(count)
    }
}
