//! Replies to questions, by the digests of their texts.
ghost use Rattle.std.specs.Prelude.{◌<◌, ◌≡◌, ◌≤◌, [], IfOk, OnErr, OnOk, Some, length, slice_get};
ghost use Rattle.session_file.specs.Replies.{AreReplies, reply_to, with_reply};

use answer_book::Judgement;
use edge_ports::Memory;
use indexmap::IndexMap;
use std::alloc::Global;
use std::marker::Model;

/// The most replies that are kept.
pub const MOST_REPLIES: usize = 100_000;

/// Replies to questions: to each at most one, by the digest of its text. Clauses see them as the list of digests with
/// their replies, in the order in which the questions first came.
#[derive(Debug, Drop)]
pub struct Replies {
    alloc: Global,
    kept: IndexMap<[u8; 32], Judgement>,
}

impl Model for Replies {
    ghost use Rattle.std.specs.Prelude.{ℕ, List};
    ghost use Rattle.answer_book.specs.declared.entries.Judgement.{Judgement};
    ghost use Rattle.session_file.specs.Replies.{AreReplies};

    ghost Value = { List (List ℕ × Judgement) };

    ghost view = { λ replies. replies.kept.entries };

    ghost invariant = { λ replies. AreReplies replies.kept.entries };
}

impl Replies {
    /// No replies. It takes no memory.
    pub fn new(alloc: Global) -> Replies
        ensures { result ≡ [] }
    {
        Replies {
            alloc,
            kept: IndexMap::new(alloc),
        }
    }

    /// Sets the reply to the question of this digest: in the place of an older one; or else last, where there are fewer
    /// than [`MOST_REPLIES`], and it is left out where there are as many. The replies stay as they were where it is out
    /// of memory.
    pub fn set(&mut self, digest: [u8; 32], reply: Judgement) -> Result<(), Memory>
        ensures set { OnOk result (self.new ≡ with_reply self.old digest reply) }
        ensures unchanged { OnErr result (self.new ≡ self.old) }
    {
        if self.kept.contains_key(&digest) || self.kept.len() < MOST_REPLIES {
            self.kept.insert(digest, reply)?;
        }
        Ok(())
    }

    /// The reply to the question of this digest.
    pub fn to(&self, digest: &[u8; 32]) -> Option<Judgement>
        ensures { result ≡ reply_to self.now digest.now }
    {
        self.kept.get(digest).copied()
    }

    /// The digest and the reply at a place, counted from 0.
    pub fn at(&self, place: usize) -> ([u8; 32], Judgement)
        requires { place < length self.now }
        ensures { slice_get self.now place ≡ Some result }
    {
        let (digest, reply) = self.kept.get_index(place).unwrap();
        (*digest, *reply)
    }

    /// The same replies, in memory of their own.
    #[tactic(auto, using(crate::proofs::RepliesInOrder::replies_copied))]
    pub fn copied(&self) -> Result<Replies, Memory>
        ensures { IfOk result (λ replies. replies ≡ self.now) }
    {
        let mut copy = Replies::new(self.alloc);
        'places: for place in 0..self.len() {
            let (digest, reply) = self.at(place);
            copy.set(digest, reply)?;
        }
        Ok(copy)
    }

    /// How many replies there are.
    pub fn len(&self) -> usize
        ensures len { result ≡ length self.now }
        ensures replies { AreReplies self.now }
    {
        self.kept.len()
    }
}
