//! As what a side tells that a packet was heard.

ghost use Rattle.std.specs.Prelude.{◌≡◌, false, IfOk};
ghost use Rattle.fuxi_terms.specs.declared.answers.What.TheVariants.{Stranger as SaysStranger, Taken as SaysTaken, Stale as SaysStale, Ack as SaysAck};
ghost use Rattle.spec_net.specs.Net.{is_taken};
ghost use Rattle.channel_refinement.specs.Alike.{told_as};

use delta_channel::Verdict;
use fuxi_terms::{OutOfMemory, What};
use party_ledgers::Heard;
use std::alloc::Global;
use std::marker::Model;

/// As what a packet was heard, in few bytes, since each packet is answered with one: a word that says much is rare, and stands
/// on the heap. A contract sees the [`Heard`] that it is.
#[derive(Drop)]
pub struct Reply {
    fresh: bool,
    word: Word,
}

impl Model for Reply {
    ghost use Rattle.party_ledgers.specs.declared.packets.Heard.{Heard as HeardRecord};

    ghost Value = { HeardRecord };

    ghost view = { λ r. record { fresh = r.fresh; what = r.word } };
}

// The word of the rule that ended a packet. A contract sees the [`What`] that it is.
#[derive(Drop)]
pub(crate) struct Word {
    told: Told,
}

// How a word is kept.
#[derive(Drop)]
enum Told {
    Stranger,
    Stale,
    Ack,
    NotMine,
    Old,
    Gap,
    Taken,
    // One of the others.
    Long(Box<What>),
}

impl Model for Word {
    ghost use Rattle.fuxi_terms.specs.declared.answers.What.{What as WhatSaid};
    ghost use Rattle.peer_channel.specs.Replies.{what_of};

    ghost Value = { WhatSaid };

    ghost view = { λ w. what_of w.told };
}

impl Reply {
    /// A packet of a stranger.
    pub fn stranger() -> Reply
        ensures { result ≡ record { fresh = false; what = SaysStranger } }
    {
        Reply {
            fresh: false,
            word: Word {
                told: Told::Stranger,
            },
        }
    }

    // A packet of an earlier incarnation.
    pub(crate) fn stale() -> Reply
        ensures { result ≡ record { fresh = false; what = SaysStale } }
    {
        Reply {
            fresh: false,
            word: Word { told: Told::Stale },
        }
    }

    // An acknowledgement.
    pub(crate) fn ack(fresh: bool) -> Reply
        ensures { result ≡ record { fresh = fresh; what = SaysAck } }
    {
        Reply {
            fresh,
            word: Word { told: Told::Ack },
        }
    }

    // A packet that was heard as this word.
    pub(crate) fn make(fresh: bool, word: Word) -> Reply
        ensures { result ≡ record { fresh = fresh; what = word } }
    {
        Reply { fresh, word }
    }

    /// Whether its sender is a new incarnation of the peer.
    pub fn fresh(&self) -> bool
        ensures { result ≡ self.now.fresh }
    {
        self.fresh
    }

    /// Whether a ledger or a change was taken.
    pub fn is_taken(&self) -> bool
        ensures { result ≡ is_taken self.now.what }
    {
        matches!(self.what(), What::Taken)
    }

    /// The word of the rule that ended it.
    pub fn what(&self) -> &What
        ensures { result.now ≡ self.now.what }
    {
        self.word.what()
    }

    /// All of it.
    pub fn heard(&self) -> Heard
        ensures { result ≡ self.now }
    {
        Heard {
            fresh: self.fresh,
            what: *self.word.what(),
        }
    }
}

impl Word {
    // A ledger or a change is taken.
    pub(crate) fn taken() -> Word
        ensures { result ≡ SaysTaken }
    {
        Word { told: Told::Taken }
    }

    // How a verdict is told.
    pub(crate) fn told_as(verdict: Verdict) -> Word
        ensures { result ≡ told_as verdict }
    {
        let told = match verdict {
            Verdict::Take => Told::Taken,
            Verdict::Old => Told::Old,
            Verdict::Gap => Told::Gap,
            Verdict::NotMine => Told::NotMine,
            Verdict::Stale => Told::Stale,
        };
        Word { told }
    }

    // A word that says much.
    pub(crate) fn long(alloc: Global, what: What) -> Result<Word, OutOfMemory>
        ensures { IfOk result (λ word. word ≡ what) }
    {
        Ok(Word {
            told: Told::Long(Box::new(alloc, what)?),
        })
    }

    // What it says.
    fn what(&self) -> &What
        ensures { result.now ≡ self.now }
    {
        match &self.told {
            Told::Stranger => &What::Stranger,
            Told::Stale => &What::Stale,
            Told::Ack => &What::Ack,
            Told::NotMine => &What::NotMine,
            Told::Old => &What::Old,
            Told::Gap => &What::Gap,
            Told::Taken => &What::Taken,
            Told::Long(what) => what,
        }
    }
}
