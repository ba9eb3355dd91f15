//! The desk.
ghost use Rattle.std.specs.Prelude.{◌≡◌, ◌≢◌, ◌≤◌, ◌+◌, ◌⊎◌, ◌∷◌, ◌++◌, [], ℕ, List, Ok, true, false, IfOk, IfErr, OnOk, IsOkUnless, option_map};
ghost use Rattle.std.specs.FinMap as map;
ghost use Rattle.calvin_types.specs.declared.limits.TheConstants.{MOST_EPOCHS};
ghost use Rattle.calvin_types.specs.Keys.{are_distinct};
ghost use Rattle.calvin_app.specs.Rows.{overwritten};
ghost use Rattle.calvin_app.specs.Writing.{keys_of};
ghost use Rattle.calvin_script.specs.Scripts.{all_listed};
ghost use Rattle.calvin_serial.specs.FirstSets.{NeedsFirst};
ghost use Rattle.calvin_journal.specs.Lines.{has_break};
ghost use Rattle.calvin_journal.specs.Journals.{Becomes};
ghost use Rattle.calvin_types.specs.declared.fault.Fault.TheVariants.{OutOfMemory, EpochsSpent, JournalFailed};
ghost use Rattle.calvin_serve_desk.specs.Desks.{Commits};
ghost use Rattle.calvin_serve_desk.specs.Epochs.{epoch_answers};

use crate::one_epoch::OneEpoch;
use crate::setting::Setting;
use calvin_app::{Serial, Settles};
use calvin_journal::{Journal, Refused};
use calvin_journal_log::Log;
use calvin_order::EpochRequests;
use calvin_script::{Epoch, Kept, Operation};
use calvin_serial::push_answers;
use calvin_text::Printed;
use calvin_types::{Config, Fault, Key, MOST_EPOCHS};
use std::alloc::{AllocError, Global};
use std::marker::Model;

/// A journal, and the rows where its epochs leave them. To contracts it is the journal's lines, where its log tells its bytes,
/// the number of the next epoch, and the rows.
#[derive(Drop)]
pub struct Desk<A: Settles + Drop, L: Log + Drop> {
    app: A,
    setting: Setting,
    store: Serial<A>,
    epoch: u64,
    journal: Journal<L>,
}

impl<A: Settles + Drop, L: Log + Drop> Model for Desk<A, L> {
    ghost use Rattle.std.specs.Prelude.{◌≤◌};
    ghost use Rattle.std.specs.Coded.{codes};
    ghost use Rattle.std.specs.FinMap.{code};
    ghost use Rattle.calvin_types.specs.declared.limits.TheConstants.{MOST_EPOCHS};
    ghost use Rattle.calvin_serve_desk.specs.Desks.{Standing};

    ghost Value = { Standing A.Row };

    ghost coded = { Prim.hlevel (codes, code) };

    ghost view = { λ d. record { setting = d.setting; lines = d.journal.lines; failures = d.journal.failures; epoch = d.epoch; rows = d.store } };

    ghost invariant = { λ d. d.epoch ≤ MOST_EPOCHS };
}

impl<A: Settles + Drop, L: Log + Drop> Desk<A, L>
where
    A::Args: Operation,
    A::Reply: Printed,
{
    /// A desk at a journal whose epochs, so many, led to these rows.
    pub fn new(
        app: A,
        setting: Setting,
        store: Serial<A>,
        epochs: u64,
        journal: Journal<L>,
    ) -> Desk<A, L>
        requires in_range { epochs ≤ MOST_EPOCHS }
        ensures { result ≡ record { setting = setting; lines = journal.lines; failures = journal.failures; epoch = epochs; rows = store } }
    {
        Desk {
            app,
            setting,
            store,
            epoch: epochs,
            journal,
        }
    }

    /// Takes one epoch more: its line is added to the journal and kept there, then it is run, and a line for each request is
    /// added to the text. Only when this answers well may the text be told.
    ///
    /// Refused, the desk is gone, and after each crash the journal has the lines from before, and then maybe this one. Where all
    /// 2^48 epochs are used (`EpochsSpent`) nothing was written.
    pub fn commit(
        self,
        alloc: Global,
        line: &[u8],
        epoch: &Epoch<Kept<A::Args>>,
        text: &mut Vec<u8>,
    ) -> Result<Desk<A, L>, Refused<L>>
        requires first { NeedsFirst A.Args.grammar A.meaning }
        requires one_line { has_break line.now ≡ false }
        ensures ok { IfOk result (λ d. Commits A.meaning A.Reply.printed self line.now (all_listed epoch.now) d text.old.items text.new.items) }
        ensures any_moment { IfErr result (λ s. Becomes (option_map (λ ls. (ls, ls ++ line.now ∷ [])) self.lines) (L.told s.log)) }
        ensures only { IfErr result (λ s. (s.fault ≡ OutOfMemory) ⊎ (s.fault ≡ EpochsSpent) ⊎ (s.fault ≡ JournalFailed)) }
        ensures spent { IfErr result (λ s. s.fault ≡ EpochsSpent → (MOST_EPOCHS ≤ self.epoch) × Becomes (option_map (λ ls. (ls, ls)) self.lines) (L.told s.log)) }
        ensures failed { IfErr result (λ s. s.fault ≡ JournalFailed → L.failures s.log ≡ self.failures + 1) }
        ensures not_failed { IfErr result (λ s. s.fault ≢ JournalFailed → L.failures s.log ≡ self.failures) }
    {
        if self.epoch >= MOST_EPOCHS {
            return Err(Refused {
                fault: Fault::EpochsSpent,
                log: self.journal.into_log(),
            });
        }
        let journal = match self.journal.add(alloc, line) {
            Ok(journal) => journal,
            Err(refused) => return Err(refused),
        };
        let mut store = self.store;
        match run_epoch(
            alloc,
            &self.app,
            &self.setting,
            &mut store,
            self.epoch,
            epoch,
            text,
        ) {
            Ok(()) => Ok(Desk {
                app: self.app,
                setting: self.setting,
                store,
                epoch: self.epoch + 1,
                journal,
            }),
            Err(_) => Err(Refused {
                fault: Fault::OutOfMemory,
                log: journal.into_log(),
            }),
        }
    }

    /// What the journal is of.
    pub fn setting(&self) -> &Setting
        ensures { result.now ≡ self.now.setting }
    {
        &self.setting
    }

    /// The number of the next epoch, which is at most 2^48: then all are used.
    pub fn epoch(&self) -> u64
        ensures number { result ≡ self.now.epoch }
        ensures in_range { result ≤ MOST_EPOCHS }
    {
        self.epoch
    }

    /// All rows with their keys, in ascending order of the keys. Refused for want of memory.
    pub fn rows(&self, alloc: Global) -> Result<Vec<(Key, A::Row)>, AllocError>
        ensures rows { IfOk result (λ rows. rows.items ≡ map.entries self.now.rows) }
        ensures whole { IfOk result (λ rows. overwritten map.empty rows.items ≡ self.now.rows) }
        ensures distinct { IfOk result (λ rows. are_distinct (keys_of rows.items) ≡ true) }
    {
        self.store.to_rows(alloc)
    }

    /// The same rows over another journal, which they go on from with the same number of the next epoch. The former journal is
    /// closed.
    pub fn over<N: Log + Drop>(self, journal: Journal<N>) -> Desk<A, N>
        ensures { result ≡ record { setting = self.setting; lines = journal.lines; failures = journal.failures; epoch = self.epoch; rows = self.rows } }
    {
        Desk {
            app: self.app,
            setting: self.setting,
            store: self.store,
            epoch: self.epoch,
            journal,
        }
    }

    /// The log. Whatever crashes, its file has these lines and nothing else.
    pub fn into_log(self) -> L
        ensures any_moment { Becomes (option_map (λ ls. (ls, ls)) self.lines) (L.told result) }
        ensures failures { L.failures result ≡ self.failures }
    {
        self.journal.into_log()
    }
}

/// Runs an epoch, whose number is this one, on the rows that there are, and adds a line for each request. Refused only for want of
/// memory: then some of the requests may have been run.
pub fn run_epoch<A: Settles>(
    alloc: Global,
    app: &A,
    setting: &Setting,
    store: &mut Serial<A>,
    number: u64,
    epoch: &Epoch<Kept<A::Args>>,
    text: &mut Vec<u8>,
) -> Result<(), Fault>
where
    A::Args: Operation,
    A::Reply: Printed,
    requires first { NeedsFirst A.Args.grammar A.meaning }
    ensures ok { OnOk result ((here : List ℕ) × (epoch_answers A.meaning A.Reply.printed setting.now number store.old (all_listed epoch.now) ≡ Ok (store.new, here))
        × (text.new.items ≡ text.old.items ++ here)) }
    ensures only { IsOkUnless result Fault.OutOfMemory }
{
    let batches = OneEpoch { epoch };
    let config = Config {
        partitions: setting.partitions,
        replicas: 1,
        delay: 0,
        woven_from: None,
    };
    let requests = EpochRequests::new(&batches, number, &config);
    push_answers(alloc, app, store, requests, setting.sets, text)
}
