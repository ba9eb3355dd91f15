//! A request's attempts.
ghost use Rattle.std.specs.Prelude.{◌≡◌, ◌≤◌, ◌↔◌, ⊤, OnOk, OnErr, IsErr, IsOkUnless};
ghost use Rattle.calvin_app.specs.declared.answer.Answer.TheVariants.{Changed};
ghost use Rattle.calvin_recon.specs.Issuing.{after, issued};

use calvin_app::Answer;
use calvin_types::{Fault, MOST_ATTEMPTS, RequestId, Sets, Txn};
use std::marker::Model;

/// What an issuer does after an answer.
#[derive(Clone, Copy, Debug, PartialEq, Eq)]
pub enum Next<Args> {
    /// The request was run, and nothing more is to be done.
    Done,
    /// Its declared sets had changed, and this is the next attempt.
    Again(Txn<Args>),
}

/// Issues one request: a first attempt, and after each that was answered `Changed` another, with other sets, up to the
/// eighth (Thomson et al. 2012, section 3.2.1: a request whose sets have changed is issued again). Contracts see it as the
/// last attempt.
#[derive(Drop)]
pub struct Issuer<Args> {
    txn: Txn<Args>,
}

impl<Args> Model for Issuer<Args> {
    ghost use Rattle.std.specs.Prelude.{◌≤◌};
    ghost use Rattle.calvin_types.specs.declared.txn.Txn.{Txn};
    ghost use Rattle.calvin_types.specs.declared.limits.TheConstants.{MOST_ATTEMPTS};

    ghost Value = { Txn Args };

    ghost view = { λ s. s.txn };

    ghost invariant = { λ s. s.txn.attempt ≤ MOST_ATTEMPTS };

    ghost inverse = { λ t. record { txn = t } };
}

impl<Args: Copy> Issuer<Args> {
    /// Begins with attempt 1, of these arguments with these sets.
    pub fn first(id: RequestId, args: Args, sets: Sets) -> Issuer<Args>
        ensures { result ≡ record { id = id; attempt = 1; args = args; sets = sets } }
    {
        Issuer {
            txn: Txn {
                id,
                attempt: 1,
                args,
                sets,
            },
        }
    }

    /// The last attempt, which is to be submitted. It is one of eight.
    pub fn txn(&self) -> Txn<Args>
        ensures txn { result ≡ self.now }
        ensures at_most { self.now.attempt ≤ MOST_ATTEMPTS }
    {
        self.txn
    }

    /// After an answer to the last attempt: nothing more where it was run, and where it was answered `Changed` the next
    /// attempt at the same request, with these sets. Refused with `TooManyTries` where the last one was the eighth.
    pub fn after<Reply>(&mut self, answer: &Answer<Reply>, sets: Sets) -> Result<Next<Args>, Fault>
        ensures next { result ≡ after self.old answer.now sets }
        ensures ok { OnOk result (self.new ≡ issued self.old answer.now sets) }
        ensures err { OnErr result (self.new ≡ self.old) }
        ensures only { IsOkUnless result Fault.TooManyTries }
    {
        match answer {
            Answer::Reply(_) => Ok(Next::Done),
            Answer::Changed => {
                if self.txn.attempt == MOST_ATTEMPTS {
                    return Err(Fault::TooManyTries);
                }
                self.txn.attempt += 1;
                self.txn.sets = sets;
                Ok(Next::Again(self.txn))
            }
        }
    }
}
