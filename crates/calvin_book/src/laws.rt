//! What receipts and looks say of a book stays true; where a later request stands, and on which rows it ran.
ghost use Rattle.std.specs.Prelude.{◌≡◌, ℕ, suc, ◌<◌, ◌++◌, List, Some};
ghost use Rattle.calvin_types.specs.declared.place.Place.{Place};
ghost use Rattle.calvin_types.specs.declared.txn.Txn.{Txn};
ghost use Rattle.calvin_types.specs.Orders.{StandsAt};
ghost use Rattle.calvin_app.specs.Meaning.{Meaning};
ghost use Rattle.calvin_order.specs.Configs.{Config, order};
ghost use Rattle.calvin_order.specs.Merged.{Assignment};
ghost use Rattle.calvin_world.specs.declared.event.Event.{Event};
ghost use Rattle.calvin_world.specs.Promises.{IsChosenUpTo};
ghost use Rattle.calvin_world.specs.Worlds.{WorldState};
ghost use Rattle.calvin_book.specs.declared.receipt.Submission.{Submission};
ghost use Rattle.calvin_book.specs.declared.receipt.Answered.{Answered};
ghost use Rattle.calvin_book.specs.Books.{Log, IsRun};
ghost use Rattle.calvin_book.specs.Receipts.{IsSubmitEvent, IsSubmitted, IsUnheard, IsAnswered, IsOnly};
ghost use Rattle.calvin_book.specs.Ran.{RanAt};

use calvin_app::App;

/// What a submission says of a book stays true however it grows.
pub fn submission_stays<Args, Row, Reply>()
    ensures { (m : Meaning Args Row Reply) (c : Config) (xs more : List (Event Args)) (s : Submission Args)
        → IsSubmitted m (record { config = c; events = xs }) s → IsSubmitted m (record { config = c; events = xs ++ more }) s }
{}

/// What an answer says of a book stays true however it grows: the first reply stays first.
pub fn reply_stays<Args, Row, Reply>()
    ensures { (m : Meaning Args Row Reply) (c : Config) (xs more : List (Event Args)) (a : Answered Args Reply)
        → IsAnswered m (record { config = c; events = xs }) a → IsAnswered m (record { config = c; events = xs ++ more }) a }
{}

/// Before the first packet there is no reply: a first look may begin at 0.
pub fn unheard_at_first<Args, Row, Reply>()
    ensures { (m : Meaning Args Row Reply) (log : Log Args) (s : Submission Args) → IsUnheard m log s 0 }
{}

/// Where none of a book's first packets replies to one of its submissions, none of these does however the book grows: so the next
/// look may begin where one ended.
pub fn unheard_stays<Args, Row, Reply>()
    ensures { (m : Meaning Args Row Reply) (c : Config) (xs more : List (Event Args)) (s : Submission Args) → IsSubmitEvent (record { config = c; events = xs }) s
        → (from : ℕ) → IsUnheard m (record { config = c; events = xs }) s from → IsUnheard m (record { config = c; events = xs ++ more }) s from }
{}

/// Where no other event of the book submits the id and attempt of a submission, what stands under these in the order of what is
/// chosen stands in epochs above the one that its caller had been told of.
pub fn stands_after_told<A: App>()
    ensures { (c : Config) (events : List (Event A.Args)) (w : WorldState A.Args A.Row A.Reply) → IsRun A.meaning c events w
        → (s : Submission A.Args) → IsSubmitted A.meaning (record { config = c; events = events }) s → IsOnly (record { config = c; events = events }) s
        → (told : ℕ) → s.told ≡ Some told
        → (B : Assignment A.Args) (n : ℕ) → IsChosenUpTo w B n → (r : Place) (t : Txn A.Args) → StandsAt (order c B n) r t → t.id ≡ s.txn.id → t.attempt ≡ s.txn.attempt → told < r.epoch }
{}

/// Where no other event of the book submits the id and attempt of a submission, its answer is that of its request on the rows just
/// before its place in the serial run of what is chosen; and these hold every write up to the epoch that its caller had been told
/// of, since they are what requests of later epochs made of the rows after it.
pub fn answered_on_told_rows<A: App>()
    ensures { (c : Config) (events : List (Event A.Args)) (w : WorldState A.Args A.Row A.Reply) → IsRun A.meaning c events w
        → (a : Answered A.Args A.Reply) (is : IsAnswered A.meaning (record { config = c; events = events }) a) → IsOnly (record { config = c; events = events }) a.submission
        → (B : Assignment A.Args) → IsChosenUpTo w B (suc is.place.epoch) → RanAt A.meaning c B a is.place }
{}
