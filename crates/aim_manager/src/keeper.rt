//! The book as what stands under the turn.

use aim_book::{Book, Full, IdleBook};
use aim_layout::Layout;
use aim_messages::{Entry, Order, Reply};
use aim_requests::Prepared;
use aim_sheets::Pool;
use aim_tiles::Steps;
use aim_turnstile::Kept;
use std::marker::{Brand, Model};
use std::sync::ledger::{Blank, Ledger};

/// What a caller asks of the book.
pub enum Ask {
    /// Serve a vehicle's message. The pool goes along, takes in the sheets that aren't kept, and comes back.
    Serve {
        moment: u32,
        prepared: Prepared,
        sheets: Pool,
    },
    /// Take an order of the operator.
    Operate {
        moment: u32,
        order: Order,
    },
}

/// What the book answers.
#[derive(Drop)]
pub enum Told {
    Served {
        result: Result<Reply, Full>,
        sheets: Pool,
    },
    Operated {
        result: Result<Reply, Full>,
    },
}

/// What no call changes of a book. It stands in contracts alone, and no value of it is made.
pub struct BookSetting {
    pub layout: Layout,
    pub vehicles: u32,
    pub room: u32,
}

/// The book under the turn. It belongs to no ledger, and joins one of its own in each call.
#[derive(Drop)]
pub struct Keeper {
    pub(crate) book: IdleBook,
}

impl Model for Keeper {
    ghost use Rattle.std.specs.Prelude.{◌≤◌, length};
    ghost use Rattle.aim_book.specs.State.{State};

    ghost Value = { State };

    ghost view = { λ k. k.book };

    ghost invariant = { λ k. length k.book.journal ≤ k.book.room };
}

ghost use Rattle.std.specs.Prelude.{◌≡◌, ◌<◌, ◌≤◌, [], ◌∷◌, ◌++◌, length, MatchBool};
ghost use Rattle.aim_messages.specs.declared.entries.Entry.{Entry};
ghost use Rattle.aim_manager.specs.Asking.{MayCall, Does, is_made, setting_of};
ghost use Rattle.aim_manager.specs.Seen.{IsLawful, caller_of};

// Serves the message, or takes the order.
fn make_call<L: Ledger>(book: &mut Book<L>, caller: u32, call: Ask, steps: &mut Steps<L>) -> Told
    requires may_call { MayCall (setting_of book.old) caller call }
    requires fits { length book.old.journal ≤ book.old.room }
    ensures setting { setting_of book.new ≡ setting_of book.old }
    ensures does { Does (setting_of book.old) caller call book.old.journal book.new.journal result }
    ensures entry { MatchBool (is_made result)
        ((e : Entry) × (book.new.journal ≡ book.old.journal ++ e ∷ []) × (e.caller ≡ caller))
        (book.new.journal ≡ book.old.journal) }
    ensures lawful { IsLawful (setting_of book.new) book.new.journal }
{
    match call {
        Ask::Serve {
            moment,
            prepared,
            mut sheets,
        } => {
            let result = book.serve(caller, moment, prepared, &mut sheets, steps);
            Told::Served { result, sheets }
        }
        Ask::Operate { moment, order } => {
            let result = book.operate(moment, order, steps);
            Told::Operated { result }
        }
    }
}

// Makes the call on the book while it is in the ledger.
fn answer<L: Ledger>(book: IdleBook, caller: u32, call: Ask, blank: Blank) -> (IdleBook, Told)
    requires name { blank.name ≡ L.name }
    requires parts { blank.parts ≡ L.parts }
    requires some { 0 < blank.parts }
    requires may_call { MayCall (setting_of book) caller call }
    requires fits { length book.journal ≤ book.room }
    ensures setting { setting_of result.0 ≡ setting_of book }
    ensures does { Does (setting_of book) caller call book.journal result.0.journal result.1 }
    ensures entry { MatchBool (is_made result.1)
        ((e : Entry) × (result.0.journal ≡ book.journal ++ e ∷ []) × (e.caller ≡ caller))
        (result.0.journal ≡ book.journal) }
    ensures lawful { IsLawful (setting_of result.0) result.0.journal }
{
    let mut steps = Steps::<L>::new(blank);
    let mut book = book.join::<L>();
    let told = make_call(&mut book, caller, call, &mut steps);
    (book.leave(steps), told)
}

impl Kept for Keeper {
    ghost use Rattle.std.specs.Prelude.{[]};
    ghost use Rattle.std.proofs.Common.{arith, length-append};
    ghost use Rattle.aim_rules.proofs.LegalLemmas.{IsLegal-before, IsLegal-journal};
    ghost use Rattle.aim_manager.specs.Asking.{MayCall, Does, is_made, setting_of};
    ghost use Rattle.aim_manager.specs.Seen.{IsLawful, caller_of};

    type Setting = BookSetting;

    type Entry = Entry;

    type Call = Ask;

    type Answer = Told;

    ghost setting = { setting_of };

    ghost entries = { λ s. s.journal };

    ghost caller_of = { caller_of };

    ghost is_lawful = { IsLawful };

    ghost may_call = { MayCall };

    ghost does = { Does };

    ghost is_made = { is_made };

    /// Serves the message, or takes the order.
    fn apply(self, caller: u32, call: Ask) -> (Keeper, Told) {
        let Keeper { book } = self;
        let (book, told) = answer::<Brand>(book, caller, call, Blank::new(1));
        (Keeper { book }, told)
    }

    fn made(answer: &Told) -> bool {
        match answer {
            Told::Served { result, sheets: _ } => result.is_ok(),
            Told::Operated { result } => result.is_ok(),
        }
    }

    ghost lawful_empty = { λ s. (IsLegal-journal s.layout s.vehicles [] tt, omega arith) };

    ghost lawful_prefix = { λ s xs ys l. (IsLegal-before s.layout s.vehicles xs ys l.0, omega (arith, length-append xs ys, l.1)) };
}
