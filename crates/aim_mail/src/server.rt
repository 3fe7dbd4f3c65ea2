//! The server, and the end of a mailbox.
ghost use Rattle.std.specs.Prelude.{◌≡◌, ℕ, ◌<◌, ◌+◌, ◌≤◌, ◌++◌, [], ◌∷◌, List, length, map, true, false, All, Some};
ghost use mathlib.Core.Option.{some};
ghost use lib.ListN.{get_elem?};
ghost use Rattle.aim_messages.specs.declared.entries.TheConstants.{LATEST_MOMENT, MOST_VEHICLES, OPERATOR};
ghost use Rattle.aim_requests.specs.Requests.{IsPreparedFor};
ghost use Rattle.aim_rules.specs.Legal.{IsLegal};
ghost use Rattle.aim_book.specs.Sheets.{own};
ghost use Rattle.aim_book.specs.State.{State};
ghost use Rattle.aim_mail.specs.Calls.{IsOfMail, IsSettled, Channel};
ghost use Rattle.aim_mail.specs.Slips.{SlipModel};
ghost use Rattle.aim_mail.specs.declared.letter.Letter.{Letter};
ghost use Rattle.aim_mail.specs.Mail.{Stands, IsSameBook, AreSameSlips, IsSameIntake, HasEnded, IsNewSlip, call_letter, last_letter, channel_of, letters_of, noted_on, setting_of};

use crate::client::Ended;
use crate::response::Response;
use crate::slip::Slip;
use crate::{Intake, Letter, MailNote, Word};
use aim_book::Book;
use aim_book::laws::sheets_are_those_of_own_entries;
use aim_layout::Layout;
use aim_messages::Entry;
use aim_requests::Prepared;
use aim_sheets::Pool;
use aim_tiles::Steps;
use std::marker::Model;
use std::sync::Wait;
use std::sync::ledger::Ledger;

/// The book, with the count of the words of its table.
#[derive(Drop)]
pub(crate) struct Desk<L: Ledger> {
    pub(crate) book: Book<L>,
    pub(crate) steps: Steps<L>,
}

// How many spans a sheet of the layout has room for.
pub(crate) fn spans_of(layout: &Layout) -> u32
    ensures { result ≡ layout.now.grid.spans }
{
    layout.ground().grid().spans
}

// Serves the call that was received last, of which there is a note, and sends the response.
fn answer<L: Ledger, R: Wait>(
    rt: &R,
    desk: &mut Desk<L>,
    slips: &mut Vec<Slip>,
    note: MailNote,
    from: u32,
    moment: u32,
    prepared: Prepared,
)
    requires stands { (got : List Letter) × (note.got ≡ got ++ call_letter from moment prepared ∷ []) × Stands desk.old.book (noted_on note) got slips.old.items }
    requires from { from < desk.old.book.vehicles }
    requires moment { moment ≤ LATEST_MOMENT }
    requires prepared { IsPreparedFor desk.old.book.layout prepared }
    ensures book { IsSameBook desk.old.book desk.new.book }
    ensures slips { AreSameSlips slips.old.items slips.new.items }
    ensures stands { Stands desk.new.book (noted_on note) note.got slips.new.items }
{
    let mut sheets = Pool::empty(spans_of(desk.book.layout()));
    let answer = desk
        .book
        .serve(from, moment, prepared, &mut sheets, &mut desk.steps);
    let kept = desk.book.kept(from);
    sheets_are_those_of_own_entries();
    slips[from as usize].put(
        rt,
        Response {
            to: from,
            answer,
            sheets,
            kept,
            note,
        },
    );
}

// Notes the last word of a client.
fn note_end(slips: &mut Vec<Slip>, from: u32)
    requires from { from < length slips.old.items }
    ensures slips { AreSameSlips slips.old.items slips.new.items }
    ensures stands { (book : State) (on : Channel Letter) (got : List Letter) → Stands book on got slips.old.items → Stands book on (got ++ last_letter from ∷ []) slips.new.items }
{
    slips[from as usize].end();
}

// Receives one letter, and serves it.
fn serve_one<L: Ledger, R: Wait>(
    rt: &R,
    desk: &mut Desk<L>,
    intake: &mut Intake,
    slips: &mut Vec<Slip>,
)
    requires stands { Stands desk.old.book (letters_of intake.old) intake.old.got slips.old.items }
    requires made { (intake.old.made ≡ desk.old.book.vehicles) × (intake.old.setting ≡ Some (setting_of desk.old.book)) }
    ensures book { IsSameBook desk.old.book desk.new.book }
    ensures intake { IsSameIntake intake.old intake.new }
    ensures slips { AreSameSlips slips.old.items slips.new.items }
    ensures stands { Stands desk.new.book (letters_of intake.new) intake.new.got slips.new.items }
{
    let Letter { from, word } = intake.receive(rt);
    match word {
        Word::Call { moment, prepared } => {
            answer(rt, desk, slips, intake.note(), from, moment, prepared)
        }
        Word::Last => note_end(slips, from),
        Word::Opening(_) => unreachable!(),
    }
}

// Serves until the client has sent its last word.
fn serve_until<L: Ledger, R: Wait>(
    rt: &R,
    desk: &mut Desk<L>,
    intake: &mut Intake,
    slips: &mut Vec<Slip>,
    client: usize,
)
    requires client { client < length slips.old.items }
    requires stands { Stands desk.old.book (letters_of intake.old) intake.old.got slips.old.items }
    requires made { (intake.old.made ≡ desk.old.book.vehicles) × (intake.old.setting ≡ Some (setting_of desk.old.book)) }
    ensures book { IsSameBook desk.old.book desk.new.book }
    ensures intake { IsSameIntake intake.old intake.new }
    ensures slips { AreSameSlips slips.old.items slips.new.items }
    ensures stands { Stands desk.new.book (letters_of intake.new) intake.new.got slips.new.items }
    ensures ended { HasEnded slips.new.items client }
{
    for _ in rt.forever() {
        if slips[client].has_ended() {
            return;
        }
        serve_one(rt, desk, intake, slips);
    }
    unreachable!()
}

/// The server of a mailbox.
#[derive(Drop)]
pub struct Server<L: Ledger> {
    desk: Desk<L>,
    intake: Intake,
    slips: Vec<Slip>,
}

impl<L: Ledger> Model for Server<L> {
    ghost use Rattle.std.specs.Prelude.{◌≡◌, ◌≤◌, [], map, Some};
    ghost use Rattle.aim_messages.specs.declared.entries.TheConstants.{MOST_VEHICLES};
    ghost use Rattle.aim_mail.specs.Calls.{ServerModel};
    ghost use Rattle.aim_mail.specs.Mail.{Stands, channel_of, letters_of, setting_of};

    ghost Value = { ServerModel };

    ghost view = { λ s. record { setting = setting_of s.desk.book; asked_on = letters_of s.intake; answers_on = map channel_of s.slips.items } };

    ghost invariant = { λ s. Stands s.desk.book (letters_of s.intake) s.intake.got s.slips.items × (s.intake.made ≡ s.desk.book.vehicles) × (s.intake.setting ≡ Some (setting_of s.desk.book)) × (s.intake.known ≡ []) × (s.desk.book.vehicles ≤ MOST_VEHICLES) };
}

/// A server that has received the last word of every client.
#[derive(Drop)]
pub struct Served<L: Ledger> {
    desk: Desk<L>,
    intake: Intake,
    slips: Vec<Slip>,
}

impl<L: Ledger> Model for Served<L> {
    ghost use Rattle.std.specs.Prelude.{◌≡◌, ◌<◌, ◌≤◌, [], ℕ, length, map};
    ghost use Rattle.aim_messages.specs.declared.entries.TheConstants.{MOST_VEHICLES};
    ghost use Rattle.aim_mail.specs.Calls.{ServerModel};
    ghost use Rattle.aim_mail.specs.Mail.{Stands, HasEnded, channel_of, letters_of, setting_of};

    ghost Value = { ServerModel };

    ghost view = { λ s. record { setting = setting_of s.desk.book; asked_on = letters_of s.intake; answers_on = map channel_of s.slips.items } };

    ghost invariant = { λ s. Stands s.desk.book (letters_of s.intake) s.intake.got s.slips.items × (s.intake.made ≡ s.desk.book.vehicles) × (s.intake.known ≡ []) × (s.desk.book.vehicles ≤ MOST_VEHICLES) × ((p : ℕ) → p < length s.slips.items → HasEnded s.slips.items p) };
}

impl<L: Ledger> Server<L> {
    pub(crate) fn new(desk: Desk<L>, intake: Intake, slips: Vec<Slip>) -> Server<L>
        requires book { (desk.book.journal ≡ []) × (length slips.items ≡ desk.book.vehicles) × (desk.book.vehicles ≤ MOST_VEHICLES) }
        requires legal { IsLegal desk.book.layout desk.book.vehicles desk.book.journal }
        requires intake { (intake.got ≡ []) × (intake.made ≡ desk.book.vehicles) × (intake.setting ≡ Some (setting_of desk.book)) × (intake.known ≡ []) }
        requires slips { (p : ℕ) (s : SlipModel) → get_elem? slips.items p ≡ some s → IsNewSlip p (letters_of intake) desk.book.layout.grid.spans s }
        ensures { result ≡ record { setting = setting_of desk.book; asked_on = letters_of intake; answers_on = map channel_of slips.items } }
    {
        sheets_are_those_of_own_entries();
        Server {
            desk,
            intake,
            slips,
        }
    }

    /// Serves until it has received the last word of every client.
    pub fn run<R: Wait>(self, rt: &R) -> Served<L>
        ensures { result ≡ self }
    {
        let Server {
            mut desk,
            mut intake,
            mut slips,
        } = self;
        let count = slips.len();
        for client in 0..count {
            serve_until(rt, &mut desk, &mut intake, &mut slips, client);
        }
        Served {
            desk,
            intake,
            slips,
        }
    }
}

/// Ends a mailbox: the journal, in which each client finds its calls.
pub fn settle<L: Ledger>(served: Served<L>, mut ended: Vec<Ended>) -> Vec<Entry>
    requires own { All (IsOfMail served) ended.items }
    ensures legal { IsLegal served.setting.layout served.setting.vehicles result.items }
    ensures room { length result.items ≤ served.setting.room }
    ensures operator { own OPERATOR result.items ≡ [] }
    ensures clients { All (IsSettled served.setting.room result.items) ended.items }
{
    let Served {
        desk,
        mut intake,
        mut slips,
    } = served;
    while let Some(end) = ended.pop() {
        let Ended { port, inlet } = end;
        let from = port.from();
        intake.take_in(port);
        slips[from as usize].meet(inlet);
    }
    intake.settled();
    drop(intake);
    sheets_are_those_of_own_entries();
    let Desk { book, steps: _ } = desk;
    book.into_journal()
}
