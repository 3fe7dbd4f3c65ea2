//! The clients.
ghost use Rattle.std.specs.Prelude.{◌≡◌, ◌+◌, ◌≤◌, ◌++◌, [], ◌∷◌, IfSome};
ghost use Rattle.aim_messages.specs.declared.entries.TheConstants.{LATEST_MOMENT};
ghost use Rattle.aim_requests.specs.Requests.{IsPreparedFor};
ghost use Rattle.aim_mail.specs.Calls.{IsKept};
ghost use Rattle.aim_mail.specs.Mail.{client_of, IsTold};

use crate::response::Response;
use crate::slip::Inlet;
use crate::{Letter, Port, Word};
use aim_book::Full;
use aim_messages::Reply;
use aim_requests::Prepared;
use aim_sheets::Pool;
use std::marker::Model;
use std::sync::Wait;

/// The client of one vehicle. Contracts see its vehicle, the setting of its mailbox, the list of its calls, and how many
/// sheets the book keeps for the vehicle.
#[derive(Drop)]
pub struct Client {
    pub(crate) port: Port,
    pub(crate) inlet: Inlet,
}

impl Model for Client {
    ghost use Rattle.aim_mail.specs.Calls.{ClientModel, IsKept};
    ghost use Rattle.aim_mail.specs.Mail.{client_of, IsOpen, IsTold};

    ghost Value = { ClientModel };

    ghost view = { λ c. client_of c.port c.inlet };

    ghost invariant = { λ c. IsOpen c.port.sent c.inlet.heard × IsTold c.port c.inlet.first × IsKept (client_of c.port c.inlet) };
}

/// A client that sent its last word.
#[derive(Drop)]
pub struct Ended {
    pub(crate) port: Port,
    pub(crate) inlet: Inlet,
}

impl Model for Ended {
    ghost use Rattle.aim_mail.specs.Calls.{ClientModel};
    ghost use Rattle.aim_mail.specs.Mail.{client_of, IsEnded};

    ghost Value = { ClientModel };

    ghost view = { λ c. client_of c.port c.inlet };

    ghost invariant = { λ c. IsEnded c.port.sent c.inlet.heard };
}

// Moves all sheets of one pool into another.
fn move_over(mut sheets: Pool, back: &mut Pool)
    requires room { sheets.room ≡ back.old.room }
    requires few { back.old.count + sheets.count ≤ 2000000 }
    ensures { back.new ≡ record back.old { count = back.old.count + sheets.count } }
{
    for _ in 0..sheets.count() {
        let Ok(sheet) = sheets.take() else {
            unreachable!()
        };
        back.give(sheet);
    }
}

impl Client {
    pub(crate) fn new(port: Port, inlet: Inlet) -> Client
        requires new { (port.sent ≡ []) × (inlet.heard ≡ []) }
        requires told { IsTold port inlet.first }
        ensures { result ≡ client_of port inlet }
    {
        Client { port, inlet }
    }

    /// Makes one call, and waits for its answer. The sheets that the book gives back come into `back`, all but the one that
    /// it keeps where the calls with a reply say so.
    pub fn call<R: Wait>(
        &mut self,
        rt: &R,
        moment: u32,
        prepared: Prepared,
        back: &mut Pool,
    ) -> Result<Reply, Full>
        requires moment { moment ≤ LATEST_MOMENT }
        requires prepared { IfSome self.old.setting (λ s. IsPreparedFor s.layout prepared) }
        requires count { back.old.count ≤ 1000000 }
        requires room { IfSome self.old.setting (λ s. back.old.room ≡ s.layout.grid.spans) }
        ensures call { self.new ≡ record self.old { calls = self.old.calls ++ (record { moment = moment; message = prepared.message; answer = result }) ∷ []; kept = self.new.kept } }
        ensures sheets { back.new.count + self.new.kept ≡ back.old.count + self.old.kept + 2 }
        ensures kept { self.new.kept ≤ 1 }
        ensures number { IsKept self.old × IsKept self.new }
        ensures pool { back.new.room ≡ back.old.room }
    {
        let from = self.port.from();
        let letter = Letter {
            from,
            word: Word::Call { moment, prepared },
        };
        self.port.send(rt, letter);
        let Response {
            to: _,
            answer,
            sheets,
            kept: _,
            note,
        } = self.inlet.hear(rt);
        self.port.heed(note);
        move_over(sheets, back);
        answer
    }

    /// Sends the last word.
    pub fn finish<R: Wait>(self, rt: &R) -> Ended
        ensures { result ≡ self }
    {
        let Client { mut port, inlet } = self;
        let from = port.from();
        let letter = Letter {
            from,
            word: Word::Last,
        };
        port.send(rt, letter);
        Ended { port, inlet }
    }
}
