//! The channel from the server to one client.
ghost use Rattle.std.specs.Prelude.{◌≡◌, ◌++◌, [], ◌∷◌, true, false, IfOk, List, Some};
ghost use Rattle.crossbeam_channel.specs.Claims.{view, IsSeatAt};
ghost use Rattle.crossbeam_channel.specs.Ends.{sends_on, receives_on};
ghost use Rattle.aim_mail.specs.Slips.{telling_slate, slate, whole_slate, put_more, heard_more, Lawful, SlipModel, InletModel, put_on, heard_on};
ghost use Rattle.aim_mail.specs.declared.response.Response.{Response};

use crate::response::Response;
use crate::{pass_over, receive_until, send_until};
use crossbeam_channel::protocol::{Join, Lesson, Outcome, Protocol, Split};
use crossbeam_channel::{Pass, RuledReceiver, RuledSender, bounded_with};
use std::alloc::{AllocError, Global};
use std::collections::LinkedList;
use std::marker::Model;
use std::sync::Wait;

/// What a pass of the channel knows. It stands in contracts alone, and no value of it is made.
pub struct Slate {
    /// The first response, which tells what no call changes, and whether it was heard.
    pub first: Option<Response>,
    pub ready: bool,
    /// Whether it may send.
    pub puts: bool,
    /// All that were sent after the first.
    pub put: LinkedList<Response>,
    /// Whether it may receive.
    pub hears: bool,
    /// All that were received after the first.
    pub heard: LinkedList<Response>,
}

/// The rule of the channel.
pub struct Answering;

impl Protocol<Response, Slate> for Answering {
    ghost use Rattle.aim_mail.specs.Slips.{Answered, blank_slate};

    ghost holds = { Answered };

    ghost first = { blank_slate };
}

/// Cuts the two ends apart, and puts them together.
pub struct Ends;

impl Split<Slate> for Ends {
    ghost use Rattle.std.specs.Prelude.{[], true, false};
    ghost use Rattle.aim_mail.specs.Slips.{slate};

    ghost left = { λ v. slate v.first true v.put false [] };

    ghost right = { λ v. slate v.first false [] true v.heard };
}

impl Join<Slate> for Ends {
    ghost use Rattle.std.specs.Prelude.{true};
    ghost use Rattle.aim_mail.specs.Slips.{slate, spent_slate};

    ghost both = { λ v w. slate v.first true v.put true w.heard };

    ghost spent = { spent_slate };
}

/// The first response was sent.
pub struct TellsFirst;

impl Outcome<Response, Slate> for TellsFirst {
    ghost then = { λ v x w. w ≡ telling_slate (Some x) };
}

impl Lesson<Response, Slate> for TellsFirst {
    ghost use Rattle.std.specs.Prelude.{⊤};

    ghost fact = { λ v items. ⊤ };
}

/// The first response was received.
pub struct HearsFirst;

impl Outcome<Response, Slate> for HearsFirst {
    ghost then = { λ v x w. w ≡ whole_slate v.first };
}

impl Lesson<Response, Slate> for HearsFirst {
    ghost use Rattle.std.specs.Prelude.{⊤};

    ghost fact = { λ v items. ⊤ };
}

/// A response was sent.
pub struct Puts;

impl Outcome<Response, Slate> for Puts {
    ghost then = { λ v x w. w ≡ put_more v x };
}

impl Lesson<Response, Slate> for Puts {
    ghost use Rattle.std.specs.Prelude.{⊤};

    ghost fact = { λ v items. ⊤ };
}

/// A response was received. All that were received are lawful.
pub struct Hears;

impl Outcome<Response, Slate> for Hears {
    ghost then = { λ v x w. (w ≡ heard_more v x) × Lawful w.first w.heard };
}

impl Lesson<Response, Slate> for Hears {
    ghost use Rattle.std.specs.Prelude.{⊤};

    ghost fact = { λ v items. ⊤ };
}

/// What was sent is what was received, and then what the channel holds.
pub struct Balance;

impl Lesson<Response, Slate> for Balance {
    ghost fact = { λ v items. v.put ≡ v.heard ++ items };
}

type SlipSender = RuledSender<Response, Slate, Answering>;

type SlipReceiver = RuledReceiver<Response, Slate, Answering>;

type SlipPass = Pass<Response, Slate>;

// Receives the first response.
fn hear_first<R: Wait>(rt: &R, receiver: &SlipReceiver, pass: &mut SlipPass)
    requires seat { IsSeatAt (receives_on receiver.now) pass.old }
    requires told { view pass.old ≡ telling_slate (view pass.old).first }
    ensures seat { IsSeatAt (receives_on receiver.now) pass.new }
    ensures heard { view pass.new ≡ whole_slate (view pass.old).first }
{
    pass_over::<Response, Slate, Answering, HearsFirst, R>(rt, receiver, pass);
}

/// The client's end.
#[derive(Drop)]
pub struct Inlet {
    receiver: SlipReceiver,
    pass: SlipPass,
}

impl Model for Inlet {
    ghost use Rattle.std.specs.Prelude.{◌≡◌, [], true, false};
    ghost use Rattle.crossbeam_channel.specs.Claims.{IsSeatAt};
    ghost use Rattle.crossbeam_channel.specs.Ends.{receives_on};
    ghost use Rattle.aim_mail.specs.Slips.{slate, InletModel, Lawful};

    ghost Value = { InletModel };

    ghost view = { λ p. record { table = p.pass.table_id; key = p.pass.me.0.of; first = p.pass.me.0.client.first; heard = p.pass.me.0.client.heard } };

    ghost invariant = { λ p. IsSeatAt (receives_on p.receiver) p.pass × (p.pass.me.0.client ≡ slate p.pass.me.0.client.first false [] true p.pass.me.0.client.heard) × Lawful p.pass.me.0.client.first p.pass.me.0.client.heard };
}

impl Inlet {
    /// The next response.
    pub fn hear<R: Wait>(&mut self, rt: &R) -> Response
        ensures heard { self.new ≡ heard_on self.old result }
        ensures lawful { Lawful self.new.first self.new.heard }
    {
        receive_until::<Response, Slate, Answering, Hears, R>(rt, &self.receiver, &mut self.pass)
    }
}

/// The server's end, and whether the client has ended.
#[derive(Drop)]
pub struct Slip {
    sender: SlipSender,
    pass: SlipPass,
    pub ended: bool,
}

impl Model for Slip {
    ghost use Rattle.std.specs.Prelude.{◌≡◌, true};
    ghost use Rattle.crossbeam_channel.specs.Claims.{IsSeatAt};
    ghost use Rattle.crossbeam_channel.specs.Ends.{sends_on};
    ghost use Rattle.aim_mail.specs.Slips.{SlipModel};

    ghost Value = { SlipModel };

    ghost view = { λ p. record { table = p.pass.table_id; key = p.pass.me.0.of; first = p.pass.me.0.client.first; put = p.pass.me.0.client.put; ended = p.ended } };

    ghost invariant = { λ p. IsSeatAt (sends_on p.sender) p.pass × (p.pass.me.0.client.puts ≡ true) × (p.pass.me.0.client.ready ≡ true) };
}

impl Slip {
    /// A channel for one response at a time. The first one tells the client's number, the channel of its requests and the
    /// room of its sheets.
    pub fn open<R: Wait>(
        rt: &R,
        alloc: Global,
        first: Response,
    ) -> Result<(Slip, Inlet), AllocError>
        ensures slip { IfOk result (λ r. (r.0.put ≡ []) × (r.0.ended ≡ false) × (r.0.first ≡ Some first)) }
        ensures inlet { IfOk result (λ r. r.1 ≡ record { table = r.0.table; key = r.0.key; first = r.0.first; heard = [] }) }
    {
        let Ok((sender, receiver, mut pass)) = bounded_with::<Response, Slate, Answering, Global>(
            alloc, 1,
        ) else {
            drop(first);
            return Err(AllocError);
        };
        send_until::<Response, Slate, Answering, TellsFirst, R>(rt, &sender, &mut pass, first);
        hear_first(rt, &receiver, &mut pass);
        let other = sender.another::<Ends>(&mut pass);
        let inlet = Inlet {
            receiver,
            pass: other,
        };
        let slip = Slip {
            sender,
            pass,
            ended: false,
        };
        Ok((slip, inlet))
    }

    /// Sends a response.
    pub fn put<R: Wait>(&mut self, rt: &R, response: Response)
        requires lawful { Lawful self.old.first (self.old.put ++ response ∷ []) }
        ensures { self.new ≡ put_on self.old response }
    {
        send_until::<Response, Slate, Answering, Puts, R>(
            rt,
            &self.sender,
            &mut self.pass,
            response,
        );
    }

    /// Notes that the client has ended.
    pub fn end(&mut self)
        ensures { self.new ≡ record self.old { ended = true } }
    {
        self.ended = true;
    }

    pub fn has_ended(&self) -> bool
        ensures { result ≡ self.now.ended }
    {
        self.ended
    }

    /// Takes in the client's end. What it heard is a beginning of what was sent.
    pub fn meet(&mut self, inlet: Inlet)
        requires { (inlet.table ≡ self.old.table) × (inlet.key ≡ self.old.key) }
        ensures same { self.new ≡ self.old }
        ensures heard { (items : List Response) × (self.old.put ≡ inlet.heard ++ items) }
    {
        let Inlet { receiver: _, pass } = inlet;
        self.sender.absorb::<Ends>(&mut self.pass, pass);
        self.sender.learn_as::<Balance>(&mut self.pass);
    }
}
