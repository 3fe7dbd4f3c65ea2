//! The channel from all clients to the server.
ghost use Rattle.std.specs.Prelude.{◌≡◌, ◌<◌, ◌+◌, ◌++◌, [], ◌∷◌, None, IfOk, Some};
ghost use Rattle.crossbeam_channel.specs.Claims.{view, IsSeatAt};
ghost use Rattle.crossbeam_channel.specs.Ends.{sends_on, receives_on};
ghost use Rattle.aim_mail.specs.Post.{client, client_at, reader, note, heeded, Begun, NoteModel, sent_more, got_more, IntakeModel, PortModel, posted, received, hired, new_port, took_in, Settled, IsFor, told, telling};

use crate::letter::{Letter, MailSetting, Word};
use crate::waits::{pass_over, receive_until, send_until};
use crossbeam_channel::protocol::{Join, Lesson, Outcome, Protocol, Split};
use crossbeam_channel::{Pass, RuledReceiver, RuledSender, bounded_with};
use std::alloc::{AllocError, Global};
use std::collections::LinkedList;
use std::marker::Model;
use std::sync::Wait;

/// What a pass of the channel knows. It stands in contracts alone, and no value of it is made.
pub struct Hand {
    /// Whether the setting was told, and whether it was heard.
    pub told: bool,
    pub ready: bool,
    /// The setting of the mailbox.
    pub setting: Option<MailSetting>,
    /// Whose letters it may send.
    pub from: Option<u32>,
    /// All that were sent of these.
    pub sent: LinkedList<Letter>,
    /// Whether it may receive.
    pub gets: bool,
    /// All that were received.
    pub got: LinkedList<Letter>,
    /// How many clients were made.
    pub made: u32,
    /// The clients that ended, each with all that it sent.
    pub known: LinkedList<(u32, LinkedList<Letter>)>,
}

/// The rule of the channel.
pub struct InOrder;

impl Protocol<Letter, Hand> for InOrder {
    ghost use Rattle.aim_mail.specs.Post.{Posted, blank};

    ghost holds = { Posted };

    ghost first = { blank };
}

/// Makes the next client's pass.
pub struct Hire;

impl Split<Hand> for Hire {
    ghost use Rattle.std.specs.Prelude.{[], ◌+◌};
    ghost use Rattle.aim_mail.specs.Post.{client, reader};

    ghost left = { λ v. reader v.setting v.got (v.made + 1) v.known };

    ghost right = { λ v. client v.setting v.made [] };
}

/// Takes in the pass of a client that ended.
pub struct TakeIn;

impl Join<Hand> for TakeIn {
    ghost use Rattle.aim_mail.specs.Post.{taken_in, nobody};

    ghost both = { taken_in };

    ghost spent = { nobody };
}

/// A letter was sent.
pub struct Sends;

impl Outcome<Letter, Hand> for Sends {
    ghost then = { λ v x w. w ≡ sent_more v x };
}

impl Lesson<Letter, Hand> for Sends {
    ghost use Rattle.std.specs.Prelude.{⊤};

    ghost fact = { λ v items. ⊤ };
}

/// A letter was received. It is of a client that was made.
pub struct Gets;

impl Outcome<Letter, Hand> for Gets {
    ghost then = { λ v x w. (w ≡ got_more v x) × (x.from < v.made) × IsFor v.setting x.word };
}

impl Lesson<Letter, Hand> for Gets {
    ghost use Rattle.std.specs.Prelude.{⊤};

    ghost fact = { λ v items. ⊤ };
}

/// Notes what was received.
pub struct TakeNote;

impl Split<Hand> for TakeNote {
    ghost use Rattle.aim_mail.specs.Post.{note};

    ghost left = { λ v. v };

    ghost right = { λ v. note v.setting v.got };
}

impl Join<Hand> for TakeNote {
    ghost use Rattle.aim_mail.specs.Post.{heeded, nobody};

    ghost both = { heeded };

    ghost spent = { nobody };
}

/// What was received of a client is a beginning of what it sent.
pub struct Compares;

impl Lesson<Letter, Hand> for Compares {
    ghost fact = { λ v items. Begun v.from v.sent v.got };
}

/// The setting was told.
pub struct Tells;

impl Outcome<Letter, Hand> for Tells {
    ghost then = { λ v x w. w ≡ telling (told x.word) };
}

impl Lesson<Letter, Hand> for Tells {
    ghost use Rattle.std.specs.Prelude.{⊤};

    ghost fact = { λ v items. ⊤ };
}

/// The setting was heard.
pub struct HearsOpening;

impl Outcome<Letter, Hand> for HearsOpening {
    ghost then = { λ v x w. w ≡ reader v.setting [] 0 [] };
}

impl Lesson<Letter, Hand> for HearsOpening {
    ghost use Rattle.std.specs.Prelude.{⊤};

    ghost fact = { λ v items. ⊤ };
}

/// What the clients that ended had sent.
pub struct Settles;

impl Lesson<Letter, Hand> for Settles {
    ghost fact = { λ v items. Settled v.got v.known items };
}

type PostSender = RuledSender<Letter, Hand, InOrder>;

type PostReceiver = RuledReceiver<Letter, Hand, InOrder>;

type PostPass = Pass<Letter, Hand>;

// Hears the setting.
fn hear_opening<R: Wait>(rt: &R, receiver: &PostReceiver, pass: &mut PostPass)
    requires seat { IsSeatAt (receives_on receiver.now) pass.old }
    requires told { view pass.old ≡ telling (view pass.old).setting }
    ensures seat { IsSeatAt (receives_on receiver.now) pass.new }
    ensures heard { view pass.new ≡ reader (view pass.old).setting [] 0 [] }
{
    pass_over::<Letter, Hand, InOrder, HearsOpening, R>(rt, receiver, pass);
}

// Sends a letter.
fn send<R: Wait>(rt: &R, sender: &PostSender, pass: &mut PostPass, letter: Letter)
    requires seat { IsSeatAt (sends_on sender.now) pass.old }
    requires client { view pass.old ≡ client_at (view pass.old).setting letter.from (view pass.old).sent (view pass.old).got }
    requires word { IsFor (view pass.old).setting letter.word }
    ensures seat { IsSeatAt (sends_on sender.now) pass.new }
    ensures sent { view pass.new ≡ client_at (view pass.old).setting letter.from ((view pass.old).sent ++ letter ∷ []) (view pass.old).got }
{
    send_until::<Letter, Hand, InOrder, Sends, R>(rt, sender, pass, letter);
}

/// A client's end.
#[derive(Drop)]
pub struct Port {
    from: u32,
    sender: PostSender,
    pass: PostPass,
}

impl Model for Port {
    ghost use Rattle.std.specs.Prelude.{◌≡◌};
    ghost use Rattle.crossbeam_channel.specs.Claims.{IsSeatAt};
    ghost use Rattle.crossbeam_channel.specs.Ends.{sends_on};
    ghost use Rattle.aim_mail.specs.Post.{client_at, PortModel};

    ghost Value = { PortModel };

    ghost view = { λ p. record { table = p.pass.table_id; key = p.pass.me.0.of; setting = p.pass.me.0.client.setting; from = p.from; sent = p.pass.me.0.client.sent } };

    ghost invariant = { λ p. IsSeatAt (sends_on p.sender) p.pass × (p.pass.me.0.client ≡ client_at p.pass.me.0.client.setting p.from p.pass.me.0.client.sent p.pass.me.0.client.got) };
}

impl Port {
    /// The client's number.
    pub fn from(&self) -> u32
        ensures { result ≡ self.now.from }
    {
        self.from
    }

    /// Sends a letter.
    pub fn send<R: Wait>(&mut self, rt: &R, letter: Letter)
        requires own { letter.from ≡ self.old.from }
        requires word { IsFor self.old.setting letter.word }
        ensures { self.new ≡ posted self.old letter }
    {
        send(rt, &self.sender, &mut self.pass, letter);
    }

    /// What the note says was received of this client is a beginning of what it sent.
    pub fn heed(&mut self, note: MailNote)
        requires { (note.table ≡ self.old.table) × (note.key ≡ self.old.key) }
        ensures same { self.new ≡ self.old }
        ensures begun { Begun (Some self.old.from) self.old.sent note.got }
    {
        let MailNote { pass } = note;
        self.sender.absorb::<TakeNote>(&mut self.pass, pass);
        self.sender.learn_as::<Compares>(&mut self.pass);
    }
}

/// A note of what the server had received. It has no bytes.
#[derive(Drop)]
pub struct MailNote {
    pass: PostPass,
}

impl Model for MailNote {
    ghost use Rattle.std.specs.Prelude.{◌≡◌, []};
    ghost use Rattle.aim_mail.specs.Post.{note, NoteModel};

    ghost Value = { NoteModel };

    ghost view = { λ n. record { table = n.pass.table_id; key = n.pass.me.0.of; setting = n.pass.me.0.client.setting; got = n.pass.me.0.client.got } };

    ghost invariant = { λ n. (n.pass.me.1 ≡ []) × (n.pass.me.0.client ≡ note n.pass.me.0.client.setting n.pass.me.0.client.got) };
}

/// The server's end. It has a sender of its own, since only a sender makes passes and takes them in.
#[derive(Drop)]
pub struct Intake {
    sender: PostSender,
    receiver: PostReceiver,
    pass: PostPass,
}

impl Model for Intake {
    ghost use Rattle.std.specs.Prelude.{◌≡◌};
    ghost use Rattle.crossbeam_channel.specs.Claims.{IsSeatAt};
    ghost use Rattle.crossbeam_channel.specs.Ends.{sends_on, receives_on};
    ghost use Rattle.aim_mail.specs.Post.{reader, IntakeModel};

    ghost Value = { IntakeModel };

    ghost view = { λ p. record { table = p.pass.table_id; key = p.pass.me.0.of; setting = p.pass.me.0.client.setting; got = p.pass.me.0.client.got; made = p.pass.me.0.client.made; known = p.pass.me.0.client.known } };

    ghost invariant = { λ p. IsSeatAt (sends_on p.sender) p.pass × (receives_on p.receiver ≡ sends_on p.sender) × (p.pass.me.0.client ≡ reader p.pass.me.0.client.setting p.pass.me.0.client.got p.pass.me.0.client.made p.pass.me.0.client.known) };
}

impl Intake {
    /// A channel for so many letters at once, with no client yet.
    pub fn open<R: Wait>(
        rt: &R,
        alloc: Global,
        capacity: usize,
        setting: MailSetting,
    ) -> Result<Intake, AllocError>
        requires { 0 < capacity }
        ensures { IfOk result (λ i. (i.setting ≡ Some setting) × (i.got ≡ []) × (i.made ≡ 0) × (i.known ≡ [])) }
    {
        let Ok((sender, receiver, mut pass)) = bounded_with::<Letter, Hand, InOrder, Global>(
            alloc, capacity,
        ) else {
            drop(setting);
            return Err(AllocError);
        };
        let letter = Letter {
            from: 0,
            word: Word::Opening(setting),
        };
        send_until::<Letter, Hand, InOrder, Tells, R>(rt, &sender, &mut pass, letter);
        hear_opening(rt, &receiver, &mut pass);
        Ok(Intake {
            sender,
            receiver,
            pass,
        })
    }

    /// The end of the next client, whose number is `from`.
    pub fn hire(&mut self, from: u32) -> Result<Port, AllocError>
        requires { from ≡ self.old.made }
        ensures port { IfOk result (λ p. p ≡ new_port self.old) }
        ensures hired { IfOk result (λ p. self.new ≡ hired self.old) }
    {
        let sender = self.sender.try_clone()?;
        let pass = self.sender.another::<Hire>(&mut self.pass);
        Ok(Port { from, sender, pass })
    }

    /// The next letter. It is of a client that was made.
    pub fn receive<R: Wait>(&mut self, rt: &R) -> Letter
        ensures got { self.new ≡ received self.old result }
        ensures from { result.from < self.old.made }
        ensures word { IsFor self.old.setting result.word }
    {
        receive_until::<Letter, Hand, InOrder, Gets, R>(rt, &self.receiver, &mut self.pass)
    }

    /// A note of what was received.
    pub fn note(&mut self) -> MailNote
        ensures same { self.new ≡ self.old }
        ensures note { result ≡ record { table = self.old.table; key = self.old.key; setting = self.old.setting; got = self.old.got } }
    {
        MailNote {
            pass: self.sender.another::<TakeNote>(&mut self.pass),
        }
    }

    /// Takes in the end of a client.
    pub fn take_in(&mut self, port: Port)
        requires { (port.table ≡ self.old.table) × (port.key ≡ self.old.key) }
        ensures { self.new ≡ took_in self.old port }
    {
        let Port {
            from: _,
            sender: _,
            pass,
        } = port;
        self.sender.absorb::<TakeIn>(&mut self.pass, pass);
    }

    /// What was received is a beginning of what those clients sent that were taken in.
    pub fn settled(&mut self)
        ensures { (items : _) × Settled self.old.got self.old.known items }
    {
        self.sender.learn_as::<Settles>(&mut self.pass);
    }
}
