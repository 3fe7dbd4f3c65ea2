//! A mailbox is opened.
ghost use Rattle.std.specs.Prelude.{◌≡◌, ◌↔◌, ◌⊎◌, ℕ, ◌<◌, ◌≤◌, [], length, slice_index_or, vec_capacity, IfOk, Err, Some};
ghost use Rattle.aim_messages.specs.declared.entries.TheConstants.{MOST_ENTRIES, MOST_VEHICLES};
ghost use Rattle.aim_rules.specs.Legal.{IsLegal};
ghost use Rattle.aim_mail.specs.Calls.{ClientModel, IsNewClient};
ghost use Rattle.aim_mail.specs.Post.{hired};
ghost use Rattle.aim_mail.specs.Mail.{HasSpans, IsNewSlip, IsStaffed, channel_of, letters_of, setting_of};

use crate::client::Client;
use crate::response::Response;
use crate::server::{Desk, Server, spans_of};
use crate::slip::Slip;
use crate::{Intake, MailSetting};
use aim_book::{Book, Full, OpenFault};
use aim_layout::Layout;
use aim_sheets::Pool;
use aim_tiles::Steps;
use std::alloc::{AllocError, Global};
use std::sync::Wait;
use std::sync::ledger::{Blank, Ledger};

/// A server, and a client for each vehicle, in the order of their numbers.
pub struct OpenedMail<L: Ledger> {
    pub server: Server<L>,
    pub clients: Vec<Client>,
}

/// Where mailboxes are opened.
pub struct Mailbox;

// The ends of the channels of a mailbox, but for those that the clients have.
#[derive(Drop)]
struct Staff {
    intake: Intake,
    slips: Vec<Slip>,
    clients: Vec<Client>,
}

// The client of the next vehicle, with the slip on which it is answered.
fn hire<R: Wait>(
    rt: &R,
    alloc: Global,
    intake: &mut Intake,
    vehicle: u32,
    spans: u32,
) -> Result<(Slip, Client), AllocError>
    requires next { vehicle ≡ intake.old.made }
    requires spans { HasSpans intake.old.setting spans }
    ensures intake { IfOk result (λ _. intake.new ≡ hired intake.old) }
    ensures slip { IfOk result (λ r. IsNewSlip vehicle (letters_of intake.old) spans r.0) }
    ensures client { IfOk result (λ r. r.1 ≡ record { asks_on = letters_of intake.old; hears_on = channel_of r.0; setting = intake.old.setting; vehicle = vehicle; calls = []; kept = 0 }) }
{
    let port = intake.hire(vehicle)?;
    let first = Response {
        to: vehicle,
        answer: Err(Full),
        sheets: Pool::empty(spans),
        kept: 0,
        note: intake.note(),
    };
    match Slip::open(rt, alloc, first) {
        Ok((slip, inlet)) => Ok((slip, Client::new(port, inlet))),
        Err(error) => {
            drop(port);
            Err(error)
        }
    }
}

// The channel of the requests of a mailbox for the book.
fn opened_intake<L: Ledger, R: Wait>(
    rt: &R,
    alloc: Global,
    book: &Book<L>,
    room: u32,
) -> Result<Intake, AllocError>
    requires vehicles { 0 < book.now.vehicles }
    requires room { room ≡ book.now.room }
    ensures { IfOk result (λ i. (i.setting ≡ Some (setting_of book.now)) × (i.got ≡ []) × (i.made ≡ 0) × (i.known ≡ [])) }
{
    let vehicles = book.vehicles();
    let setting = MailSetting {
        layout: book.layout().copy()?,
        vehicles,
        room,
    };
    Intake::open(rt, alloc, vehicles as usize, setting)
}

// The same, with room for the clients, of whom there is none yet.
fn unstaffed<L: Ledger, R: Wait>(
    rt: &R,
    alloc: Global,
    book: &Book<L>,
    room: u32,
) -> Result<Staff, AllocError>
    requires vehicles { 0 < book.now.vehicles }
    requires room { room ≡ book.now.room }
    ensures { IfOk result (λ m. IsStaffed (setting_of book.now) 0 m.intake m.slips.items m.clients.items × (book.now.vehicles ≤ vec_capacity m.slips) × (book.now.vehicles ≤ vec_capacity m.clients)) }
{
    let vehicles = book.vehicles() as usize;
    let slips = Vec::with_capacity(alloc, vehicles)?;
    let clients = Vec::with_capacity(alloc, vehicles)?;
    let intake = opened_intake(rt, alloc, book, room)?;
    Ok(Staff {
        intake,
        slips,
        clients,
    })
}

// Makes a client for each vehicle.
fn hire_all<L: Ledger, R: Wait>(
    rt: &R,
    alloc: Global,
    book: &Book<L>,
    staff: &mut Staff,
) -> Result<(), AllocError>
    requires none { IsStaffed (setting_of book.now) 0 staff.old.intake staff.old.slips.items staff.old.clients.items }
    requires room { (book.now.vehicles ≤ vec_capacity staff.old.slips) × (book.now.vehicles ≤ vec_capacity staff.old.clients) }
    ensures { IfOk result (λ _. IsStaffed (setting_of book.now) book.now.vehicles staff.new.intake staff.new.slips.items staff.new.clients.items) }
{
    let vehicles = book.vehicles();
    let spans = spans_of(book.layout());
    for vehicle in 0..vehicles {
        let (slip, client) = hire(rt, alloc, &mut staff.intake, vehicle, spans)?;
        staff.slips.push_reserved(slip);
        staff.clients.push_reserved(client);
    }
    Ok(())
}

// The channels of a mailbox for the book, with a client for each vehicle.
fn staffed<L: Ledger, R: Wait>(
    rt: &R,
    alloc: Global,
    book: &Book<L>,
    room: u32,
) -> Result<Staff, AllocError>
    requires vehicles { 0 < book.now.vehicles }
    requires room { room ≡ book.now.room }
    ensures { IfOk result (λ m. IsStaffed (setting_of book.now) book.now.vehicles m.intake m.slips.items m.clients.items) }
{
    let mut staff = unstaffed(rt, alloc, book, room)?;
    match hire_all(rt, alloc, book, &mut staff) {
        Ok(()) => Ok(staff),
        Err(error) => {
            drop(staff);
            Err(error)
        }
    }
}

// A server at the desk, with the clients.
fn employed<L: Ledger>(desk: Desk<L>, staff: Staff) -> OpenedMail<L>
    requires book { (desk.book.journal ≡ []) × IsLegal desk.book.layout desk.book.vehicles desk.book.journal × (desk.book.vehicles ≤ MOST_VEHICLES) }
    requires staff { IsStaffed (setting_of desk.book) desk.book.vehicles staff.intake staff.slips.items staff.clients.items }
    ensures server { result.server.setting ≡ setting_of desk.book }
    ensures count { length result.clients.items ≡ desk.book.vehicles }
    ensures clients { (k : ℕ) (d : ClientModel) → k < desk.book.vehicles → IsNewClient result.server k (slice_index_or result.clients.items k d) }
{
    let Staff {
        intake,
        slips,
        clients,
    } = staff;
    OpenedMail {
        server: Server::new(desk, intake, slips),
        clients,
    }
}

impl Mailbox {
    /// A mailbox with an empty journal, for that many vehicles and that many entries. It takes all its memory here, and may
    /// wait, since its first letters go through the channels.
    pub fn open<L: Ledger, R: Wait>(
        rt: &R,
        alloc: Global,
        layout: Layout,
        vehicles: u32,
        room: u32,
        blank: Blank,
    ) -> Result<OpenedMail<L>, OpenFault>
        requires name { blank.name ≡ L.name }
        requires parts { blank.parts ≡ L.parts }
        requires some { 0 < blank.parts }
        ensures server { IfOk result (λ m. m.server.setting ≡ record { layout = layout; vehicles = vehicles; room = room }) }
        ensures count { IfOk result (λ m. length m.clients.items ≡ vehicles) }
        ensures clients { IfOk result (λ m. (k : ℕ) (d : ClientModel) → k < vehicles → IsNewClient m.server k (slice_index_or m.clients.items k d)) }
        ensures vehicles { (result ≡ Err OpenFault.Vehicles) ↔ ((vehicles ≡ 0) ⊎ (MOST_VEHICLES < vehicles)) }
        ensures room { (result ≡ Err OpenFault.Room) ↔ ((0 < vehicles) × (vehicles ≤ MOST_VEHICLES) × ((room ≡ 0) ⊎ (MOST_ENTRIES < room))) }
    {
        let book = Book::open(alloc, layout, vehicles, room)?;
        match staffed(rt, alloc, &book, room) {
            Ok(staff) => {
                let steps = Steps::new(blank);
                Ok(employed(Desk { book, steps }, staff))
            }
            Err(AllocError) => {
                book.into_journal();
                Err(OpenFault::NoMemory)
            }
        }
    }
}
