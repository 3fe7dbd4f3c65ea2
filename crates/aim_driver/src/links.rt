//! Links, on which items are lost, repeated and delayed.

ghost use Rattle.std.specs.Prelude.{◌≡◌, ℕ, ◌+◌, ◌^◌, ◌<◌, ◌≤◌, [], ◌∷◌, ◌++◌, Some, None, length, slice_get, option_map, OnOk, OnErr, IfNone};
ghost use Rattle.std.specs.Option.{ForSome};
ghost use Rattle.aim_driver.specs.declared.links.Sending.{Sending};
ghost use Rattle.aim_driver.specs.Links.{new_link, sent_on, sooner, is_step, next_due, fate_at, earliest, first_at, first_by, item_of, came_again, delivered, after_delivery};

use crate::NoMemory;
use std::alloc::Global;
use std::marker::Model;

/// What becomes of an item that is sent.
#[derive(Clone, Copy)]
pub enum Fate {
    /// It comes after the link's lag.
    Deliver,
    /// It never comes.
    Lose,
    /// It comes twice, the second time a step later.
    Repeat,
    /// It comes so many steps later.
    Delay(u32),
}

/// An item that was sent, and what became of it.
#[derive(Drop)]
pub struct Sending<T> {
    /// The step at which it was sent.
    pub step: u32,
    pub item: T,
    pub fate: Fate,
    /// How often it came.
    pub came: u32,
}

/// A link with a lag, a number of steps. The first item sent on it takes the first of its fates, and so on; behind
/// these all are delivered.
#[derive(Drop)]
pub struct Link<T> {
    lag: u32,
    fates: Vec<Fate>,
    sent: Vec<Sending<T>>,
}

impl<T> Model for Link<T> {
    ghost use Rattle.aim_driver.specs.Links.{LinkModel};

    ghost Value = { LinkModel T };

    ghost view = { λ l. record { lag = l.lag; fates = l.fates.items; sent = l.sent.items } };
}

// When that which comes once, at the step `at`, comes next.
fn once(at: u64, came: u32) -> Option<u64>
    ensures { result ≡ slice_get (at ∷ []) came }
{
    if came == 0 { Some(at) } else { None }
}

// When that which comes twice, at the step `at` and one step later, comes next.
fn twice(at: u64, came: u32) -> Option<u64>
    requires { at ≤ 2 ^ 33 }
    ensures { result ≡ slice_get (at ∷ (at + 1) ∷ []) came }
{
    if came < 2 {
        Some(at + came as u64)
    } else {
        None
    }
}

// The step at which it comes next.
fn due_step<T: Copy>(lag: u32, sending: &Sending<T>) -> Option<u64>
    ensures { result ≡ next_due lag sending.now }
{
    let at = sending.step as u64 + lag as u64;
    match sending.fate {
        Fate::Deliver => once(at, sending.came),
        Fate::Lose => None,
        Fate::Repeat => twice(at, sending.came),
        Fate::Delay(more) => once(at + more as u64, sending.came),
    }
}

fn is_due_at<T: Copy>(lag: u32, sending: &Sending<T>, due: u64) -> bool
    ensures { result ≡ is_step (next_due lag sending.now) due }
{
    match due_step(lag, sending) {
        Some(step) => step == due,
        None => false,
    }
}

fn sooner_of(a: Option<u64>, b: Option<u64>) -> Option<u64>
    ensures { result ≡ sooner a b }
{
    match (a, b) {
        (None, b) => b,
        (a, None) => a,
        (Some(a), Some(b)) => Some(a.min(b)),
    }
}

fn earliest_due<T: Copy>(lag: u32, sent: &[Sending<T>]) -> Option<u64>
    ensures { result ≡ earliest lag sent.now }
{
    let mut least = None;
    for sending in sent {
        least = sooner_of(least, due_step(lag, sending));
    }
    least
}

fn place_of<T: Copy>(lag: u32, sent: &[Sending<T>], due: u64) -> Option<usize>
    ensures { result ≡ first_at lag sent.now due }
{
    sent.iter().position(|sending| is_due_at(lag, sending, due))
}

fn first_due<T: Copy>(lag: u32, sent: &[Sending<T>], step: u32) -> Option<usize>
    ensures { result ≡ first_by lag sent.now step (earliest lag sent.now) }
{
    match earliest_due(lag, sent) {
        Some(due) if due <= step as u64 => place_of(lag, sent, due),
        _ => None,
    }
}

// Puts a sending behind the others.
fn put<T: Copy>(sent: &mut Vec<Sending<T>>, sending: Sending<T>) -> Result<(), NoMemory>
    ensures ok { OnOk result (sent.new.items ≡ sent.old.items ++ sending ∷ []) }
    ensures err { OnErr result (sent.new.items ≡ sent.old.items) }
{
    sent.reserve(1)?;
    sent.push_reserved(sending);
    Ok(())
}

// Notes that the sending of that place came once more, and gives its item.
fn take<T: Copy>(sent: &mut Vec<Sending<T>>, place: usize) -> T
    requires there { (s : Sending T) × (slice_get sent.old.items place ≡ Some s) × (s.came < 2) }
    ensures item { option_map item_of (slice_get sent.old.items place) ≡ Some result }
    ensures sent { sent.new.items ≡ came_again sent.old.items place (slice_get sent.old.items place) }
{
    let sending = &mut sent[place];
    sending.came += 1;
    sending.item
}

impl<T: Copy> Link<T> {
    /// A link on which nothing was sent.
    pub fn new(alloc: Global, lag: u32, fates: Vec<Fate>) -> Link<T>
        ensures { result ≡ new_link lag fates.items }
    {
        Link {
            lag,
            fates,
            sent: Vec::new(alloc),
        }
    }

    // The fate that the next sending takes.
    fn next_fate(&self) -> Fate
        ensures { result ≡ fate_at self.now.fates (length self.now.sent) }
    {
        let place = self.sent.len();
        if place < self.fates.len() {
            self.fates[place]
        } else {
            Fate::Deliver
        }
    }

    /// Sends an item at that step.
    pub fn send(&mut self, step: u32, item: T) -> Result<(), NoMemory>
        ensures ok { OnOk result (self.new ≡ sent_on self.old step item) }
        ensures err { OnErr result (self.new ≡ self.old) }
    {
        let sending = Sending {
            step,
            item,
            fate: self.next_fate(),
            came: 0,
        };
        put(&mut self.sent, sending)
    }

    /// The first item that comes at that step or before it, by the step at which it comes and then by the order of
    /// sending.
    pub fn deliver(&mut self, step: u32) -> Option<T>
        ensures item { result ≡ delivered self.old step }
        ensures link { self.new ≡ after_delivery self.old step }
        ensures none { IfNone result (self.new ≡ self.old) }
    {
        match first_due(self.lag, &self.sent, step) {
            Some(place) => Some(take(&mut self.sent, place)),
            None => None,
        }
    }

    /// Below the step that it gives nothing comes: the step at which something comes next, and the greatest number
    /// where nothing is under way.
    pub fn idle_until(&self) -> u64
        ensures { (s : ℕ) → s < result → delivered self.now s ≡ None }
    {
        match earliest_due(self.lag, &self.sent) {
            Some(due) => due,
            None => u64::MAX,
        }
    }
}
