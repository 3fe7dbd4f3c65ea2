//! Spans in order, with room for a fixed number, and the sheets that carry them.

ghost use Rattle.std.specs.Prelude.{◌≡◌, ℕ, ◌≢◌, ◌↔◌, ◌+◌, ◌<◌, ◌≤◌, ◌||◌, ◌++◌, ◌∷◌, [], true, false, length, vec_len, vec_capacity, insert, map, slice_set, slice_index_or, All, OnOk, OnErr, IfOk, IfErr, IsErr, is_ok, if◌then◌else◌};
ghost use Rattle.std.specs.List.Sorted.{IsPartitionPoint};
ghost use Rattle.aim_geometry.specs.Cells.{Cell, cell_at};
ghost use Rattle.aim_geometry.specs.Rects.{has_bit};
ghost use Rattle.aim_sheets.specs.Moves.{MayMove, moved};
ghost use Rattle.aim_sheets.specs.Spans.{AreRising, AreMarked, in_span, in_spans, is_at, has_place, precedes};

use crate::NoMemory;
use crate::spans::Span;
use std::alloc::Global;
use std::marker::Model;

/// There is no room for a further span.
#[derive(Clone, Copy)]
pub struct SheetFull;

/// Spans in order, in the room that was made for them.
#[derive(Drop)]
pub(crate) struct Slots {
    held: Vec<Span>,
    room: u32,
}

impl Model for Slots {
    ghost use Rattle.std.specs.Prelude.{◌≤◌, vec_capacity};
    ghost use Rattle.aim_sheets.specs.Sheets.{Spans, IsInOrder};

    ghost Value = { Spans };

    ghost view = { λ s. record { spans = s.held.items; room = s.room } };

    ghost invariant = { λ s. IsInOrder (record { spans = s.held.items; room = s.room }) × (s.room ≤ vec_capacity s.held) };
}

// The place of a step and row among the spans: how many of them come before it.
fn place_of(spans: &[Span], step: u32, row: u8) -> usize
    requires { AreRising spans.now }
    ensures within { result ≤ length spans.now }
    ensures place { IsPartitionPoint (λ span. precedes span step row ≡ true) (λ span. precedes span step row ≡ false) spans.now result }
{
    let count = spans.len();
    if count == 0 {
        return 0;
    }
    let last = spans[count - 1];
    if last.precedes(step, row) {
        return count;
    }
    if last.is_at(step, row) {
        return count - 1;
    }
    spans.partition_point(|span| span.precedes(step, row))
}

// Where the span of a step and row is, or else its place.
fn find(spans: &[Span], step: u32, row: u8) -> Result<usize, usize>
    requires { AreRising spans.now }
    ensures found { IfOk result (λ at. (at < length spans.now) × ((d : Span) → is_at (slice_index_or spans.now at d) step row ≡ true)) }
    ensures none { IfErr result (λ at. (at ≤ length spans.now) × IsPartitionPoint (λ span. precedes span step row ≡ true) (λ span. precedes span step row ≡ false) spans.now at) }
    ensures there { is_ok result ≡ has_place spans.now step row }
{
    let at = place_of(spans, step, row);
    if at == spans.len() {
        return Err(at);
    }
    if spans[at].is_at(step, row) {
        return Ok(at);
    }
    Err(at)
}

// The mask of the span of a step and row, or else 0.
fn mask_of(spans: &[Span], step: u32, row: u8) -> u64
    requires { AreRising spans.now }
    ensures { (column : ℕ) → has_bit result column ≡ in_spans spans.now (cell_at step row column) }
{
    match find(spans, step, row) {
        Ok(at) => spans[at].mask,
        Err(_) => 0,
    }
}

// Moves each span by as much as the second step is later than the first.
fn move_spans(spans: &mut [Span], from: u32, to: u32)
    requires { MayMove from to spans.old }
    ensures { spans.new ≡ map (moved from to) spans.old }
{
    for span in spans.iter_mut() {
        span.step = span.step - from + to;
    }
}

// Moves the spans that are held, and keeps their room.
fn move_held(held: &mut Vec<Span>, from: u32, to: u32)
    requires { MayMove from to held.old.items }
    ensures items { held.new.items ≡ map (moved from to) held.old.items }
    ensures capacity { vec_capacity held.old ≤ vec_capacity held.new }
{
    move_spans(held, from, to);
}

// Puts these spans in place of those that are held, in room that is there.
fn replace(held: &mut Vec<Span>, others: &[Span])
    requires { length others.now ≤ vec_capacity held.old }
    ensures items { held.new.items ≡ others.now }
    ensures capacity { vec_capacity held.old ≤ vec_capacity held.new }
{
    held.clear();
    let Ok(()) = held.extend_from_slice(others) else {
        unreachable!();
    };
}

// Puts these spans in place of those that are held, in room that is there, each as much later as the second step is than
// the first.
fn replace_moved(held: &mut Vec<Span>, others: &[Span], from: u32, to: u32)
    requires room { length others.now ≤ vec_capacity held.old }
    requires reach { MayMove from to others.now }
    ensures items { held.new.items ≡ map (moved from to) others.now }
    ensures capacity { vec_capacity held.old ≤ vec_capacity held.new }
{
    replace(held, others);
    move_held(held, from, to);
}

impl Slots {
    pub(crate) fn new(alloc: Global, room: u32) -> Result<Slots, NoMemory>
        ensures { IfOk result (λ slots. slots ≡ record { spans = []; room = room }) }
    {
        Ok(Slots {
            held: Vec::with_capacity(alloc, room as usize)?,
            room,
        })
    }

    pub(crate) fn room(&self) -> u32
        ensures { result ≡ self.now.room }
    {
        self.room
    }

    pub(crate) fn spans(&self) -> &[Span]
        ensures spans { result.now ≡ self.now.spans }
        ensures rising { AreRising result.now }
        ensures marked { AreMarked result.now }
        ensures fits { length result.now ≤ self.now.room }
    {
        self.held.as_slice()
    }

    pub(crate) fn clear(&mut self)
        ensures { self.new ≡ record self.old { spans = [] } }
    {
        self.held.clear();
    }

    // Has these spans in place of its own.
    pub(crate) fn copy(&mut self, others: &[Span])
        requires rising { AreRising others.now }
        requires marked { AreMarked others.now }
        requires room { length others.now ≤ self.old.room }
        ensures { self.new ≡ record self.old { spans = others.now } }
    {
        replace(&mut self.held, others);
    }

    // Has these spans in place of its own, each as much later as the second step is than the first.
    pub(crate) fn copy_moved(&mut self, others: &[Span], from: u32, to: u32)
        requires rising { AreRising others.now }
        requires marked { AreMarked others.now }
        requires room { length others.now ≤ self.old.room }
        requires reach { MayMove from to others.now }
        ensures { self.new ≡ record self.old { spans = map (moved from to) others.now } }
    {
        replace_moved(&mut self.held, others, from, to);
    }

    // Moves each span by as much as the second step is later than the first.
    pub(crate) fn move_to(&mut self, from: u32, to: u32)
        requires { MayMove from to self.old.spans }
        ensures { self.new ≡ record self.old { spans = map (moved from to) self.old.spans } }
    {
        move_held(&mut self.held, from, to);
    }

    pub(crate) fn push(&mut self, span: Span) -> Result<(), SheetFull>
        requires { span.mask ≢ 0 }
        ensures cells { OnOk result ((cell : Cell) → in_spans self.new.spans cell ≡ (in_spans self.old.spans cell || in_span span cell)) }
        ensures count { OnOk result (length self.new.spans ≡ length self.old.spans + (if has_place self.old.spans span.step span.row then 0 else 1)) }
        ensures last { OnOk result (All (λ held. precedes held span.step span.row ≡ true) self.old.spans → self.new.spans ≡ self.old.spans ++ span ∷ []) }
        ensures full { IsErr result ↔ ((has_place self.old.spans span.step span.row ≡ false) × (length self.old.spans ≡ self.old.room)) }
        ensures err { OnErr result (self.new ≡ self.old) }
        ensures room { self.new.room ≡ self.old.room }
    {
        match find(self.spans(), span.step, span.row) {
            Ok(at) => {
                self.join(at, span);
                Ok(())
            }
            Err(at) => {
                if self.spans().len() == self.room() as usize {
                    return Err(SheetFull);
                }
                self.insert(at, span);
                Ok(())
            }
        }
    }

    // Adds a span behind all others, which come before it.
    #[inline]
    pub(crate) fn push_last(&mut self, span: Span) -> Result<(), SheetFull>
        requires some { span.mask ≢ 0 }
        requires last { All (λ held. precedes held span.step span.row ≡ true) self.old.spans }
        ensures spans { OnOk result (self.new.spans ≡ self.old.spans ++ span ∷ []) }
        ensures full { IsErr result ↔ (length self.old.spans ≡ self.old.room) }
        ensures err { OnErr result (self.new ≡ self.old) }
        ensures room { self.new.room ≡ self.old.room }
    {
        if self.held.len() == self.room as usize {
            return Err(SheetFull);
        }
        self.held.push_reserved(span);
        Ok(())
    }

    // Gives the span at this place, which is of the same step and row, another one's bits too.
    fn join(&mut self, at: usize, span: Span)
        requires in_range { at < length self.old.spans }
        requires same { (d : Span) → is_at (slice_index_or self.old.spans at d) span.step span.row ≡ true }
        ensures cells { (cell : Cell) → in_spans self.new.spans cell ≡ (in_spans self.old.spans cell || in_span span cell) }
        ensures count { length self.new.spans ≡ length self.old.spans }
        ensures room { self.new.room ≡ self.old.room }
    {
        self.held[at].mask |= span.mask;
    }

    // Puts a span that is of none of their steps and rows in its place, in room that is there.
    fn insert(&mut self, at: usize, span: Span)
        requires some { span.mask ≢ 0 }
        requires free { has_place self.old.spans span.step span.row ≡ false }
        requires room { length self.old.spans ≢ self.old.room }
        requires within { at ≤ length self.old.spans }
        requires place { IsPartitionPoint (λ held. precedes held span.step span.row ≡ true) (λ held. precedes held span.step span.row ≡ false) self.old.spans at }
        ensures { self.new ≡ record self.old { spans = insert self.old.spans at span } }
    {
        if at == self.held.len() {
            let Ok(()) = self.held.push(span) else {
                unreachable!();
            };
            return;
        }
        let Ok(()) = self.held.insert(at, span) else {
            unreachable!();
        };
    }
}

/// The spans of a sheet, and the next sheet in the pool.
#[derive(Drop)]
pub(crate) struct Node {
    pub(crate) slots: Slots,
    pub(crate) next: Option<Box<Node>>,
}

/// A list of spans in order, with room for a fixed number of them. The spans rise strictly by step and
/// then by row, so there is at most one of each step and row, and no span's mask is 0.
#[derive(Drop)]
pub struct Sheet {
    pub(crate) node: Box<Node>,
}

impl Model for Sheet {
    ghost use Rattle.aim_sheets.specs.Sheets.{Spans};

    ghost Value = { Spans };

    ghost use Rattle.aim_sheets.specs.Nodes.{slots_of};

    ghost view = { λ s. slots_of s.node.value };
}

impl Sheet {
    /// A sheet of its own with room for so many spans.
    pub(crate) fn new(alloc: Global, room: u32) -> Result<Sheet, NoMemory>
        ensures { IfOk result (λ sheet. sheet ≡ record { spans = []; room = room }) }
    {
        let slots = Slots::new(alloc, room)?;
        Ok(Sheet {
            node: Box::new(alloc, Node { slots, next: None })?,
        })
    }

    /// How many spans there may be.
    pub fn room(&self) -> u32
        ensures { result ≡ self.now.room }
    {
        self.node.slots.room()
    }

    /// The spans, in order of step and row.
    pub fn spans(&self) -> &[Span]
        ensures spans { result.now ≡ self.now.spans }
        ensures rising { AreRising result.now }
        ensures marked { AreMarked result.now }
        ensures fits { length result.now ≤ self.now.room }
    {
        self.node.slots.spans()
    }

    /// The columns of a step's row, one bit each: 0 where there is no span of that step and row.
    pub fn mask(&self, step: u32, row: u8) -> u64
        ensures { (column : ℕ) → has_bit result column ≡ in_spans self.now.spans (cell_at step row column) }
    {
        mask_of(self.node.slots.spans(), step, row)
    }

    /// Takes out all spans, and keeps the room.
    pub fn clear(&mut self)
        ensures { self.new ≡ record self.old { spans = [] } }
    {
        self.node.slots.clear();
    }

    /// Has these spans in place of its own.
    pub fn copy(&mut self, others: &[Span])
        requires rising { AreRising others.now }
        requires marked { AreMarked others.now }
        requires room { length others.now ≤ self.old.room }
        ensures { self.new ≡ record self.old { spans = others.now } }
    {
        self.node.slots.copy(others);
    }

    /// Has these spans in place of its own, each as much later as the second step is than the first.
    pub fn copy_moved(&mut self, others: &[Span], from: u32, to: u32)
        requires rising { AreRising others.now }
        requires marked { AreMarked others.now }
        requires room { length others.now ≤ self.old.room }
        requires reach { MayMove from to others.now }
        ensures { self.new ≡ record self.old { spans = map (moved from to) others.now } }
    {
        self.node.slots.copy_moved(others, from, to);
    }

    /// Moves each span by as much as the second step is later than the first.
    pub fn move_to(&mut self, from: u32, to: u32)
        requires { MayMove from to self.old.spans }
        ensures { self.new ≡ record self.old { spans = map (moved from to) self.old.spans } }
    {
        self.node.slots.move_to(from, to);
    }

    /// Adds the span's cells: to the mask of the span of that step and row, or else as a span of its
    /// own in its place. Behind the last span that costs no search.
    pub fn push(&mut self, span: Span) -> Result<(), SheetFull>
        requires { span.mask ≢ 0 }
        ensures cells { OnOk result ((cell : Cell) → in_spans self.new.spans cell ≡ (in_spans self.old.spans cell || in_span span cell)) }
        ensures count { OnOk result (length self.new.spans ≡ length self.old.spans + (if has_place self.old.spans span.step span.row then 0 else 1)) }
        ensures last { OnOk result (All (λ held. precedes held span.step span.row ≡ true) self.old.spans → self.new.spans ≡ self.old.spans ++ span ∷ []) }
        ensures full { IsErr result ↔ ((has_place self.old.spans span.step span.row ≡ false) × (length self.old.spans ≡ self.old.room)) }
        ensures err { OnErr result (self.new ≡ self.old) }
        ensures room { self.new.room ≡ self.old.room }
    {
        self.node.slots.push(span)
    }

    /// Adds a span behind all others, which come before it. It costs no search.
    #[inline]
    pub fn push_last(&mut self, span: Span) -> Result<(), SheetFull>
        requires some { span.mask ≢ 0 }
        requires last { All (λ held. precedes held span.step span.row ≡ true) self.old.spans }
        ensures spans { OnOk result (self.new.spans ≡ self.old.spans ++ span ∷ []) }
        ensures full { IsErr result ↔ (length self.old.spans ≡ self.old.room) }
        ensures err { OnErr result (self.new ≡ self.old) }
        ensures room { self.new.room ≡ self.old.room }
    {
        self.node.slots.push_last(span)
    }
}
