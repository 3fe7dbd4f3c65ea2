//! Sheets that are not in use.

ghost use Rattle.std.specs.Prelude.{◌≡◌, ◌↔◌, ◌+◌, ◌-◌, ◌<◌, [], OnOk, OnErr, IfOk, IsErr};

use crate::NoMemory;
use crate::sheets::{Node, Sheet};
use std::alloc::Global;
use std::marker::Model;

/// There is no sheet in the pool.
#[derive(Clone, Copy, Debug)]
pub struct NoSheet;

/// Sheets with one room, each linked to the next one. None has a span.
pub struct Pool {
    first: Option<Box<Node>>,
    count: u32,
    room: u32,
}

impl Model for Pool {
    ghost use Rattle.std.specs.Prelude.{◌≡◌};
    ghost use Rattle.aim_sheets.specs.Pools.{Stock};

    ghost Value = { Stock };

    ghost use Rattle.aim_sheets.specs.Nodes.{head_count, IsEmptyHead};

    ghost view = { λ p. record { count = p.count; room = p.room } };

    ghost invariant = { λ p. (p.count ≡ head_count p.first) × IsEmptyHead p.room p.first };
}

impl Pool {
    /// A pool of so many sheets with room for so many spans each. It makes all of their room.
    pub fn new(alloc: Global, sheets: u32, spans: u32) -> Result<Pool, NoMemory>
        ensures { IfOk result (λ pool. pool ≡ record { count = sheets; room = spans }) }
    {
        let mut pool = Pool::empty(spans);
        for _ in 0..sheets {
            pool.give(Sheet::new(alloc, spans)?);
        }
        Ok(pool)
    }

    /// A pool of this room with no sheet in it.
    pub fn empty(spans: u32) -> Pool
        ensures { result ≡ record { count = 0; room = spans } }
    {
        Pool {
            first: None,
            count: 0,
            room: spans,
        }
    }

    /// How many sheets are in.
    pub fn count(&self) -> u32
        ensures { result ≡ self.now.count }
    {
        self.count
    }

    /// The room of each sheet.
    pub fn room(&self) -> u32
        ensures { result ≡ self.now.room }
    {
        self.room
    }

    /// Takes a sheet out, with the pool's room and no span.
    pub fn take(&mut self) -> Result<Sheet, NoSheet>
        ensures sheet { IfOk result (λ sheet. sheet ≡ record { spans = []; room = self.old.room }) }
        ensures ok { OnOk result (self.new ≡ record self.old { count = self.old.count - 1 }) }
        ensures none { IsErr result ↔ (self.old.count ≡ 0) }
        ensures err { OnErr result (self.new ≡ self.old) }
    {
        match self.first.take() {
            None => Err(NoSheet),
            Some(mut node) => {
                self.first = node.next.take();
                self.count -= 1;
                Ok(Sheet { node })
            }
        }
    }

    /// Puts a sheet in, without its spans.
    pub fn give(&mut self, sheet: Sheet)
        requires few { self.old.count < 4294967295 }
        requires room { sheet.room ≡ self.old.room }
        ensures { self.new ≡ record self.old { count = self.old.count + 1 } }
    {
        let Sheet { mut node } = sheet;
        node.slots.clear();
        node.next = self.first.take();
        self.first = Some(node);
        self.count += 1;
    }
}

impl Drop for Pool {
    // One sheet after the other: a derived drop would go down all links at once.
    fn drop(self) {
        let Pool {
            first,
            count: _,
            room: _,
        } = self;
        let mut link = first;
        while let Some(node) = link {
            let Node { slots: _, next } = Box::into_inner(node);
            link = next;
        }
    }
}
