//! The names of policies.

use aim_messages::Name;
use indexmap::IndexSet;
use std::alloc::{AllocError as NoMemory, Global};
use std::marker::Model;

// A name as the set keeps it.
#[derive(Clone, Copy, PartialEq, Eq, Hash)]
struct Key {
    bytes: [u8; 16],
    len: u8,
}

/// The names of policies, each once, in the order of their numbers.
#[derive(Drop)]
pub struct Names {
    keys: IndexSet<Key>,
}

impl Model for Names {
    ghost use Rattle.std.specs.Prelude.{ℕ, List, map};
    ghost use Rattle.aim_script.specs.Names.{ArePadded, key_word};

    ghost Value = { List (List ℕ) };

    ghost view = { λ n. map key_word n.keys.keys };

    ghost invariant = { λ n. ArePadded n.keys.keys };
}

impl Names {
    ghost use Rattle.std.specs.Prelude.{◌≡◌, ◌++◌, ◌∷◌, [], not, true, position, bytes_eq, IfOk};
    ghost use Rattle.std.specs.List.{list_any};
    ghost use Rattle.aim_messages.specs.Lines.{IsName, name_word};

    /// No name yet.
    pub fn new(alloc: Global) -> Names
        ensures { result ≡ [] }
    {
        Names {
            keys: IndexSet::new(alloc),
        }
    }

    /// Gives a new name the next number, and says whether it is new.
    pub fn declare(&mut self, name: &Name) -> Result<bool, NoMemory>
        requires { IsName name.now }
        ensures new { IfOk result (λ is_new. is_new ≡ not (list_any (bytes_eq (name_word name.now)) self.old)) }
        ensures added { IfOk result (λ is_new. is_new ≡ true → self.new ≡ self.old ++ name_word name.now ∷ []) }
    {
        let key = Key {
            bytes: name.bytes,
            len: name.len,
        };
        let (_number, is_new) = self.keys.insert_full(key)?;
        Ok(is_new)
    }

    /// The number of a name, if it was given.
    pub fn number(&self, name: &Name) -> Option<usize>
        requires { IsName name.now }
        ensures { result ≡ position (bytes_eq (name_word name.now)) self.now }
    {
        let key = Key {
            bytes: name.bytes,
            len: name.len,
        };
        self.keys.get_index_of(&key)
    }
}
