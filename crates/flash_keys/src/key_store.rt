ghost use Rattle.std.specs.Prelude.{◌≡◌, ℕ, ◌≤◌, length, None, Some, OnOk, IsOk};
ghost use Rattle.flash_keys.specs.Names.{named, SameNames, NamesOnly};
ghost use Rattle.flash_keys.specs.Room.{HasRoom};
ghost use Rattle.flash_keys.specs.Lent.{lent_bytes};

use crate::cell::Cell;
use crate::class::{bytes_in, keep_in, remove_in, reserve_in};
use crate::key_id::{KeyId, id_of};
use slab::Slab;
use std::alloc::{AllocError, Global};
use std::marker::Model;

/// The bytes of keys in eight size classes: cells of 16, 24, 32, 48, 64, 96, 128 and 256 bytes.
#[derive(Drop)]
pub struct KeyStore {
    to_14: Slab<Cell<14>>,
    to_22: Slab<Cell<22>>,
    to_30: Slab<Cell<30>>,
    to_46: Slab<Cell<46>>,
    to_62: Slab<Cell<62>>,
    to_94: Slab<Cell<94>>,
    to_126: Slab<Cell<126>>,
    to_254: Slab<Cell<254>>,
}

impl Model for KeyStore {
    ghost use Rattle.flash_keys.specs.Classes.{Classes};

    ghost Value = { Classes };

    ghost use Rattle.flash_keys.specs.Seen.{classes_of};

    ghost view = { classes_of };
}

impl KeyStore {
    /// A store with no key. It takes no memory.
    #[tactic(auto, unfolding(crate::specs::Names::named))]
    pub fn open(alloc: Global) -> KeyStore
        ensures { (id : ℕ) → named result id ≡ None }
    {
        KeyStore {
            to_14: Slab::new(alloc),
            to_22: Slab::new(alloc),
            to_30: Slab::new(alloc),
            to_46: Slab::new(alloc),
            to_62: Slab::new(alloc),
            to_94: Slab::new(alloc),
            to_126: Slab::new(alloc),
            to_254: Slab::new(alloc),
        }
    }

    /// Takes memory for one key more of any length, or answers that there is none, and then each id names
    /// what it named. Where there was room, it is `Ok`, and room stays.
    #[tactic(auto, unfolding(crate::specs::Names::named))]
    pub fn reserve_one(&mut self) -> Result<(), AllocError>
        ensures room { OnOk result (HasRoom self.new) }
        ensures has_room { HasRoom self.old → IsOk result }
        ensures room_stays { HasRoom self.old → HasRoom self.new }
        ensures kept { SameNames self.old self.new }
    {
        reserve_in(&mut self.to_14)?;
        reserve_in(&mut self.to_22)?;
        reserve_in(&mut self.to_30)?;
        reserve_in(&mut self.to_46)?;
        reserve_in(&mut self.to_62)?;
        reserve_in(&mut self.to_94)?;
        reserve_in(&mut self.to_126)?;
        reserve_in(&mut self.to_254)?;
        Ok(())
    }

    /// Keeps the bytes of a key of at most 254 bytes, where `reserve_one` took the memory, and answers an
    /// id that named nothing before.
    #[tactic(auto, unfolding(crate::specs::Names::named))]
    pub fn keep(&mut self, key: &[u8]) -> KeyId
        requires fits { length key.now ≤ 254 }
        requires room { HasRoom self.old }
        ensures fresh { named self.old result.number ≡ None }
        ensures named { NamesOnly self.old self.new result.number (Some key.now) }
    {
        if key.len() <= 14 {
            return id_of(0, keep_in(&mut self.to_14, Cell::of(key)));
        }
        if key.len() <= 22 {
            return id_of(1, keep_in(&mut self.to_22, Cell::of(key)));
        }
        if key.len() <= 30 {
            return id_of(2, keep_in(&mut self.to_30, Cell::of(key)));
        }
        if key.len() <= 46 {
            return id_of(3, keep_in(&mut self.to_46, Cell::of(key)));
        }
        if key.len() <= 62 {
            return id_of(4, keep_in(&mut self.to_62, Cell::of(key)));
        }
        if key.len() <= 94 {
            return id_of(5, keep_in(&mut self.to_94, Cell::of(key)));
        }
        if key.len() <= 126 {
            return id_of(6, keep_in(&mut self.to_126, Cell::of(key)));
        }
        id_of(7, keep_in(&mut self.to_254, Cell::of(key)))
    }

    /// The bytes that an id names, or `None` where it names nothing.
    #[tactic(auto, unfolding(crate::specs::Names::named))]
    pub fn bytes(&self, id: KeyId) -> Option<&[u8]>
        ensures { lent_bytes result ≡ named self.now id.number }
    {
        let index = id.number % 0x2000_0000;
        match id.number / 0x2000_0000 {
            0 => bytes_in(&self.to_14, index),
            1 => bytes_in(&self.to_22, index),
            2 => bytes_in(&self.to_30, index),
            3 => bytes_in(&self.to_46, index),
            4 => bytes_in(&self.to_62, index),
            5 => bytes_in(&self.to_94, index),
            6 => bytes_in(&self.to_126, index),
            _ => bytes_in(&self.to_254, index),
        }
    }

    /// Gives back what an id names: it names nothing after, and what `reserve_one` took stays taken.
    #[tactic(auto, unfolding(crate::specs::Names::named))]
    pub fn give_back(&mut self, id: KeyId)
        ensures names { NamesOnly self.old self.new id.number None }
        ensures room { HasRoom self.old → HasRoom self.new }
    {
        let index = id.number % 0x2000_0000;
        match id.number / 0x2000_0000 {
            0 => remove_in(&mut self.to_14, index),
            1 => remove_in(&mut self.to_22, index),
            2 => remove_in(&mut self.to_30, index),
            3 => remove_in(&mut self.to_46, index),
            4 => remove_in(&mut self.to_62, index),
            5 => remove_in(&mut self.to_94, index),
            6 => remove_in(&mut self.to_126, index),
            _ => remove_in(&mut self.to_254, index),
        }
    }
}
