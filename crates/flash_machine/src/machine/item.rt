ghost use Rattle.std.specs.Prelude.{◌≡◌, ◌<◌, ◌^◌, IfOk};
ghost use Rattle.flash_machine.specs.Load.{bytes_here};

use flash_names::{Blob, Label};
use std::alloc::AllocError;
use std::marker::Model;
use std::rc::Rc;

// What the cache has under a key. Copies of it share its value.
#[derive(Drop)]
pub struct Item {
    pub value: Rc<Blob>,
    pub flags: u32,
    pub cas: u64,
    pub deadline: Option<u64>,
    pub fetched: bool,
    pub access: u64,
    pub label: Option<Label>,
}

impl Model for Item {
    ghost use Rattle.flash_machine.specs.Item as spec;
    ghost use Rattle.flash_machine.specs.Codes.{item_code};

    ghost Value = { spec.Item };

    ghost coded = { item_code };

    ghost view = { λ i. record {
      value = i.value.value;
      flags = i.flags;
      cas = i.cas;
      deadline = i.deadline;
      fetched = i.fetched;
      access = i.access;
      label = i.label;
    } };
}

impl Item {
    // The same item, which shares its value.
    pub fn share(&self) -> Result<Item, AllocError>
        ensures { IfOk result (λ item. item ≡ self.now) }
    {
        Ok(Item {
            value: self.value.clone()?,
            flags: self.flags,
            cas: self.cas,
            deadline: self.deadline,
            fetched: self.fetched,
            access: self.access,
            label: self.label,
        })
    }

    pub fn cas(&self) -> u64
        ensures { result ≡ self.now.cas }
    {
        self.cas
    }

    pub fn flags(&self) -> u32
        ensures { result ≡ self.now.flags }
    {
        self.flags
    }

    pub fn value(&self) -> &[u8]
        ensures { result.now ≡ self.now.value }
    {
        self.value.bytes()
    }

    // The bytes of its value that are in memory.
    pub fn bytes_here(&self) -> usize
        ensures same { result ≡ bytes_here self.now }
        ensures small { result < 2 ^ 63 }
    {
        match self.label {
            None => self.value().len(),
            Some(_) => 0,
        }
    }
}
