ghost use Rattle.std.specs.Prelude.{◌≡◌, None, IfOk};

use super::{Times, VALUE_LEN};
use crate::keys::{key_bytes, visited};
use crate::timing::nanos_since;
use flash_calls::Found;
use flash_core::Core;
use flash_entry::{Counted, Look, Mode, Put};
use flash_names::{Blob, Geometry, Id, Key};
use std::alloc::{AllocError, Global};
use std::io;
use std::time::Instant;

// A store that holds all that is measured.
const GEOMETRY: Geometry = Geometry {
    memory: 4_294_967_296,
    item_size: 512,
    item_max: 1_047_552,
    pages: 64,
    page_size: 4_194_304,
    buffer_size: 1_048_576,
    buffers: 8,
    compact_under: 16,
    drop_under: 4,
    max_frag: 80,
    recache: 2000,
};

const ID: Id = Id { pass: 1, seq: 1 };

const LOOK: Look = Look {
    value: true,
    renew: None,
};

// A store whose journal tells nothing, and the value that is set.
#[derive(Drop)]
struct Store {
    core: Core<Counted>,
    value: Option<Blob>,
    ghost quiet: { core.told ≡ None },
}

/// What gets and sets of so many items, each so often, took in the store.
pub fn times(rt: &HostRuntime, items: u64, rounds: u64) -> io::Result<Times> {
    let alloc = rt.alloc();
    let mut store = Store::open(alloc)?;
    for number in 0..items {
        store.set(alloc, number)?;
    }
    let calls = items.saturating_mul(rounds);
    let (get, bytes) = time_gets(rt, &mut store, items, calls)?;
    let set = time_sets(rt, &mut store, items, calls)?;
    Ok(Times { get, set, bytes })
}

// The nanoseconds, and how many bytes were got.
fn time_gets(
    rt: &HostRuntime,
    store: &mut Store,
    items: u64,
    calls: u64,
) -> io::Result<(u64, u64)> {
    let start = Instant::now(rt)?;
    let mut bytes = 0u64;
    for turn in 0..calls {
        bytes = bytes.wrapping_add(store.get(rt.alloc(), visited(turn, items))?);
    }
    Ok((nanos_since(rt, start)?, bytes))
}

fn time_sets(rt: &HostRuntime, store: &mut Store, items: u64, calls: u64) -> io::Result<u64> {
    let start = Instant::now(rt)?;
    for turn in 0..calls {
        store.set(rt.alloc(), visited(turn, items))?;
    }
    nanos_since(rt, start)
}

impl Store {
    fn open(alloc: Global) -> Result<Store, AllocError> {
        let value = Blob::from_slice(alloc, &[b'v'; VALUE_LEN])?;
        let Ok(core) = Core::open(alloc, GEOMETRY, Counted::new()) else {
            return Err(AllocError);
        };
        Ok(Store {
            core,
            value: Some(value),
        })
    }

    // Stores the value under the key of a number. The store copies it.
    fn set(&mut self, alloc: Global, number: u64) -> Result<(), AllocError> {
        let (Some(key), Some(value)) = (Key::from_bytes(&key_bytes(number)), self.value.take())
        else {
            return Ok(());
        };
        let put = Put {
            key,
            mode: Mode::Set,
            flags: 0,
            exptime: 0,
            compare: None,
            value,
        };
        self.core.store(alloc, ID, &put)?;
        self.value = Some(put.value);
        Ok(())
    }

    // How many bytes the copied value of a number's key has.
    fn get(&mut self, alloc: Global, number: u64) -> Result<u64, AllocError> {
        let Some(key) = Key::from_bytes(&key_bytes(number)) else {
            return Ok(0);
        };
        match self.core.look(alloc, ID, &key, LOOK)? {
            Found::Here(hit) => Ok(hit.value.bytes().len() as u64),
            _ => Ok(0),
        }
    }
}
