ghost use Rattle.std.specs.Prelude.{◌≡◌, ℕ, ◌^◌, ◌<◌, [], IfOk, IfErr, IsTrue};
ghost use Rattle.std.specs.Option.{ForSome};
ghost use Rattle.std.specs.FinMap as map;
ghost use Rattle.flash_names.specs.Geometry.{Passes, check_result};
ghost use Rattle.flash_machine.specs.Cache.{first_cache};
ghost use Rattle.flash_machine.specs.Load.{load_of};
ghost use Rattle.flash_blocks.specs.BlockTable.{first_table};
ghost use Rattle.flash_index.specs.KeyLists.{empty_lists};
ghost use Rattle.flash_index.specs.Listed.{IsListed};
ghost use Rattle.flash_calls.specs.Store.{first_desk};
ghost use Rattle.flash_core.specs.Open.{IsRefusedFor};
ghost use Rattle.flash_core.specs.Sound.{HasRun, IsToldRun};

use crate::numbers::Numbers;
use flash_blocks::Blocks;
use flash_calls::the_first_run;
use flash_entry::Journal;
use flash_index::Index;
use flash_names::{BadGeometry, Geometry};
use std::alloc::{AllocError, Global};
use std::marker::Model;
use thiserror::Error;

/// A store over a journal. Each call notes in the journal what it did to a one-thread cache.
#[derive(Drop)]
pub struct Core<J: Journal> {
    pub(crate) geometry: Geometry,
    pub(crate) journal: J,
    pub(crate) index: Index,
    pub(crate) blocks: Blocks,
    pub(crate) numbers: Numbers,
}

impl<J: Journal> Model for Core<J> {
    ghost use Rattle.std.specs.Coded.{codes};
    ghost use Rattle.flash_machine.specs.Codes.{items_code};
    ghost use Rattle.flash_index.specs.Codes.{lists_code, places_code};
    ghost use Rattle.flash_calls.specs.Store.{Store};

    ghost Value = { Store };

    ghost coded = { Prim.hlevel (codes, items_code, lists_code, places_code) };

    ghost use Rattle.flash_core.specs.Desks.{desk_of};
    ghost use Rattle.flash_core.specs.Numbers.{cache_of_items};
    ghost use Rattle.flash_core.specs.Sound.{IsSound};

    ghost view = { λ c. record {
      geometry = c.geometry;
      told = J.told c.journal;
      ready = J.ready c.journal;
      cache = cache_of_items c.index.items c.numbers;
      desk = desk_of c.index c.blocks;
    } };

    ghost invariant = { λ c. IsSound c.geometry c.index.memory (cache_of_items c.index.items c.numbers)
        (desk_of c.index c.blocks) (J.told c.journal) };
}

/// Why a store wasn't opened.
#[derive(Clone, Copy, Debug, PartialEq, Eq, Error)]
pub enum OpenWhy {
    /// The number of the first rule that the geometry breaks.
    #[error("the geometry breaks rule {0}")]
    BadGeometry(u32),
    /// Memory ran out.
    #[error("out of memory")]
    NoMemory,
}

/// A store that wasn't opened, with the journal that it was to have.
#[derive(Debug, Drop)]
pub struct OpenError<J> {
    /// Why it wasn't opened.
    pub why: OpenWhy,
    /// The journal, as it was given.
    pub journal: J,
}

// The numbers of a store before its first call.
const FIRST_NUMBERS: Numbers = Numbers {
    moment: 0,
    last_cas: 0,
    flush_mark: 0,
    pending_flush: None,
};

impl<J: Journal> Core<J> {
    /// An empty store of this geometry, at the moment 0. A journal that tells its entries has none. A geometry
    /// that breaks a rule is answered with the first one that it breaks. Where no store is opened, the journal
    /// comes back unchanged.
    pub fn open(alloc: Global, geometry: Geometry, journal: J) -> Result<Core<J>, OpenError<J>>
        requires { ForSome (J.told journal) (λ entries. entries ≡ []) }
        ensures opened { IfOk result (λ core. core ≡ record {
          geometry = geometry;
          told = J.told journal;
          ready = J.ready journal;
          cache = first_cache;
          desk = first_desk geometry;
        }) }
        ensures passes { IfOk result (λ _. Passes geometry) }
        ensures broken { IfErr (check_result geometry)
            (λ bad. IfErr result (λ error. error.why ≡ OpenWhy.BadGeometry bad.rule)) }
        ensures refused { IfErr result (λ error. IsRefusedFor geometry error.why × (error.journal ≡ journal)) }
    {
        if let Err(BadGeometry { rule }) = geometry.check() {
            return Err(OpenError {
                why: OpenWhy::BadGeometry(rule),
                journal,
            });
        }
        the_first_run();
        match open_parts(alloc, &geometry) {
            Ok((index, blocks)) => Ok(Core {
                geometry,
                journal,
                index,
                blocks,
                numbers: FIRST_NUMBERS,
            }),
            Err(AllocError) => Err(OpenError {
                why: OpenWhy::NoMemory,
                journal,
            }),
        }
    }

    /// What the items take of the memory, in bytes: 64 for each, its key, and its value where that is in memory.
    pub fn load(&self) -> u64
        ensures { result ≡ load_of self.now.cache.items }
    {
        self.index.load()
    }

    /// The three lists have the key of each item once, with the item's size. It does nothing.
    pub fn is_listed(&self)
        ensures { IsListed self.now.cache.items self.now.desk.lists }
    {
        self.index.is_listed();
    }

    /// The sizes that it was opened with.
    pub fn geometry(&self) -> Geometry
        ensures same { result ≡ self.now.geometry }
        ensures passes { Passes result }
    {
        self.geometry
    }

    /// The journal. Where it tells its entries, they are a run of the one-thread cache, and the store has the heads of
    /// the cache that they make. Whether it tells them or not, there is such a run, of which the store has all that it
    /// keeps.
    pub fn journal(&self) -> &J
        ensures told { J.told result.now ≡ self.now.told }
        ensures ready { J.ready result.now ≡ self.now.ready }
        ensures run { IsToldRun self.now.geometry self.now.cache self.now.told }
        ensures runs { HasRun self.now.geometry self.now.cache self.now.desk self.now.told }
    {
        &self.journal
    }

    /// The journal, given back. Where it tells its entries, they are a run of the one-thread cache, and the store had
    /// the heads of the cache that they make.
    pub fn into_journal(self) -> J
        ensures told { J.told result ≡ self.told }
        ensures ready { J.ready result ≡ self.ready }
        ensures run { IsToldRun self.geometry self.cache self.told }
    {
        self.journal
    }
}

// The index and the blocks of a store without items.
fn open_parts(alloc: Global, geometry: &Geometry) -> Result<(Index, Blocks), AllocError>
    requires { Passes geometry.now }
    ensures index { IfOk result (λ parts. parts.0 ≡ record {
      items = map.empty;
      places = map.empty;
      lists = empty_lists;
      memory = geometry.now.memory;
      ids = map.empty;
      spare = parts.0.spare;
    }) }
    ensures blocks { IfOk result (λ parts. parts.1 ≡ first_table geometry.now) }
{
    let index = Index::open(alloc, geometry.memory)?;
    let blocks = Blocks::open(alloc, geometry)?;
    Ok((index, blocks))
}
