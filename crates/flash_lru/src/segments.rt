ghost use Rattle.std.specs.Prelude.{◌≡◌, ◌+◌, ◌^◌, ◌<◌, ◌≤◌, ◌↔◌, IsTrue, IfSome, OnOk, IsOk};
ghost use Rattle.flash_names.specs.declared.place.ItemId.{ItemId};
ghost use Rattle.flash_lru.specs.Card.{idle};
ghost use Rattle.flash_lru.specs.Lists.{SegmentLists, empty_lists, list_of, cards_of, HasCard};
ghost use Rattle.flash_lru.specs.Moves.{removed, put_front, moved, touched, resized};
ghost use Rattle.flash_lru.specs.Ends.{last_card, last_item, last_out, before};
ghost use Rattle.flash_lru.specs.Juggle.{exceeds, load_of, next_move, move_item, with_move};
ghost use Rattle.flash_lru.specs.Law.{HasOneAtMost};

use crate::card::{Card, Move};
use crate::node::{Node, card_of, grow, item_of, last_of, link, node_of, set_node, unlink};
use crate::segment::Segment;
use crate::shares::{from_cold, from_full, hot_share, warm_share};
use flash_names::ItemId;
use std::alloc::{AllocError, Global};
use std::marker::Model;

/// The three lists of items, by which it is decided what leaves memory.
#[derive(Debug, Drop)]
pub struct Segments {
    nodes: Vec<Node>,
    hot_bytes: u64,
    warm_bytes: u64,
    cold_bytes: u64,
    memory: u64,
}

impl Model for Segments {
    ghost use Rattle.flash_lru.specs.Lists.{SegmentLists};
    ghost use Rattle.flash_lru.specs.Ring.{seen, IsSound};

    ghost Value = { SegmentLists };

    ghost view = { λ s. seen s.nodes.items s.memory };

    ghost invariant = { λ s. IsSound s.nodes.items s.hot_bytes s.warm_bytes s.cold_bytes };
}

impl Segments {
    /// Three empty lists, which take no memory yet. `memory` is the number of bytes of which HOT and WARM have
    /// their shares.
    pub fn open(alloc: Global, memory: u64) -> Segments
        ensures { result ≡ empty_lists memory }
    {
        Segments {
            nodes: Vec::new(alloc),
            hot_bytes: 0,
            warm_bytes: 0,
            cold_bytes: 0,
            memory,
        }
    }

    /// Makes room for a card of this item and of each with a lower number, or answers that it is out of memory.
    /// The three lists stay as they are.
    pub fn reserve_one(&mut self, item: ItemId) -> Result<(), AllocError>
        ensures room { OnOk result (item.key < self.new.spare) }
        ensures grows { self.old.spare ≤ self.new.spare }
        ensures lists { self.new ≡ record self.old { spare = self.new.spare } }
        ensures has_room { item.key < self.old.spare → IsOk result }
    {
        grow(&mut self.nodes, item)
    }

    /// Puts a card that isn't active at HOT's front, and takes the item's card away where it is. There has to
    /// be room for the item's number.
    pub fn put_hot(&mut self, item: ItemId, size: u32)
        requires { item.key < self.old.spare }
        ensures { self.new ≡ moved Segment.Hot item size self.old }
    {
        self.put(Segment::Hot, item, size);
    }

    /// Marks the item's card as active. It has to have one.
    pub fn touch(&mut self, item: ItemId)
        requires { HasCard self.old item }
        ensures { self.new ≡ touched item self.old }
    {
        let node = node_of(&self.nodes, item);
        set_node(
            &mut self.nodes,
            item,
            Node {
                active: true,
                ..node
            },
        );
    }

    /// Gives the item's card another size in bytes. It has to have one.
    pub fn resize(&mut self, item: ItemId, size: u32)
        requires { HasCard self.old item }
        ensures { self.new ≡ resized item size self.old }
    {
        let before = node_of(&self.nodes, item);
        let after = Node { size, ..before };
        self.hot_bytes = self.hot_bytes - before.hot_bytes() + after.hot_bytes();
        self.warm_bytes = self.warm_bytes - before.warm_bytes() + after.warm_bytes();
        self.cold_bytes = self.cold_bytes - before.cold_bytes() + after.cold_bytes();
        set_node(&mut self.nodes, item, after);
    }

    /// Takes the item's card away. It has to have one.
    pub fn remove(&mut self, item: ItemId)
        requires { HasCard self.old item }
        ensures { self.new ≡ removed item self.old }
    {
        let node = node_of(&self.nodes, item);
        self.hot_bytes -= node.hot_bytes();
        self.warm_bytes -= node.warm_bytes();
        self.cold_bytes -= node.cold_bytes();
        unlink(&mut self.nodes, item);
    }

    /// The sum of the sizes of all cards, in bytes.
    pub fn load(&self) -> u64
        ensures { result ≡ load_of self.now }
    {
        self.hot_bytes + self.warm_bytes + self.cold_bytes
    }

    /// The item that leaves memory next: the last of COLD, else of WARM, else of HOT.
    pub fn last_out(&self) -> Option<ItemId>
        ensures { result ≡ last_out self.now }
    {
        let cold = self.last_of(Segment::Cold);
        let warm = self.last_of(Segment::Warm);
        let hot = self.last_of(Segment::Hot);
        cold.or(warm.or(hot))
    }

    /// The last item of a segment's list.
    pub fn last_of(&self, segment: Segment) -> Option<ItemId>
        ensures { result ≡ last_item (list_of segment self.now) }
    {
        self.last_card(segment).map(|card| card.item)
    }

    /// The item directly before this one in its list; `None` where this one is the first. It has to have a card.
    pub fn before(&self, item: ItemId) -> Option<ItemId>
        requires { HasCard self.now item }
        ensures { result ≡ before item self.now }
    {
        item_of(node_of(&self.nodes, item).prev)
    }

    /// Makes the first move that applies, and gives the item that moved:
    ///
    /// 1. where HOT's bytes exceed 20 percent of the memory, HOT's last goes to WARM's front if it is active,
    ///    else to COLD's;
    /// 2. where WARM's bytes exceed 40 percent of it, WARM's last goes to the same;
    /// 3. where COLD's last is active, it goes to WARM's front.
    ///
    /// A card that was moved isn't active.
    pub fn juggle_one(&mut self) -> Option<ItemId>
        ensures item { result ≡ move_item (next_move self.old) }
        ensures lists { self.new ≡ with_move (next_move self.old) self.old }
    {
        let next = self.next_move()?;
        self.put(next.to, next.card.item, next.card.size);
        Some(next.card.item)
    }

    /// An item has one card at most in the three lists together, and only where there is room for its number. It
    /// does nothing.
    pub fn has_one_each(&self)
        ensures once { (item : ItemId) → HasOneAtMost self.now item }
        ensures few { self.now.spare < 2 ^ 32 }
    {
        let _ = &self.nodes;
    }

    // The first move that applies.
    fn next_move(&self) -> Option<Move>
        ensures exact { result ≡ next_move self.now }
        ensures room { IfSome result (λ move. move.card.item.key < self.now.spare) }
    {
        if self.hot_is_full() {
            from_full(self.last_card(Segment::Hot))
        } else if self.warm_is_full() {
            from_full(self.last_card(Segment::Warm))
        } else {
            from_cold(self.last_card(Segment::Cold))
        }
    }

    // Whether HOT's bytes exceed its share of the memory.
    fn hot_is_full(&self) -> bool
        ensures { result ≡ exceeds 20 self.now self.now.hot }
    {
        self.hot_bytes > hot_share(self.memory)
    }

    // Whether WARM's bytes exceed its share of the memory.
    fn warm_is_full(&self) -> bool
        ensures { result ≡ exceeds 40 self.now self.now.warm }
    {
        self.warm_bytes > warm_share(self.memory)
    }

    // The last card of a segment's list.
    fn last_card(&self, segment: Segment) -> Option<Card>
        ensures exact { result ≡ last_card (list_of segment self.now) }
        ensures room { IfSome result (λ card. card.item.key < self.now.spare) }
    {
        card_of(&self.nodes, last_of(&self.nodes, segment))
    }

    // Puts a card that isn't active at a segment's front, and takes the item's card away where it is.
    fn put(&mut self, segment: Segment, item: ItemId, size: u32)
        requires { item.key < self.old.spare }
        ensures { self.new ≡ moved segment item size self.old }
    {
        if self.has_card(item) {
            self.remove(item);
        }
        self.put_new(segment, item, size);
    }

    // Whether the item has a card.
    fn has_card(&self, item: ItemId) -> bool
        requires { item.key < self.now.spare }
        ensures { IsTrue result ↔ HasCard self.now item }
    {
        node_of(&self.nodes, item).home.is_listed()
    }

    // Puts a card that isn't active at a segment's front. The item has none.
    fn put_new(&mut self, segment: Segment, item: ItemId, size: u32)
        requires room { item.key < self.old.spare }
        requires absent { cards_of item self.old ≡ 0 }
        ensures { self.new ≡ put_front segment (idle item size) self.old }
    {
        let node = Node {
            size,
            home: segment.home(),
            ..Node::UNUSED
        };
        self.hot_bytes += node.hot_bytes();
        self.warm_bytes += node.warm_bytes();
        self.cold_bytes += node.cold_bytes();
        link(&mut self.nodes, item, segment, size);
    }
}
