ghost use Rattle.std.specs.Prelude.{◌≡◌, ℕ, ◌+◌, ◌*◌, ◌^◌, ◌<◌, ◌≤◌, length, slice_set, OnOk, IsOk};
ghost use Rattle.flash_lru.specs.Ring.{blank, node_at, prev_of, item_of, some_card, is_listed, HasNode, linked, unlinked, in_hot, in_warm, in_cold, home_in, end_of, end_after};

use crate::card::Card;
use crate::segment::Segment;
use flash_names::ItemId;
use std::alloc::AllocError;

/// How many nodes are ends of lists: those of 0, 1 and 2. The item of number n has the node n + 3.
pub const ENDS: usize = 3;

// The most nodes, whose numbers have 32 bits.
const MOST_NODES: usize = 1 << 32;

/// The list that a node is in.
#[derive(Clone, Copy, Debug, PartialEq, Eq)]
pub enum Home {
    /// HOT.
    InHot,
    /// WARM.
    InWarm,
    /// COLD.
    InCold,
    /// No list.
    Nowhere,
}

impl Home {
    /// Whether it is a list.
    pub fn is_listed(self) -> bool
        ensures { result ≡ is_listed self }
    {
        !matches!(self, Home::Nowhere)
    }
}

/// What is kept of an item number, or of an end of a list.
#[derive(Clone, Copy, Debug, PartialEq, Eq)]
pub struct Node {
    /// The node towards the front, or the end before.
    pub prev: u32,
    /// The node towards the back, or the end after.
    pub next: u32,
    /// The item's size in bytes.
    pub size: u32,
    /// The list that it is in.
    pub home: Home,
    /// Whether it was used since it was put where it is.
    pub active: bool,
}

impl Node {
    /// The bytes that it adds to HOT's.
    pub fn hot_bytes(&self) -> u64
        ensures { result ≡ in_hot self.now.home * self.now.size }
    {
        match self.home {
            Home::InHot => u64::from(self.size),
            Home::InWarm | Home::InCold | Home::Nowhere => 0,
        }
    }

    /// The bytes that it adds to WARM's.
    pub fn warm_bytes(&self) -> u64
        ensures { result ≡ in_warm self.now.home * self.now.size }
    {
        match self.home {
            Home::InWarm => u64::from(self.size),
            Home::InHot | Home::InCold | Home::Nowhere => 0,
        }
    }

    /// The bytes that it adds to COLD's.
    pub fn cold_bytes(&self) -> u64
        ensures { result ≡ in_cold self.now.home * self.now.size }
    {
        match self.home {
            Home::InCold => u64::from(self.size),
            Home::InHot | Home::InWarm | Home::Nowhere => 0,
        }
    }

    /// A node that is in no list.
    pub const UNUSED: Node = Node {
        prev: 0,
        next: 0,
        size: 0,
        home: Home::Nowhere,
        active: false,
    };

    /// The node of a number before anything is linked to it. Those of 0, 1 and 2 are the ends of three empty
    /// lists.
    pub fn blank(number: u32) -> Node
        ensures { result ≡ blank number }
    {
        let prev = if number == 0 {
            2
        } else if number < 3 {
            number - 1
        } else {
            0
        };
        let next = if number < 2 { number + 1 } else { 0 };
        Node {
            prev,
            next,
            ..Node::UNUSED
        }
    }
}

/// The number of the item's node.
fn number_of(item: ItemId) -> usize
    requires { item.key + 3 < 2 ^ 64 }
    ensures { result ≡ item.key + 3 }
{
    item.key + ENDS
}

/// The item's node.
pub fn node_of(nodes: &Vec<Node>, item: ItemId) -> Node
    requires { HasNode nodes.now.items (item.key + 3) }
    ensures { result ≡ node_at nodes.now.items (item.key + 3) }
{
    nodes[number_of(item)]
}

/// The number of the last node of a segment, or of its end where it has none.
pub fn last_of(nodes: &Vec<Node>, segment: Segment) -> u32
    ensures { result ≡ prev_of nodes.now.items (end_after segment) }
{
    let end = segment.end_after();
    match nodes.get(end as usize) {
        Some(node) => node.prev,
        None => Node::blank(end).prev,
    }
}

/// The item whose node has this number; `None` for the end of a list.
pub fn item_of(number: u32) -> Option<ItemId>
    ensures { result ≡ item_of number }
{
    if number < 3 {
        return None;
    }
    Some(ItemId {
        key: number as usize - ENDS,
    })
}

/// The card of a number; `None` for the end of a list.
pub fn card_of(nodes: &Vec<Node>, number: u32) -> Option<Card>
    requires { 3 ≤ number → number < length nodes.now.items }
    ensures { result ≡ some_card nodes.now.items number }
{
    if number < 3 {
        return None;
    }
    let node = nodes[number as usize];
    Some(Card {
        item: ItemId {
            key: number as usize - ENDS,
        },
        size: node.size,
        active: node.active,
    })
}

/// Puts another node in the place of the item's.
pub fn set_node(nodes: &mut Vec<Node>, item: ItemId, node: Node)
    requires { HasNode nodes.old.items (item.key + 3) }
    ensures { nodes.new.items ≡ slice_set nodes.old.items (item.key + 3) node }
{
    nodes[number_of(item)] = node;
}

/// Links the two nodes beside the item's to each other, and leaves it unused.
pub fn unlink(nodes: &mut Vec<Node>, item: ItemId)
    requires { HasNode nodes.old.items (item.key + 3) }
    ensures { nodes.new.items ≡ unlinked (item.key + 3) nodes.old.items }
{
    let number = number_of(item);
    let prev = nodes[number].prev;
    let next = nodes[number].next;
    nodes[prev as usize].next = next;
    nodes[next as usize].prev = prev;
    nodes[number] = Node::UNUSED;
}

/// Links the item's node, which is unused, in at a segment's front.
pub fn link(nodes: &mut Vec<Node>, item: ItemId, segment: Segment, size: u32)
    requires node { HasNode nodes.old.items (item.key + 3) }
    requires end { HasNode nodes.old.items (end_of segment) }
    ensures { nodes.new.items ≡ linked (item.key + 3) (end_of segment) size (home_in segment) nodes.old.items }
{
    let number = number_of(item);
    let end = segment.end();
    let first = nodes[end as usize].next;
    nodes[first as usize].prev = number as u32;
    nodes[end as usize].next = number as u32;
    let active = false;
    nodes[number] = Node {
        prev: end,
        next: first,
        size,
        home: segment.home(),
        active,
    };
}

/// Makes blank nodes up to the item's, or answers that it is out of memory.
pub fn grow(nodes: &mut Vec<Node>, item: ItemId) -> Result<(), AllocError>
    requires { length nodes.old.items ≤ 2 ^ 32 }
    ensures room { OnOk result (item.key + 3 < length nodes.new.items) }
    ensures grows { length nodes.old.items ≤ length nodes.new.items }
    ensures short { length nodes.new.items ≤ 2 ^ 32 }
    ensures same { (number : ℕ) → node_at nodes.new.items number ≡ node_at nodes.old.items number }
    ensures has_room { item.key + 3 < length nodes.old.items → IsOk result }
{
    if item.key >= MOST_NODES - ENDS {
        return Err(AllocError);
    }
    'nodes: while nodes.len() <= item.key + ENDS {
        let number = nodes.len() as u32;
        nodes.push(Node::blank(number))?;
    }
    Ok(())
}
