//! What holds of queues that stand in a pool. The functions do nothing; their contracts are the laws.

ghost use Rattle.std.specs.Prelude.{◌≡◌, ◌<◌, List, ◌++◌, ◌∷◌, Bool, true, Option, Some, None};
ghost use Rattle.std.specs.List.{AllByRecursion};
ghost use Rattle.slot_pool.specs.Pools.{PoolRecord, value_at};
ghost use Rattle.slot_pool.specs.declared.pool.Slot.{Slot};
ghost use Rattle.wait_queue.specs.declared.node.Entry.{Entry};
ghost use Rattle.wait_queue.specs.declared.node.Node.{Node};
ghost use Rattle.wait_queue.specs.declared.queue.Queue.{Queue};
ghost use Rattle.wait_queue.specs.Queues.{Item, Stands, HasPlace, MayEnter, IsOutside, Apart, AreBehind, IsInOrder, IsInRange, is_before, rank, entry_at};

/// A queue stands as one list alone (`one`); at the slot of each item its entry stands (`entries`); no two
/// items share a slot (`distinct`); a slot that is not live is none of theirs (`absent`); and where no slot
/// reads otherwise the list still stands (`stays`).
pub fn standing_lists()
    ensures one { (p : PoolRecord Node) (q : Queue) (items others : List Item) → Stands (value_at p) q items → Stands (value_at p) q others → items ≡ others }
    ensures entries { (at : Slot → Option Node) (q : Queue) (items : List Item) → Stands at q items → AllByRecursion (λ (i : Item). entry_at at i.0 ≡ Some i.1) items }
    ensures distinct { (at : Slot → Option Node) (q : Queue) (front back : List Item) (slot : Slot) (entry : Entry) → Stands at q (front ++ (slot, entry) ∷ back) → IsOutside slot (front ++ back) }
    ensures absent { (at : Slot → Option Node) (q : Queue) (items : List Item) (slot : Slot) → Stands at q items → at slot ≡ None → IsOutside slot items }
    ensures stays { (at after : Slot → Option Node) (q : Queue) (items : List Item) → Stands at q items → ((slot : Slot) → after slot ≡ at slot) → Stands after q items }
{}

/// An entry that may enter a queue has a place there.
pub fn places()
    ensures { (at : Slot → Option Node) (q : Queue) (e : Entry) → MayEnter at q e → HasPlace at q e }
{}

/// Of a list in order both parts are in order and each entry of the first part stands before all of the second
/// (`parts`). The rank of entries in range rises along the order (`rises`). Lists that share no slot share
/// none the other way round (`apart`).
pub fn orders()
    ensures parts { (key_first : Bool) (front back : List Item) → IsInOrder key_first (front ++ back) → IsInOrder key_first front × IsInOrder key_first back × AllByRecursion (λ (i : Item). AreBehind key_first i.1 back) front }
    ensures rises { (key_first : Bool) (one other : Entry) → IsInRange one → IsInRange other → is_before key_first one other ≡ true → rank key_first one < rank key_first other }
    ensures apart { (items theirs : List Item) → Apart items theirs → Apart theirs items }
{}
