//! What a wait for any of several objects is for.

ghost use Rattle.std.specs.Prelude.{map, ◌≡◌, ◌<◌, ◌≤◌, ◌++◌, [], ◌∷◌};
ghost use Rattle.std.specs.List.{list_any};
ghost use Rattle.ns_model.specs.Tallies.{Every};
ghost use Rattle.ns_counters.specs.Items.{AreAmong, IsLow, have_variable, is_variable, item_at, items_of, no_items, place_in, with_item};

use ns_model::cvs::Cvs;

/// One of the objects that a wait for any of several is for.
#[derive(Clone, Copy, Debug, PartialEq, Eq)]
pub enum Item {
    /// A note, by its number, which is ready where it is notified.
    OnNote(u8),
    /// A counter, by its number, which is ready where its value is 0.
    OnCounter(u8),
    /// A condition variable, by its number, a wake of which ends the wait.
    OnVariable(u8),
}

/// What a wait for any of several looks at, as the item that it is.
pub trait AsItem: Copy {
    ghost use Rattle.ns_counters.specs.declared.items.Item.{Item as ItemOf};

    /// Which item it is.
    ghost item: { Self → ItemOf };

    /// Which item it is.
    fn item(self) -> Item
        ensures { result ≡ item self };
}

impl AsItem for Item {
    ghost item = { λ item. item };

    #[inline(always)]
    fn item(self) -> Item {
        self
    }
}

/// Whether a condition variable is among the items.
fn has_variable(items: &[Item]) -> bool
    ensures { result ≡ list_any is_variable items.now }
{
    for item in items {
        if let Item::OnVariable(_) = *item {
            return true;
        }
    }
    false
}

/// The condition variables among the items. Needs variables below 4.
#[tactic(auto, using(crate::proofs::Listed::low_at))]
pub fn variables_in<T: AsItem>(items: &[T]) -> Cvs
    requires { Every IsLow (map T.item items.now) }
    ensures among { AreAmong result (map T.item items.now) }
    ensures byte { result.0 < 256 }
{
    let mut cvs = Cvs::none();
    for item in items {
        if let Item::OnVariable(k) = item.item() {
            cvs = cvs.with(k);
        }
    }
    cvs
}

/// The place of the first item that is this condition variable, or how many items there are where none is.
pub fn place_of<T: AsItem>(items: &[T], k: u64) -> usize
    ensures { result ≡ place_in k (map T.item items.now) }
{
    for (i, item) in items.iter().enumerate() {
        if let Item::OnVariable(j) = item.item() {
            if j as u64 == k {
                return i;
            }
        }
    }
    items.len()
}

/// Up to 16 objects, in order.
#[derive(Clone, Copy, Debug)]
pub struct Items {
    /// How many there are.
    pub count: u8,
    /// The objects, from the front.
    pub all: [Item; 16],
}

impl Items {
    /// No object.
    pub fn none() -> Items
        ensures none { result ≡ no_items }
        ensures items { items_of result ≡ [] }
    {
        Items {
            count: 0,
            all: [Item::OnNote(0); 16],
        }
    }

    /// Puts an object behind the others. Needs that there are less than 16.
    pub fn push(&mut self, item: Item)
        requires { self.old.count < 16 }
        ensures items { items_of self.new ≡ items_of self.old ++ item ∷ [] }
        ensures put { self.new ≡ with_item self.old item }
    {
        self.all[self.count as usize] = item;
        self.count += 1;
    }

    /// The object at a place, counted from 0, if there is one.
    pub fn get(&self, place: u8) -> Option<Item>
        ensures { result ≡ item_at self.now place }
    {
        if place < self.count {
            self.all.get(place as usize).copied()
        } else {
            None
        }
    }

    /// Whether a condition variable is among the objects. Needs that there are at most 16.
    pub fn has_variable(&self) -> bool
        requires { self.now.count ≤ 16 }
        ensures { result ≡ have_variable self.now }
    {
        has_variable(&self.all[..self.count as usize])
    }

    /// The condition variables among the objects. Needs at most 16 objects, and variables below 4.
    pub fn variables(&self) -> Cvs
        requires few { self.now.count ≤ 16 }
        requires low { Every IsLow (items_of self.now) }
        ensures among { AreAmong result (items_of self.now) }
        ensures byte { result.0 < 256 }
    {
        variables_in(&self.all[..self.count as usize])
    }

    /// The place of the first object that is this condition variable, or how many there are where none is. Needs
    /// that there are at most 16.
    pub fn place_of(&self, k: u64) -> u64
        requires { self.now.count ≤ 16 }
        ensures { result ≡ place_in k (items_of self.now) }
    {
        place_of(&self.all[..self.count as usize], k) as u64
    }
}
