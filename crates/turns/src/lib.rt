// Fair turns on one line: a table of 32 meter slots, by value. What each call answers is in specs/.
#![tactic(auto)]

ghost use Rattle.std.specs.Prelude.{◌≡◌, false, ◌+◌, ◌-◌, ◌<◌};
ghost use Rattle.wire.specs.Answer.{judged};
ghost use Rattle.wire.specs.Refusal.{first};
ghost use Rattle.turns.specs.Table.{
  fresh,
  some,
  place,
  next_after,
  next_due,
  lowest_with,
  lowest_empty,
  with_due,
  no_slot,
  no_address,
  holds,
  held_twice,
  unfit_slot,
  unfit,
};
ghost use Rattle.turns.specs.Calls.{add_rules, slot_rules, turn_rules, answered_with, added, changed, removed, marked, cleared, turned};

use wire::Refusal;

// Slot k stands at the place k - 1; an empty slot has address 0.
#[derive(Clone, Copy, Debug, PartialEq, Eq)]
pub struct Table {
    // Two lists, as `lowest_with` and `next_after` of specs/Table.antt search them. An array of slots would hold 256 bytes for these 160, at each call by value.
    pub addresses: [u32; 32],
    pub due: [bool; 32],
    // The last asked slot.
    pub last: usize,
}

// What a call answers, and the table that it leaves.
#[derive(Clone, Copy, Debug, PartialEq, Eq)]
pub struct Answered<T> {
    pub answer: Result<T, Refusal>,
    pub table: Table,
}

// The slot that a turn gives, and its address.
#[derive(Clone, Copy, Debug, PartialEq, Eq)]
pub struct Given {
    pub slot: usize,
    pub address: u32,
}

// With the slot.
pub type Added = Answered<usize>;

pub type Changed = Answered<()>;

pub type Turned = Answered<Given>;

fn no_slot(k: usize) -> bool
    ensures { result ≡ no_slot k }
{
    (k < 1) | (32 < k)
}

fn no_address(address: u32) -> bool
    ensures { result ≡ no_address address }
{
    (address < 1) | (99_999_999 < address)
}

impl Table {
    // The place of the lowest slot with that address.
    fn lowest_with(&self, address: u32) -> Option<usize>
        ensures { result ≡ place (lowest_with self.now.addresses address) }
    {
        self.addresses.iter().position(|a| *a == address)
    }

    // The place of the next due slot after the last one asked, going round.
    fn next_after(&self) -> Option<usize>
        ensures { result ≡ place (next_due self.now) }
    {
        let start = self.last % 32;
        for step in 0..32 {
            let next = (start + step) % 32;
            if self.due[next] {
                return Some(next);
            }
        }
        None
    }

    // Where it is not `seen`, no lower slot has the same address.
    fn unfit_slot(&self, at: usize, seen: bool) -> bool
        requires within { at < 32 }
        requires unseen_once { (seen ≡ false → held_twice self.now.addresses (at + 1) ≡ false) }
        ensures { result ≡ unfit_slot self.now.addresses self.now.due (at + 1) }
    {
        let address = self.addresses[at];
        if no_address(address) {
            return (address != 0) | self.due[at];
        }
        if seen {
            return self.lowest_with(address) != Some(at);
        }
        false
    }

    // An address is searched for only where a lower slot's ends with the same byte; an empty slot's is 00.
    fn some_unfit(&self) -> bool
        ensures { result ≡ some (unfit_slot self.now.addresses self.now.due) }
    {
        let mut seen = [false; 256];
        for (at, address) in self.addresses.iter().enumerate() {
            let end = (*address % 256) as usize;
            if self.unfit_slot(at, seen[end]) {
                return true;
            }
            seen[end] = true;
        }
        false
    }

    fn is_unfit(&self) -> bool
        ensures { result ≡ unfit self.now }
    {
        no_slot(self.last) | self.some_unfit()
    }

    fn is_present(&self, address: u32) -> bool
        ensures { result ≡ some (holds self.now.addresses address) }
    {
        self.lowest_with(address).is_some()
    }

    // The place for an address that is added: the lowest empty one.
    fn free_for(&self, address: u32) -> Result<usize, Refusal>
        ensures { result ≡ judged (lowest_empty self.now - 1) (first (add_rules self.now address)) }
    {
        if self.is_unfit() {
            return Err(Refusal::Unfit);
        }
        if no_address(address) {
            return Err(Refusal::NoAddress);
        }
        if self.is_present(address) {
            return Err(Refusal::AddressPresent);
        }
        self.lowest_with(0).ok_or(Refusal::NoEmptySlot)
    }

    // The place of a slot with an address.
    fn place_of(&self, slot: usize) -> Result<usize, Refusal>
        ensures { result ≡ judged (slot - 1) (first (slot_rules self.now slot)) }
    {
        if self.is_unfit() {
            return Err(Refusal::Unfit);
        }
        if no_slot(slot) {
            return Err(Refusal::NoSlot);
        }
        if self.addresses[slot - 1] == 0 {
            return Err(Refusal::EmptySlot);
        }
        Ok(slot - 1)
    }

    // The place of the slot whose turn it is.
    fn next_due(&self) -> Result<usize, Refusal>
        ensures { result ≡ judged (next_due self.now - 1) (first (turn_rules self.now)) }
    {
        if self.is_unfit() {
            return Err(Refusal::Unfit);
        }
        self.next_after().ok_or(Refusal::NobodyDue)
    }

    #[tactic(auto, using(crate::proofs::Places::free_within))]
    fn add(&mut self, address: u32) -> Result<usize, Refusal>
        ensures { answered_with result self.new ≡ added self.old address }
    {
        let free = self.free_for(address)?;
        self.addresses[free] = address;
        self.due[free] = false;
        Ok(free + 1)
    }

    #[tactic(auto, using(crate::proofs::Places::slot_within))]
    fn remove(&mut self, slot: usize) -> Result<(), Refusal>
        ensures { answered_with result self.new ≡ removed self.old slot }
    {
        let at = self.place_of(slot)?;
        self.addresses[at] = 0;
        self.due[at] = false;
        Ok(())
    }

    #[tactic(auto, using(crate::proofs::Places::slot_within))]
    fn set_due(&mut self, slot: usize, value: bool) -> Result<(), Refusal>
        ensures { answered_with result self.new ≡ changed self.old slot (with_due self.old slot value) }
    {
        let at = self.place_of(slot)?;
        self.due[at] = value;
        Ok(())
    }

    #[tactic(auto, using(crate::proofs::Places::next_within))]
    fn turn(&mut self) -> Result<Given, Refusal>
        ensures { answered_with result self.new ≡ turned self.old }
    {
        let next = self.next_due()?;
        self.due[next] = false;
        self.last = next + 1;
        Ok(Given {
            slot: next + 1,
            address: self.addresses[next],
        })
    }
}

pub fn new() -> Table
    ensures { result ≡ fresh }
{
    Table {
        addresses: [0u32; 32],
        due: [false; 32],
        last: 32,
    }
}

// The calls hand the table over and back. Each is a method of its own: one function for all would take the method as a closure, and be no shorter.

// Puts the address into the lowest empty slot, which is not due, and answers the slot.
pub fn add(mut t: Table, address: u32) -> Added
    ensures { result ≡ added t address }
{
    let answer = t.add(address);
    Answered { answer, table: t }
}

// Empties the slot, which is then not due. The last asked slot stays.
pub fn remove(mut t: Table, slot: usize) -> Changed
    ensures { result ≡ removed t slot }
{
    let answer = t.remove(slot);
    Answered { answer, table: t }
}

// Makes the slot due.
pub fn mark(mut t: Table, slot: usize) -> Changed
    ensures { result ≡ marked t slot }
{
    let answer = t.set_due(slot, true);
    Answered { answer, table: t }
}

// Makes the slot not due.
pub fn clear(mut t: Table, slot: usize) -> Changed
    ensures { result ≡ cleared t slot }
{
    let answer = t.set_due(slot, false);
    Answered { answer, table: t }
}

// Gives the next due slot after the last one asked, going round, and its address. It is then not due, and the last one asked.
pub fn turn(mut t: Table) -> Turned
    ensures { result ≡ turned t }
{
    let answer = t.turn();
    Answered { answer, table: t }
}
