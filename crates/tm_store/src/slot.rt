// A slot of a store in memory, and how a name finds its slot.

ghost use Rattle.std.specs.Prelude.{◌≡◌, ◌≢◌, ℕ, List, Some, find, position, is_some, option_map};
ghost use Rattle.std.specs.Bool.{OnTrue, OnFalse};
ghost use Rattle.std.specs.Option.{option_copied};
ghost use Rattle.tm_store.specs.Slot.{content_of, is_named, names_of, files_of};

/// A name with the bytes that it holds, or with nothing.
#[derive(Debug, Drop)]
pub struct Slot {
    pub name: String,
    pub bytes: Option<Vec<u8>>,
}

impl Slot {
    // The bytes held; `None` where the slot is empty.
    pub(crate) fn content(&self) -> Option<&[u8]>
        ensures { option_map (λ bytes. bytes.now) result ≡ content_of self.now }
    {
        match &self.bytes {
            Some(bytes) => Some(bytes.as_slice()),
            None => None,
        }
    }
}

// The slot of the name.
pub(crate) fn slot_of<'a>(slots: &'a [Slot], name: &str) -> Option<&'a Slot>
    ensures { option_copied result ≡ find (is_named name.now) slots.now }
{
    slots.iter().find(|slot| slot.name.as_str() == name)
}

// The place of the slot of the name.
fn place_of(slots: &[Slot], name: &str) -> Option<usize>
    ensures { result ≡ position (is_named name.now) slots.now }
{
    slots.iter().position(|slot| slot.name.as_str() == name)
}

// Puts the bytes into the slot of the name, and answers whether there is one.
pub(crate) fn fill(slots: &mut [Slot], name: &str, bytes: Vec<u8>) -> bool
    ensures found { result ≡ is_some (find (is_named name.now) slots.old) }
    ensures written { OnTrue result (files_of slots.new name.now ≡ Some bytes.items) }
    ensures unchanged { OnFalse result (slots.new ≡ slots.old) }
    ensures others { (n : List ℕ) → n ≢ name.now → files_of slots.new n ≡ files_of slots.old n }
    ensures names { names_of slots.new ≡ names_of slots.old }
{
    match place_of(slots, name) {
        Some(place) => {
            slots[place].bytes = Some(bytes);
            true
        }
        None => false,
    }
}
