// Appending an item: where there is room it takes no memory, so it can't be refused; else want of memory is told by its one word.
ghost use Rattle.std.specs.Prelude.{◌≡◌, ◌<◌, ◌≤◌, ◌∷◌, ◌++◌, [], OnErr, OnOk, vec_capacity, vec_len};

use crate::Memory;

/// Appends an item where the vector has room for one more. It takes no memory, and the vector's room stays what it is.
pub fn push_in_room<T: Drop>(items: &mut Vec<T>, item: T)
    requires { vec_len items.old < vec_capacity items.old }
    ensures items { items.new.items ≡ items.old.items ++ item ∷ [] }
    ensures capacity { vec_capacity items.old ≤ vec_capacity items.new }
    ensures exact { vec_capacity items.new ≡ vec_capacity items.old }
{
    items.push_reserved(item);
}

/// Appends an item. It is refused for want of memory alone, and then nothing has changed.
pub fn push<T: Drop>(items: &mut Vec<T>, item: T) -> Result<(), Memory>
    ensures items { OnOk result (items.new.items ≡ items.old.items ++ item ∷ []) }
    ensures as_before { OnErr result (items.new.items ≡ items.old.items) }
{
    Ok(items.push(item)?)
}
