//! Lists in public fields, which contracts see as the lists of their items.

ghost use Rattle.std.specs.Prelude.{◌≡◌, List};

use std::marker::Model;

/// Items in order. A contract sees them as a list. It is made of a `Vec` without taking memory.
#[derive(Debug, Drop)]
pub struct Items<T> {
    items: Vec<T>,
}

impl<T> Model for Items<T> {
    ghost Value = { List T };

    ghost view = { λ l. l.items.items };
}

impl<T> Items<T> {
    /// The items.
    pub fn as_slice(&self) -> &[T]
        ensures { result.now ≡ self.now }
    {
        self.items.as_slice()
    }
}

impl<T> From<Vec<T>> for Items<T> {
    ghost from_gives = { λ items list. list ≡ items.items };

    fn from(items: Vec<T>) -> Items<T> {
        Items { items }
    }
}
