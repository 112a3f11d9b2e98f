// A list of names, each found by its number, and its number by the name.
ghost use Rattle.std.specs.Prelude.{◌≡◌, [], ◌<◌, ◌≤◌, true, length, get_or};
ghost use Rattle.names.specs.Names.{number_in};
ghost use Rattle.names.specs.Spelling.{name_of};
ghost use Rattle.names.specs.Table.{listed, is_table};

use crate::{Name, hash, name_of};

#[derive(Clone, Copy)]
pub struct Table<'a, const N: usize> {
    // The names, one after the other.
    pub names: &'a [u8],
    // Where each name starts among them, and where the last one ends.
    pub starts: &'a [u8],
    // By hash, the number of the only name that has that hash. How many there are stands in the type, so that no division is needed.
    pub by_hash: &'a [u8; N],
    ghost sized: { length by_hash.now ≡ N },
    ghost right: { is_table names.now starts.now by_hash.now ≡ true },
}

impl<const N: usize> Table<'_, N> {
    // The bytes of a name, by its number.
    fn at(&self, number: u8) -> &[u8]
        requires { number < length (listed self.now.names.now self.now.starts.now) }
        ensures bytes { result.now ≡ get_or (listed self.now.names.now self.now.starts.now) number [] }
        ensures short { length result.now ≤ 11 }
    {
        let at = usize::from(number);
        let start = usize::from(self.starts[at]);
        let end = usize::from(self.starts[at + 1]);
        &self.names[start..end]
    }

    // How the name of a number is spelled.
    pub fn name(&self, number: u8) -> Name
        requires { number < length (listed self.now.names.now self.now.starts.now) }
        ensures { result ≡ name_of (get_or (listed self.now.names.now self.now.starts.now) number []) }
    {
        name_of(self.at(number))
    }

    // The number of the name that a text is: it may be the one with the text's hash, and no other.
    pub fn number(&self, text: &[u8]) -> Option<u8>
        ensures { result ≡ number_in (listed self.now.names.now self.now.starts.now) text.now }
    {
        let number = self.by_hash[hash(text) % N];
        if self.at(number) == text {
            Some(number)
        } else {
            None
        }
    }
}
