//! A list in the making: ids behind one another, and how many there are.
#![tactic(auto)]

ghost use Rattle.std.specs.Prelude.{◌≡◌, ◌<◌, ◌≤◌, [], ◌∷◌, ◌++◌, length, take};
ghost use Rattle.sizes.specs.Sizes as size;

// An array, and how many ids of it are the list.
#[derive(Clone, Copy, Debug)]
pub struct Ids {
    ids: [u16; sizes::WIDTH],
    len: usize,
    ghost in_array: { len ≤ size.width },
}

impl Ids {
    pub fn new() -> Ids
        ensures { take result.len result.ids ≡ [] }
    {
        Ids {
            ids: [0; sizes::WIDTH],
            len: 0,
        }
    }

    pub fn len(&self) -> usize
        ensures { result ≡ length (take self.now.len self.now.ids) }
    {
        self.len
    }

    pub fn push(&mut self, id: u16)
        requires { length (take self.old.len self.old.ids) < size.width }
        ensures { take self.new.len self.new.ids ≡ take self.old.len self.old.ids ++ (id ∷ []) }
    {
        self.ids[self.len] = id;
        self.len += 1;
    }

    pub fn as_slice(&self) -> &[u16]
        ensures { result.now ≡ take self.now.len self.now.ids }
    {
        &self.ids[..self.len]
    }

    // The array and the length.
    pub fn into_parts(self) -> ([u16; sizes::WIDTH], usize)
        ensures { take result.1 result.0 ≡ take self.len self.ids }
    {
        let ids = self.ids;
        (ids, self.len)
    }
}
