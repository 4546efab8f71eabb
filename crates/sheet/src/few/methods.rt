ghost use Rattle.std.specs.Prelude.{◌≡◌, ◌≤◌, [], ◌∷◌, ◌++◌, length, take};
ghost use Rattle.sheet.specs.Few.{few_items};

use super::Few;

impl<T: Copy, const N: usize> Few<T, N> {
    // The empty list; `blank` stands where nothing is yet.
    pub fn new(blank: T) -> Few<T, N>
        ensures { few_items result ≡ [] }
    {
        Few {
            items: [blank; N],
            len: 0,
        }
    }

    // One more at the end; what comes after the N-th is left away.
    pub fn push(&mut self, item: T)
        ensures { few_items self.new ≡ take N (few_items self.old ++ item ∷ []) }
    {
        if self.len < N {
            self.items[self.len] = item;
            self.len += 1;
        }
    }

    pub fn as_slice(&self) -> &[T]
        ensures items { result.now ≡ take self.now.len self.now.items }
        ensures few { length result.now ≤ N }
    {
        &self.items[..self.len]
    }
}
