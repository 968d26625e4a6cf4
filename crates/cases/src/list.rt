// Lists in fixed memory.

// The first n entries, all of them where there are fewer.
pub(crate) fn some<T>(s: &[T], n: usize) -> &[T] {
    &s[..n.min(s.len())]
}

// At most N entries: the first `len` of an array.
// Kept: an array with its length beside it, since the project has no heap.
#[derive(Clone, Copy)]
pub(crate) struct List<T, const N: usize> {
    all: [T; N],
    len: usize,
}

impl<T: Copy, const N: usize> List<T, N> {
    // As many as told, at most N, each the same one; so are those past them.
    pub(crate) fn of(x: T, len: usize) -> List<T, N> {
        List { all: [x; N], len }
    }

    pub(crate) fn entries(&self) -> &[T] {
        some(&self.all, self.len)
    }

    pub(crate) fn entries_mut(&mut self) -> &mut [T] {
        let n = self.len.min(N);
        &mut self.all[..n]
    }

    // All N, those past the length too.
    pub(crate) fn all_mut(&mut self) -> &mut [T] {
        &mut self.all
    }

    // Another length, at most N: what the array holds stays.
    pub(crate) fn resize(&mut self, len: usize) {
        self.len = len;
    }

    // One more, none where the list is full.
    pub(crate) fn push(&mut self, x: T) -> Option<()> {
        let slot = self.all.get_mut(self.len)?;
        *slot = x;
        self.len = self.len.wrapping_add(1);
        Some(())
    }
}
