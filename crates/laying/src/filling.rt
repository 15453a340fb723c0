// Records written one after another into memory handed in.
ghost use Rattle.std.specs.Prelude.{◌≡◌};
ghost use Rattle.laying.specs.Rows.{only};
ghost use Rattle.laying.specs.Filled.{HasRoom, Appends};

// Memory, and how many records stand at its start.
// Kept: the length beside the memory, which the caller hands in; a `Vec` would allocate, and laying may not.
#[derive(Drop)]
pub(crate) struct Filling<'a, T> {
    out: &'a mut [T],
    len: usize,
}

impl<'a, T: Copy + Drop> Filling<'a, T> {
    pub(crate) fn new(out: &'a mut [T]) -> Filling<'a, T>
        ensures none { result.len ≡ 0 }
        ensures kept { result.out.now ≡ out.old }
        ensures same { result.out.ghost_name ≡ out.entry.ghost_name }
    {
        Filling { out, len: 0 }
    }

    // Appends an entry if it is wanted.
    pub(crate) fn push_if(&mut self, wanted: bool, entry: T)
        requires { HasRoom self.old (only wanted entry) }
        ensures { Appends self.old self.new (only wanted entry) }
    {
        if wanted {
            self.out[self.len] = entry;
            self.len += 1;
        }
    }
}
