// What is asked, in four lent arrays: the ith question has the ith of each.
ghost use Rattle.std.specs.Prelude.{◌≡◌, ◌<◌, slice_index, length};
ghost use Rattle.conservation.specs.Inner.{Equal};

#[derive(Clone, Copy)]
pub struct Questions<'a> {
    pub operations: &'a [u32],
    pub xs: &'a [u32],
    pub ys: &'a [u32],
    pub counts: &'a [u32],
}

// An operation number, two patterns, and how many of the lent words it is given.
#[derive(Clone, Copy)]
pub struct Question {
    pub operation: u32,
    pub x: u32,
    pub y: u32,
    pub count: u32,
}

impl<'a> Questions<'a> {
    pub fn len(self) -> usize
        ensures { result ≡ length self.entry.operations.now }
    {
        self.operations.len()
    }

    // By its place: zipped, four arrays come as pairs in pairs, where each part has to be taken out by hand too.
    pub fn get(self, i: usize) -> Question
        requires equal { Equal self }
        requires inside { i < length self.operations.now }
        ensures { result ≡ record {
          operation = slice_index self.entry.operations.now i;
          x = slice_index self.entry.xs.now i;
          y = slice_index self.entry.ys.now i;
          count = slice_index self.entry.counts.now i;
        } }
    {
        Question {
            operation: self.operations[i],
            x: self.xs[i],
            y: self.ys[i],
            count: self.counts[i],
        }
    }
}
