// A message, as far as it is read: it has `len` bytes and begins with `start`, which has the first 40 of them, or all.
ghost use Rattle.page.specs.Types.{Begins};

#[derive(Clone, Copy)]
pub struct Message<'a> {
    pub start: &'a [u8],
    pub len: usize,
    ghost begins: { Begins len start.now },
}
