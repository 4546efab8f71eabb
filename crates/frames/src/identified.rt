ghost use Rattle.std.specs.Prelude.{◌≡◌, ℕ};
ghost use Rattle.frames.specs.Contents.{content_of};

use crate::frame::Frame;

// What can name the identifier under which it goes over the bus.
pub trait Identified {
    ghost ident: { Self → ℕ };

    fn identifier(&self) -> u32
        ensures { result ≡ ident self.now };
}

impl Identified for Frame {
    ghost ident = { λ f. (content_of f).id };

    fn identifier(&self) -> u32 {
        u32::from(self.id())
    }
}

// A number is its own identifier.
impl Identified for u32 {
    ghost ident = { λ n. n };

    fn identifier(&self) -> u32 {
        *self
    }
}
