// What has a name.
ghost use Rattle.std.specs.Prelude.{◌≡◌, ℕ, List};

use crate::text::Text;

/// What has a name, by whose bytes it is put in order. This project's own.
pub trait Named: Drop {
    ghost name_of: { Self → List ℕ };

    /// The bytes of the name, in constant time.
    fn name(&self) -> &[u8]
        ensures { result.now ≡ name_of self.now };
}

impl Named for Text {
    ghost name_of = { λ t. t };

    fn name(&self) -> &[u8] {
        self.as_bytes()
    }
}

impl Named for Vec<u8> {
    ghost name_of = { λ b. b.items };

    fn name(&self) -> &[u8] {
        self.as_slice()
    }
}
