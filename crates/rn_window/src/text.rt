//! What has a text.
ghost use Rattle.std.specs.Prelude.{◌≡◌};
ghost use Rattle.rn_window.specs.Windows.{after};

use crate::window::Window;

/// What has a text, which can be written into a window.
pub trait Text {
    ghost use Rattle.std.specs.Prelude.{ℕ, List};

    /// The text.
    ghost text: { Self → List ℕ };

    /// Writes the text.
    fn put(&self, window: &mut Window)
        ensures { window.new ≡ after window.old (text self.now) };
}

/// Bytes as a text.
#[derive(Drop)]
pub struct Plain<'a> {
    pub bytes: &'a [u8],
}

impl<'a> Text for Plain<'a> {
    ghost text = { λ t. t.bytes.now };

    fn put(&self, window: &mut Window) {
        window.put(self.bytes);
    }
}
