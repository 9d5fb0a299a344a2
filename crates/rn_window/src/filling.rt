//! A text behind the bytes of a vector.
ghost use Rattle.std.specs.Prelude.{◌≡◌, ◌++◌, ◌+◌, ◌<◌, length, min, vec_capacity, vec_len};
ghost use Rattle.std.specs.Prelude.{OnOk, OnErr, IfErr};
ghost use Rattle.rn_window.specs.Windows.{top};

use crate::text::Text;
use crate::window::Window;
use rn_items::NoMemory;
use std::alloc::Global;
use std::mem;

/// Appends a text. It is written twice where the vector has to grow for it.
pub fn fill<T: Text>(alloc: Global, text: &T, out: &mut Vec<u8>) -> Result<(), NoMemory>
    ensures ok { OnOk result (out.new.items ≡ out.old.items ++ T.text text.now) }
    ensures err { OnErr result (out.new.items ≡ out.old.items) }
{
    match put_behind(alloc, text, out) {
        Ok(()) => Ok(()),
        Err(came) => {
            out.reserve(came)?;
            match put_behind(alloc, text, out) {
                Ok(()) => Ok(()),
                Err(_) => unreachable!(),
            }
        }
    }
}

// Appends a text where the vector has room for it, or else says how many bytes it has.
fn put_behind<T: Text>(alloc: Global, text: &T, out: &mut Vec<u8>) -> Result<(), usize>
    ensures ok { OnOk result (out.new.items ≡ out.old.items ++ T.text text.now) }
    ensures err { OnErr result (out.new.items ≡ out.old.items) }
    ensures came { IfErr result (λ came. came ≡ min top (length (T.text text.now))) }
    ensures full { IfErr result (λ came. vec_capacity out.old < vec_len out.old + came) }
{
    let length = out.len();
    let mut window = Window::over(mem::replace(out, Vec::new(alloc)));
    text.put(&mut window);
    let came = window.came();
    let room = window.room().saturating_sub(length);
    if came <= room {
        *out = window.into_vec();
        return Ok(());
    }
    window.begin(length, 0);
    *out = window.into_vec();
    Err(came)
}
