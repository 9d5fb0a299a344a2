//! The words of the program, as the system gives them.
ghost use Rattle.std.specs.Prelude.{◌≡◌, ◌⊎◌, drop, IfErr};
ghost use Rattle.rn_answering.specs.declared.status.TheConstants.{NO_MEMORY};
ghost use Rattle.renew.specs.declared.words.TheConstants.{NO_WORDS};

use rn_answering::NO_MEMORY;
use std::env;
use std::io::ErrorKind;

/// The status where the system can't give the words, but for want of memory. The top call never
/// returns it.
pub(crate) const NO_WORDS: u8 = 8;

/// The words after the program's name, which is the first.
pub(crate) fn after_name(words: &[String]) -> &[String]
    ensures { result.now ≡ drop 1 words.now }
{
    match words.split_first() {
        Some((_, rest)) => rest,
        None => words,
    }
}

/// The words of the program, its name first; or the status with which it ends without them.
pub(crate) fn words_of(rt: &HostRuntime) -> Result<Vec<String>, u8>
    ensures { IfErr result (λ status. (status ≡ NO_MEMORY) ⊎ (status ≡ NO_WORDS)) }
{
    let words = match env::args(rt) {
        Ok(words) => words,
        Err(error) if error.kind() == ErrorKind::OutOfMemory => return Err(NO_MEMORY),
        Err(_) => return Err(NO_WORDS),
    };
    match words.collect(rt.alloc()) {
        Ok(words) => Ok(words),
        Err(_) => Err(NO_MEMORY),
    }
}
