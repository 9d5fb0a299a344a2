//! The workload text.
ghost use Rattle.std.specs.Prelude.{◌≡◌, ◌≤◌, IfOk};
ghost use Rattle.rn_gen.specs.Workload.{workload, most_copies};

use rn_items::NoMemory;
use std::alloc::Global;

/// How many copies of net `worker` a workload text makes at most.
pub const MOST_COPIES: u32 = 10_000;

// The text up to the number of workers.
const BEFORE: &str = "channel go(int);
channel done();
net main {
  var n: int;
  var k: int;
  var w: net;
  place c: int = ";

// The text after it.
const AFTER: &str = ";
  place busy: net;
  trans make {
    in c: n;
    guard n > 0;
    w: new worker;
    out c: n - 1;
    out busy: w;
  }
  trans step {
    in busy: w;
    w:go(k);
    out busy: w;
  }
  trans finish {
    in busy: w;
    w:done();
  }
}
net worker {
  var k: int;
  place s: int = 0;
  trans go {
    :go(k);
    in s: k;
    guard k < 3;
    out s: k + 1;
  }
  trans done {
    :done();
    in s: 3;
  }
}
";

/// The net text of so many workers, as bytes in UTF-8. It is canonical.
///
/// Net `main` makes the workers one after another. Each takes three steps by a channel, and is
/// then given up. So a run that ends has five firings for each worker, whatever their order, and
/// leaves `main` alone alive.
pub fn gen_text(alloc: Global, n: u32) -> Result<Vec<u8>, NoMemory>
    requires least { 1 ≤ n }
    requires most { n ≤ most_copies }
    ensures { IfOk result (λ text. text.items ≡ workload n) }
{
    let number = n.to_string(alloc)?;
    let mut text = Vec::new(alloc);
    text.extend_from_slice(BEFORE.as_bytes())?;
    text.extend_from_slice(number.as_bytes())?;
    text.extend_from_slice(AFTER.as_bytes())?;
    Ok(text)
}
