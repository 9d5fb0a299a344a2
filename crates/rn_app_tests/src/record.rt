//! Texts of runs without firings.
ghost use Rattle.rn_record.specs.RecordText.{first_names};
ghost use Rattle.rn_record.specs.Writable.{HasEnd};

use rn_items::Items;
use rn_model::{Entry, Reason, System, Told};
use rn_record::write_told;
use rn_value::NoMemory;
use std::alloc::Global;
use std::test::Fail;

fn no_nets(alloc: Global) -> System {
    System {
        nets: Items::new(alloc),
        channels: Items::new(alloc),
    }
}

fn text_of_end(alloc: Global, system: &System, reason: Reason) -> Result<Vec<u8>, NoMemory>
    requires { HasEnd system.now first_names reason }
{
    let mut entries = Items::new(alloc);
    entries.push(Entry::End(reason))?;
    let told = Told {
        entries,
        marks: Items::new(alloc),
    };
    write_told(alloc, system, 1, &told)
}

// Whether the text of a run of no firings with each of these ends is the one beside it.
fn are_written(alloc: Global) -> Result<bool, NoMemory> {
    let system = no_nets(alloc);
    Ok(
        text_of_end(alloc, &system, Reason::Dead)?.as_slice() == b"end dead\n".as_slice()
            && text_of_end(alloc, &system, Reason::Steps)?.as_slice() == b"end steps\n".as_slice()
            && text_of_end(alloc, &system, Reason::Memory)?.as_slice()
                == b"end memory\n".as_slice(),
    )
}

#[test]
fn ends(rt: HostRuntime) -> Result<(), Fail> {
    assert!(rt; are_written(rt.alloc())?);
    Ok(())
}
