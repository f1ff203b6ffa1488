//! What `bench` writes of made problems.

ghost use Rattle.std.specs.Prelude.{◌≡◌, IfOk};

use cpt_bench::bench;
use cpt_io::{MemSink, Sink};
use std::alloc::Global;
use std::process::Abort;
use std::test::Fail;

/// An output with so much room.
fn output(alloc: Global, room: usize) -> Result<MemSink, Fail>
    ensures { IfOk result (λ sink. ⟦<MemSink as Sink>⟧.faults sink ≡ 0) }
{
    match MemSink::new(alloc, room, Vec::new(alloc)) {
        Ok(sink) => Ok(sink),
        Err(_) => Err("memory")?,
    }
}

fn expect(rt: &impl Abort, alloc: Global, n: u32, text: &str) -> Result<(), Fail> {
    assert!(rt; 1 <= n && n <= 40);
    let mut out = output(alloc, 4096)?;
    let status = bench(alloc, n, &mut out);
    assert_eq!(rt; status, 0);
    assert_eq!(rt; out.written(), text.as_bytes());
    Ok(())
}

#[test]
fn one_package(rt: HostRuntime) -> Result<(), Fail> {
    expect(
        &rt,
        rt.alloc(),
        1,
        "bench 1\natoms 6\nactions 5\nmakespan 5\naccepted: optimal 5\n",
    )
}

#[test]
fn eight_packages(rt: HostRuntime) -> Result<(), Fail> {
    expect(
        &rt,
        rt.alloc(),
        8,
        "bench 8\natoms 97\nactions 152\nmakespan 26\naccepted: optimal 26\n",
    )
}

#[test]
fn a_front_is_written_where_the_room_ends(rt: HostRuntime) -> Result<(), Fail> {
    let mut out = output(rt.alloc(), 10)?;
    let status = bench(rt.alloc(), 1, &mut out);
    assert_eq!(rt; status, 8);
    assert_eq!(rt; out.written(), "bench 1\nat".as_bytes());
    Ok(())
}
