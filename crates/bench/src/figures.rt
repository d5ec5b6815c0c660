//! The figures, a line each.

use crate::calls::{Call, Calls, Makes, Mounts};
use crate::rows::Rows;
use crate::volumes::{Directory, LARGE, SAMPLE, SMALL, Shape, SizedFile, Tree};
use crate::work::{Measure, Work, how_many, how_many_of_both, shortest_turn};
use disk::FileDevice;
use std::alloc::Global;
use std::fs::{File, Files};
use std::time::Clock;

/// Measures a small and a large volume over memory, and both over a file that is made anew.
pub fn print_figures<R>(rt: &R, alloc: Global, path: &str) -> anyhow::Result<()>
where
    R: Clock + Print + Files<File = File>,
{
    for shape in [SMALL, LARGE] {
        print_shape(rt, shape, "memory")?;
        let device = Rows::new(alloc, shape.sectors)?;
        print_volume(rt, alloc, Measure::Rate, device, shape)?;
    }
    for shape in [SMALL, LARGE] {
        print_shape(rt, shape, "a file")?;
        let device = Rows::over(FileDevice::create(rt, alloc, path, shape.sectors)?);
        print_volume(rt, alloc, Measure::Rate, device, shape)?;
    }
    Ok(())
}

/// Does each kind of work once, on a volume that has all that the large one has.
pub fn print_counts<R: Clock + Print>(rt: &R, alloc: Global) -> anyhow::Result<()> {
    print_shape(rt, SAMPLE, "memory")?;
    let device = Rows::new(alloc, SAMPLE.sectors)?;
    print_volume(rt, alloc, Measure::Turn, device, SAMPLE)
}

fn print_shape<R: Print>(rt: &R, shape: Shape, over: &str) -> anyhow::Result<()> {
    let Shape { sectors, nodes, .. } = shape;
    println!(rt; "volume: {sectors} sectors and {nodes} nodes, over {over}")?;
    Ok(())
}

fn print_volume<R: Clock + Print>(
    rt: &R,
    alloc: Global,
    measure: Measure,
    device: Rows,
    shape: Shape,
) -> anyhow::Result<()> {
    let tree = Tree::new(alloc, device, shape)?;
    let tree = print_all_makes(rt, measure, tree)?;
    let mut calls = Calls::new(alloc, tree)?;
    print_all_calls(rt, measure, &mut calls)?;
    let mut mounts = Mounts::new(alloc, calls.tree);
    print_mount(rt, measure, &mut mounts)
}

fn print_all_makes<R: Clock + Print>(rt: &R, measure: Measure, tree: Tree) -> anyhow::Result<Tree> {
    let mut makes = Makes {
        directory: tree.few,
        tree,
    };
    print_makes(rt, measure, &mut makes)?;
    if let Some(many) = makes.tree.many {
        makes.directory = many;
        print_makes(rt, measure, &mut makes)?;
    }
    Ok(makes.tree)
}

fn print_makes<R: Clock + Print>(
    rt: &R,
    measure: Measure,
    makes: &mut Makes,
) -> anyhow::Result<()> {
    let names = makes.directory.files;
    let (made, removed) = how_many_of_both(rt, measure, makes)?;
    println!(rt; "  file made among {names} names: {made} {measure}")?;
    println!(rt; "  file removed among {names} names: {removed} {measure}")?;
    Ok(())
}

fn print_all_calls<R: Clock + Print>(
    rt: &R,
    measure: Measure,
    calls: &mut Calls,
) -> anyhow::Result<()> {
    let (few, many) = (calls.tree.few, calls.tree.many);
    print_in_directory(rt, measure, calls, few)?;
    if let Some(many) = many {
        print_in_directory(rt, measure, calls, many)?;
    }
    let (short, long) = (calls.tree.short, calls.tree.long);
    print_in_file(rt, measure, calls, short)?;
    if let Some(long) = long {
        print_in_file(rt, measure, calls, long)?;
    }
    print_call(rt, measure, calls, Call::ReadDir)
}

fn print_in_directory<R: Clock + Print>(
    rt: &R,
    measure: Measure,
    calls: &mut Calls,
    directory: Directory,
) -> anyhow::Result<()> {
    print_call(rt, measure, calls, Call::Rename(directory))?;
    print_call(rt, measure, calls, Call::LookUp(directory))
}

fn print_in_file<R: Clock + Print>(
    rt: &R,
    measure: Measure,
    calls: &mut Calls,
    file: SizedFile,
) -> anyhow::Result<()> {
    for is_stable in [true, false] {
        print_call(rt, measure, calls, Call::Write { file, is_stable })?;
    }
    print_call(rt, measure, calls, Call::Read(file))
}

fn print_call<R: Clock + Print>(
    rt: &R,
    measure: Measure,
    calls: &mut Calls,
    call: Call,
) -> anyhow::Result<()> {
    calls.call = call;
    let done = how_many(rt, measure, calls)?;
    println!(rt; "  {call}: {done} {measure}")?;
    Ok(())
}

fn print_mount<R: Clock + Print>(
    rt: &R,
    measure: Measure,
    mounts: &mut Mounts,
) -> anyhow::Result<()> {
    match measure {
        Measure::Turn => {
            let mounted = mounts.turn()?;
            println!(rt; "  mounted: {mounted} {measure}")?;
        }
        Measure::Rate => {
            let time = shortest_turn(rt, mounts)?;
            println!(rt; "  mounted in {} microseconds", time.as_micros())?;
        }
    }
    Ok(())
}
