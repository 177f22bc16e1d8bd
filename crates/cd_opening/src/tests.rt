//! Configurations over files in memory: what is written at each fault, and which types are in force.
use crate::{open_configuration, open_defaults, status, text_of};
use cd_io::{MemFile, MemWorld, SourcePlan};
use cd_value::Text;
use std::alloc::Global;
use std::test::Fail;

/// A world with the files `c`, `t` and `u`.
fn world_of(alloc: Global, texts: [&str; 3]) -> Result<MemWorld, Fail> {
    let [conf, first, second] = texts;
    let mut world = MemWorld::new(alloc, (0, 1), (0, 1));
    world.add_file(MemFile::of(alloc, "c", conf.as_bytes())?)?;
    world.add_file(MemFile::of(alloc, "t", first.as_bytes())?)?;
    world.add_file(MemFile::of(alloc, "u", second.as_bytes())?)?;
    Ok(world)
}

/// The status and the text of the fault of the configuration `c`; 0 and none where it has none.
fn told(alloc: Global, world: &mut MemWorld) -> Result<(u8, Text), Fail> {
    match open_configuration(alloc, world, "c") {
        Ok(_) => Ok((0, Text::new(alloc))),
        Err(fault) => Ok((status(&fault), text_of(alloc, &fault)?)),
    }
}

#[test]
fn first_faults_are_told(rt: HostRuntime) -> Result<(), Fail> {
    let alloc = rt.alloc();
    for (texts, number, text) in [
        (["TypesDB t", "a v:GAUGE:0:U", ""], 0, ""),
        (
            ["<Plugin x>", "", ""],
            2,
            "collectd: configuration, line 1: unclosed section\n",
        ),
        (
            ["TypesDB t", "# a\na v:FLOAT:0:U", ""],
            2,
            "collectd: t, line 2: bad kind\n",
        ),
        (
            ["TypesDB t u\nFoo 1", "a", "b"],
            2,
            "collectd: t, line 1: bad source\n",
        ),
        (
            ["TypesDB t x", "a", ""],
            2,
            "collectd: t, line 1: bad source\n",
        ),
        (
            ["\nFoo 1", "", ""],
            2,
            "collectd: settings, line 2: unknown option\n",
        ),
        (
            ["TypesDB t\nTypesDB x\nFoo 1", "", ""],
            3,
            "collectd: cannot open x\n",
        ),
    ] {
        let (ended, said) = told(alloc, &mut world_of(alloc, texts)?)?;
        assert_eq!(rt; ended, number);
        assert_eq!(rt; said.as_str(), text);
    }
    Ok(())
}

#[test]
fn files_that_fail_are_told(rt: HostRuntime) -> Result<(), Fail> {
    let alloc = rt.alloc();
    let mut world = world_of(alloc, ["TypesDB t", "", ""])?;
    world.fail_file(1)?;
    let (ended, said) = told(alloc, &mut world)?;
    assert_eq!(rt; ended, 3);
    assert_eq!(rt; said.as_str(), "collectd: cannot open t\n");

    let mut plan = SourcePlan::new(alloc);
    plan.piece_limit = 4;
    plan.failing_reads.push(1)?;
    let mut texts = Vec::new(alloc);
    texts.push(b"a v:GAUGE:0:U".to_vec(alloc)?)?;
    let mut world = MemWorld::new(alloc, (0, 1), (0, 1));
    world.add_file(MemFile::of(alloc, "c", b"TypesDB t")?)?;
    world.add_file(MemFile::new(alloc, "t", texts, plan)?)?;
    let (ended, said) = told(alloc, &mut world)?;
    assert_eq!(rt; ended, 4);
    assert_eq!(rt; said.as_str(), "collectd: cannot read t\n");
    Ok(())
}

#[test]
fn types_are_those_of_the_files(rt: HostRuntime) -> Result<(), Fail> {
    let alloc = rt.alloc();
    let texts = ["TypesDB t u", "a v:GAUGE:0:U", "a v:GAUGE:0:U, w:GAUGE:0:U"];
    let opened = open_configuration(alloc, &mut world_of(alloc, texts)?, "c").ok();
    let opened = opened.ok_or("a fault")?;
    let set = opened.types.get("a").ok_or("no type")?;
    assert_eq!(rt; set.sources.len(), 2);
    assert!(rt; opened.types.get("gauge").is_none());
    let opened = open_configuration(alloc, &mut world_of(alloc, ["", "", ""])?, "c").ok();
    assert!(rt; opened.ok_or("a fault")?.types.get("gauge").is_some());
    assert!(rt; open_defaults(alloc)?.types.get("gauge").is_some());
    Ok(())
}
