//! A table is built and run. Tables and runs worked by hand stand in `proofs/WorkedChains.antt`.
use crate::{Chain, ChainTable, Verdict};
use cd_target::Target;
use cd_value::{DataSet, Identifier, Names, RateView, Rates, Sequence, Text, Value, ValueList};
use std::alloc::Global;
use std::test::Fail;

/// No rates at all.
struct Nothing;

impl RateView for Nothing {
    ghost use Rattle.std.specs.Prelude.{None};

    ghost rates_at = { λ v name. None };

    fn rates(&self, _name: &Text) -> Option<&Rates> {
        None
    }
}

fn list_of(alloc: Global) -> Result<ValueList, Fail> {
    let id = Identifier::read(alloc, "h/p/derive")?;
    let mut values = Sequence::new(alloc);
    values.push(Value::Derive(7))?;
    Ok(ValueList {
        id,
        time: 1,
        interval: 10,
        values,
    })
}

fn set_of(alloc: Global) -> Result<DataSet, Fail> {
    Ok(DataSet {
        name: Text::of(alloc, "derive")?,
        sources: Sequence::new(alloc),
    })
}

fn chain_of(alloc: Global, name: &str, targets: Vec<Target>) -> Result<Chain, Fail> {
    Ok(Chain {
        name: Text::of(alloc, name)?,
        rules: Sequence::new(alloc),
        defaults: Sequence::from_vec(targets),
    })
}

/// Chains in a row, each of which jumps to the one behind it; the last one writes.
fn row_of(alloc: Global, chains: u64) -> Result<Sequence<Chain>, Fail> {
    let mut row = Sequence::new(alloc);
    for n in 0..chains {
        let name = format!(in alloc; "c{n}")?;
        let mut targets = Vec::new(alloc);
        if n + 1 < chains {
            let next = format!(in alloc; "c{}", n + 1)?;
            targets.push(Target::Jump(Text::from_string(next)))?;
        } else {
            targets.push(Target::Write(Names::new(alloc)))?;
        }
        row.push(chain_of(alloc, name.as_str(), targets)?)?;
    }
    Ok(row)
}

#[test]
fn long_row(rt: HostRuntime) -> Result<(), Fail> {
    let alloc = rt.alloc();
    let chains = row_of(alloc, 60)?;
    let mut table = ChainTable::build(alloc, chains).ok().ok_or("refused")?;
    assert_eq!(rt; table.find("c59"), Some(59));
    assert!(rt; table.len() == 60);
    let list = list_of(alloc)?;
    let set = set_of(alloc)?;
    let done = table.run(alloc, 0, &list, &set, &Nothing, 0)?;
    assert_eq!(rt; done.verdict, Verdict::Continue);
    assert!(rt; done.changed.is_none());
    assert_eq!(rt; done.actions.len(), 1);
    Ok(())
}
